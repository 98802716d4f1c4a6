// The graphs that several tables name; the term in question is the last node, unless a row says another.
use crate::bench::Term;

/// x * x + 1
pub(crate) const SQUARE_AND_ONE: [Term; 4] = [
    Term::Var(0),
    Term::Sq(0),
    Term::Whole(1),
    Term::Add(1, 2),
];

/// x * x * x
pub(crate) const CUBE: [Term; 3] = [Term::Var(0), Term::Mul(0, 0), Term::Mul(1, 0)];

/// x * y - y * x
pub(crate) const DIFFERENCE: [Term; 6] = [
    Term::Var(0),
    Term::Var(1),
    Term::Mul(0, 1),
    Term::Mul(1, 0),
    Term::Neg(3),
    Term::Add(2, 4),
];

/// x * x * x - 1, x * y - y * x, x^2 + y^2 - 1 and x * y - 1, each over x, y and -1.
pub(crate) const GRAPHS: [&[Term]; 4] = [
    &[
        Term::Var(0),
        Term::Var(1),
        Term::Whole(-1),
        Term::Mul(0, 0),
        Term::Mul(3, 0),
        Term::Add(4, 2),
    ],
    &[
        Term::Var(0),
        Term::Var(1),
        Term::Whole(-1),
        Term::Mul(0, 1),
        Term::Mul(1, 0),
        Term::Neg(4),
        Term::Add(3, 5),
    ],
    &[
        Term::Var(0),
        Term::Var(1),
        Term::Whole(-1),
        Term::Sq(0),
        Term::Sq(1),
        Term::Add(3, 4),
        Term::Add(5, 2),
    ],
    &[
        Term::Var(0),
        Term::Var(1),
        Term::Whole(-1),
        Term::Mul(0, 1),
        Term::Add(3, 2),
    ],
];
