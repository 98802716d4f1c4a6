// Lines over boxes from -1 to 1, with squares that were worked out by hand.
use crate::made::{Squares, blocks, number, space, told};
use dyadic::{Dy, Ext};
use ival::{Ival, Space};
use poly_graph::Problem;
use problem_build::read_problem;
use squares::Combination;
use std::alloc::Global;

// A script, atoms with their multipliers, up to where the atom's value may lie, blocks, each with its number of times, and
// whether the line is positive.
struct Row {
    what: &'static str,
    script: &'static str,
    pairs: &'static [(u32, &'static str, &'static str)],
    blocks: &'static [(usize, Squares)],
    positive: bool,
}

// Atoms with their multipliers, and the ranges of their values.
#[derive(Drop)]
struct Pairs {
    multipliers: Vec<(u32, Dy)>,
    ranges: Vec<Ival>,
}

fn read_pairs(alloc: Global, texts: &[(u32, &str, &str)]) -> Option<Pairs> {
    let mut multipliers = Vec::new(alloc);
    let mut ranges = Vec::new(alloc);
    for (atom, multiplier, most) in texts {
        multipliers.push((*atom, number(multiplier)?)).ok()?;
        ranges
            .push(Ival::new(Ext::NegInf, Ext::Fin(number(most)?)))
            .ok()?;
    }
    Some(Pairs {
        multipliers,
        ranges,
    })
}

// Whether the line is positive, over the box and about its middle.
fn told_in_box(
    alloc: Global,
    problem: &Problem,
    pairs: &Pairs,
    all: &[(usize, Squares)],
) -> Option<bool> {
    let space = space(alloc, problem, "-1b0", "1b0")?;
    let centre = at_nought(alloc, problem)?;
    let blocks = blocks(alloc, all)?;
    let combination = Combination {
        problem,
        multipliers: &pairs.multipliers,
        ranges: &pairs.ranges,
    };
    told(alloc, &combination, &blocks, &space, &centre)
}

// The middle of the box.
fn at_nought(alloc: Global, problem: &Problem) -> Option<Space> {
    space(alloc, problem, "0", "0")
}

fn is_told(alloc: Global, row: &Row) -> bool {
    let Ok(problem) = read_problem(alloc, row.script.as_bytes(), None) else {
        return false;
    };
    match read_pairs(alloc, row.pairs) {
        Some(pairs) => told_in_box(alloc, &problem, &pairs, row.blocks) == Some(row.positive),
        None => false,
    }
}

// The bounds of x and of y are atoms 0 to 3, and those that are asserted the ones from 4 on.

// (x - y)^2 + 1 is positive
const APART: &str = "(declare-const x Real)
(declare-const y Real)
(declare-const b Bool)
(assert (<= (- 1) x 1))
(assert (<= (- 1) y 1))
(assert (<= (+ (* x x) (* (- 2) x y) (* y y) 1) 0))
(check-sat)";

// (1 - x^2) (x - y)^2 + 1/2 is positive, as x^2 is at most 1
const WITHIN: &str = "(declare-const x Real)
(declare-const y Real)
(declare-const b Bool)
(assert (<= (- 1) x 1))
(assert (<= (- 1) y 1))
(assert (<= (+ (* (- 1 (* x x)) (- x y) (- x y)) (/ 1 2)) 0))
(check-sat)";

// x^2 is 0 at 0
const SQUARE: &str = "(declare-const x Real)
(declare-const y Real)
(declare-const b Bool)
(assert (<= (- 1) x 1))
(assert (<= (- 1) y 1))
(assert (<= (* x x) 0))
(check-sat)";

// (a + 1) (c + 1) .. (k + 1), of 1,024 terms; the bounds are atoms 0 to 19
const PRODUCT: &str = "(declare-const a Real)
(declare-const c Real)
(declare-const d Real)
(declare-const e Real)
(declare-const f Real)
(declare-const g Real)
(declare-const h Real)
(declare-const i Real)
(declare-const j Real)
(declare-const k Real)
(assert (and (<= (- 1) a 1) (<= (- 1) c 1) (<= (- 1) d 1) (<= (- 1) e 1) (<= (- 1) f 1)))
(assert (and (<= (- 1) g 1) (<= (- 1) h 1) (<= (- 1) i 1) (<= (- 1) j 1) (<= (- 1) k 1)))
(assert (<= (* (+ a 1) (+ c 1) (+ d 1) (+ e 1) (+ f 1) (+ g 1) (+ h 1) (+ i 1) (+ j 1) (+ k 1)) 0))
(check-sat)";

// the squares of x - y
const DIFFERENCE: Squares = Squares {
    bound: None,
    monomials: &[&[0], &[1]],
    rows: &[&["1b0", "-1b0"], &["0"]],
};

// the square of 0, with 5 numbers of a line
const NOUGHT: Squares = Squares {
    bound: None,
    monomials: &[&[]],
    rows: &[&["0"]],
};

// the same with 6 numbers
const LONGER_NOUGHT: Squares = Squares {
    bound: None,
    monomials: &[&[0]],
    rows: &[&["0"]],
};

// the square of 1, which takes 3 steps more than that of 0
const ONE: Squares = Squares {
    bound: None,
    monomials: &[&[]],
    rows: &[&["1b0"]],
};

// the same with 4 steps more
const LONGER_ONE: Squares = Squares {
    bound: None,
    monomials: &[&[], &[0]],
    rows: &[&["1b0", "0"], &["0"]],
};

const ROWS: [Row; 29] = [
    Row {
        what: "(x - y)^2 is taken away, and 1 is left",
        script: APART,
        pairs: &[(4, "1b0", "1b-20")],
        blocks: &[(1, DIFFERENCE)],
        positive: true,
    },
    Row {
        what: "1 is left, and 1 is allowed",
        script: APART,
        pairs: &[(4, "1b0", "1b0")],
        blocks: &[(1, DIFFERENCE)],
        positive: false,
    },
    Row {
        what: "without the square the least sum of the terms is -1",
        script: APART,
        pairs: &[(4, "1b0", "1b-20")],
        blocks: &[],
        positive: false,
    },
    Row {
        what: "-4 is allowed, and the least sum of the terms is -1",
        script: APART,
        pairs: &[(4, "1b0", "-1b2")],
        blocks: &[],
        positive: true,
    },
    Row {
        what: "x^2 + y^2 is taken away, and 1 - 2 x y is left",
        script: APART,
        pairs: &[(4, "1b0", "1b-20")],
        blocks: &[(
            1,
            Squares {
                bound: None,
                monomials: &[&[0], &[1]],
                rows: &[&["1b0", "0"], &["1b0"]],
            },
        )],
        positive: false,
    },
    Row {
        what: "twice the atom, and twice the square",
        script: APART,
        pairs: &[(4, "1b1", "1b-20")],
        blocks: &[(2, DIFFERENCE)],
        positive: true,
    },
    Row {
        what: "twice the atom, and twice what it allows",
        script: APART,
        pairs: &[(4, "1b1", "1b0")],
        blocks: &[(2, DIFFERENCE)],
        positive: false,
    },
    Row {
        what: "(1 - x^2) (x - y)^2 is taken away, and 1/2 is left",
        script: WITHIN,
        pairs: &[(4, "1b0", "1b-20")],
        blocks: &[(
            1,
            Squares {
                bound: Some(0),
                monomials: &[&[0], &[1]],
                rows: &[&["1b0", "-1b0"], &["0"]],
            },
        )],
        positive: true,
    },
    Row {
        what: "without it the least sum of the terms is below 0",
        script: WITHIN,
        pairs: &[(4, "1b0", "1b-20")],
        blocks: &[],
        positive: false,
    },
    Row {
        what: "no pair",
        script: APART,
        pairs: &[],
        blocks: &[],
        positive: false,
    },
    Row {
        what: "a block without a monomial",
        script: APART,
        pairs: &[(4, "1b0", "-1b2")],
        blocks: &[(
            1,
            Squares {
                bound: None,
                monomials: &[],
                rows: &[],
            },
        )],
        positive: false,
    },
    Row {
        what: "a monomial that stands twice",
        script: APART,
        pairs: &[(4, "1b0", "-1b2")],
        blocks: &[(
            1,
            Squares {
                bound: None,
                monomials: &[&[0], &[0]],
                rows: &[&["0", "0"], &["0"]],
            },
        )],
        positive: false,
    },
    Row {
        what: "a monomial that descends",
        script: APART,
        pairs: &[(4, "1b0", "-1b2")],
        blocks: &[(
            1,
            Squares {
                bound: None,
                monomials: &[&[1, 0]],
                rows: &[&["0"]],
            },
        )],
        positive: false,
    },
    Row {
        what: "a Bool axis in a monomial",
        script: APART,
        pairs: &[(4, "1b0", "-1b2")],
        blocks: &[(
            1,
            Squares {
                bound: None,
                monomials: &[&[2]],
                rows: &[&["0"]],
            },
        )],
        positive: false,
    },
    Row {
        what: "a Bool axis with a bound",
        script: APART,
        pairs: &[(4, "1b0", "-1b2")],
        blocks: &[(
            1,
            Squares {
                bound: Some(2),
                monomials: &[&[]],
                rows: &[&["0"]],
            },
        )],
        positive: false,
    },
    Row {
        what: "a row too few",
        script: APART,
        pairs: &[(4, "1b0", "-1b2")],
        blocks: &[(
            1,
            Squares {
                bound: None,
                monomials: &[&[0], &[1]],
                rows: &[&["0", "0"]],
            },
        )],
        positive: false,
    },
    Row {
        what: "a number too many in a row",
        script: APART,
        pairs: &[(4, "1b0", "-1b2")],
        blocks: &[(
            1,
            Squares {
                bound: None,
                monomials: &[&[0], &[1]],
                rows: &[&["0", "0"], &["0", "0"]],
            },
        )],
        positive: false,
    },
    Row {
        what: "all that is left is allowed, but 2^-20",
        script: APART,
        pairs: &[(4, "1b0", "1048575b-20")],
        blocks: &[(1, DIFFERENCE)],
        positive: true,
    },
    Row {
        what: "the same, and a number of the square is off by 2^-20",
        script: APART,
        pairs: &[(4, "1b0", "1048575b-20")],
        blocks: &[(
            1,
            Squares {
                bound: None,
                monomials: &[&[0], &[1]],
                rows: &[&["1b0", "-1048577b-20"], &["0"]],
            },
        )],
        positive: false,
    },
    Row {
        what: "x^2 is at least 0, and below 0 is allowed",
        script: SQUARE,
        pairs: &[(4, "1b0", "-1b-20")],
        blocks: &[],
        positive: true,
    },
    Row {
        what: "the same, and 0 is allowed",
        script: SQUARE,
        pairs: &[(4, "1b0", "0")],
        blocks: &[],
        positive: false,
    },
    Row {
        what: "a monomial of 32 axes",
        script: APART,
        pairs: &[(4, "1b0", "-1b2")],
        blocks: &[(
            1,
            Squares {
                bound: None,
                monomials: &[&[0; 32]],
                rows: &[&["0"]],
            },
        )],
        positive: true,
    },
    Row {
        what: "a monomial of 33 axes",
        script: APART,
        pairs: &[(4, "1b0", "-1b2")],
        blocks: &[(
            1,
            Squares {
                bound: None,
                monomials: &[&[0; 33]],
                rows: &[&["0"]],
            },
        )],
        positive: false,
    },
    Row {
        what: "a square with a monomial of 32 axes",
        script: APART,
        pairs: &[(4, "1b0", "-1b2")],
        blocks: &[(
            1,
            Squares {
                bound: None,
                monomials: &[&[0; 16]],
                rows: &[&["1b0"]],
            },
        )],
        positive: true,
    },
    Row {
        what: "a square with a monomial of 34 axes",
        script: APART,
        pairs: &[(4, "1b0", "-1b2")],
        blocks: &[(
            1,
            Squares {
                bound: None,
                monomials: &[&[0; 17]],
                rows: &[&["1b0"]],
            },
        )],
        positive: false,
    },
    // three numbers beside those of the blocks
    Row {
        what: "8,000 numbers",
        script: APART,
        pairs: &[(4, "1b0", "-1b2")],
        blocks: &[(1597, NOUGHT), (2, LONGER_NOUGHT)],
        positive: true,
    },
    Row {
        what: "8,001 numbers",
        script: APART,
        pairs: &[(4, "1b0", "-1b2")],
        blocks: &[(1596, NOUGHT), (3, LONGER_NOUGHT)],
        positive: false,
    },
    // 3 steps for each of 10 sums; 4, 8, .., 1,024 for the products; 1,024 for the multiplier, for the pair's sum, for each
    // of 1,018 blocks and for the range
    Row {
        what: "1,048,576 steps",
        script: PRODUCT,
        pairs: &[(20, "1b0", "-1b12")],
        blocks: &[(686, NOUGHT), (330, ONE), (2, LONGER_ONE)],
        positive: true,
    },
    Row {
        what: "1,048,577 steps",
        script: PRODUCT,
        pairs: &[(20, "1b0", "-1b12")],
        blocks: &[(685, NOUGHT), (333, ONE)],
        positive: false,
    },
];

#[test]
fn lines_are_told(rt: HostRuntime) {
    for row in &ROWS {
        assert!(rt; is_told(rt.alloc(), row), "{}", row.what);
    }
}
