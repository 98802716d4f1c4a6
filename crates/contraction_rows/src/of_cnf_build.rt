// The clauses of a form, under all assignments.
ghost use Rattle.std.specs.Prelude.{◌<◌};

use crate::problems::{Form, clauses_of};
use clause_search::*;
use std::alloc::Global;
use std::test::Fail;

// ---- assignments: a bit for each atom, each Bool value and each helper

// The bit of a variable.
fn place(variable: Variable) -> u32
    ensures { result < 32 }
{
    match variable {
        Variable::Atom(j) => j % 3,
        Variable::BoolIs(axis, v) => 3 + axis % 2 * 2 + u32::from(v),
        Variable::Helper(k) => 7 + k % 9,
    }
}

fn is_true(literal: Literal, bits: u32) -> bool {
    let bit = (bits >> place(literal.variable)) % 2;
    (bit == 1) == literal.positive
}

// Whether each clause has a true literal.
fn all_hold(cnf: &Cnf, bits: u32) -> bool {
    for i in 0..cnf.len() {
        if !cnf.clause(i).iter().any(|literal| is_true(*literal, bits)) {
            return false;
        }
    }
    true
}

// Whether some values of nine helpers make each clause true.
fn extends(cnf: &Cnf, bits: u32) -> bool {
    for helpers in 0..512u32 {
        if all_hold(cnf, (helpers << 7) | bits) {
            return true;
        }
    }
    false
}

// How many of the 128 assignments of three atoms and four Bool values extend to the clauses.
fn count_extending(cnf: &Cnf) -> usize {
    (0..128u32).filter(|bits| extends(cnf, *bits)).count()
}

// How many of them extend to the clauses of the form.
fn count(alloc: Global, nodes: &[Form], root: u32) -> Result<usize, Fail> {
    let cnf = clauses_of(alloc, nodes, root)?;
    Ok(count_extending(&cnf))
}

// (a or b) and (b or c)
const SHARED: [Form; 6] = [
    Form::Atom(0),
    Form::Atom(1),
    Form::Atom(2),
    Form::Any(&[0, 1]),
    Form::Any(&[1, 2]),
    Form::All(&[3, 4]),
];

// Nodes, a root, and how many assignments extend to the clauses.
const COUNTS: [(&[Form], u32, usize); 16] = [
    (&[Form::True], 0, 128),
    (&[Form::False], 0, 0),
    (&[Form::Atom(1)], 0, 64),
    (&[Form::Bool(1, false)], 0, 64),
    // two atoms
    (&[Form::Atom(0), Form::Atom(2), Form::All(&[0, 1])], 2, 32),
    (&[Form::Atom(0), Form::Atom(2), Form::Any(&[0, 1])], 2, 96),
    // the two values of one Bool axis, which are independent
    (
        &[
            Form::Bool(0, true),
            Form::Bool(0, false),
            Form::All(&[0, 1]),
        ],
        2,
        32,
    ),
    (
        &[
            Form::Bool(0, true),
            Form::Bool(0, false),
            Form::Any(&[0, 1]),
        ],
        2,
        96,
    ),
    (&[Form::True, Form::Atom(0), Form::All(&[0, 1])], 2, 64),
    (&[Form::True, Form::Atom(0), Form::Any(&[0, 1])], 2, 128),
    (&[Form::Atom(0), Form::False, Form::All(&[0, 1])], 2, 0),
    (&[Form::Atom(0), Form::False, Form::Any(&[0, 1])], 2, 64),
    // a root that is not the last node
    (&[Form::Atom(0), Form::Atom(2), Form::All(&[0, 1])], 0, 64),
    (&[Form::All(&[])], 0, 128),
    (&[Form::Any(&[])], 0, 0),
    // where b is true, all four; where it is not, only a and c: five of the eight values of the atoms, each with
    // sixteen of the Bool values
    (&SHARED, 5, 80),
];

#[test]
fn as_many_assignments_extend(rt: HostRuntime) -> Result<(), Fail> {
    for (nodes, root, wanted) in &COUNTS {
        assert_eq!(rt; count(rt.alloc(), nodes, *root)?, *wanted, "at {root}");
    }
    Ok(())
}

// Whether there are three clauses for each of three nodes, and one for the root.
fn are_shared(cnf: &Cnf) -> bool {
    if cnf.len() != 10 || cnf.helpers() != 6 || cnf.is_empty() {
        return false;
    }
    let last = cnf.clause(9);
    last.len() == 1 && last[0].positive && last[0].variable == Variable::Helper(5)
}

#[test]
fn shared_nodes(rt: HostRuntime) -> Result<(), Fail> {
    let cnf = clauses_of(rt.alloc(), &SHARED, 5)?;
    assert!(rt; are_shared(&cnf));
    Ok(())
}
