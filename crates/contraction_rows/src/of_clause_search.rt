// Trails over the clauses of a form.
ghost use Rattle.clause_search.specs.Trail.{IsTrailOf};

use crate::problems::{Form, clauses_of};
use clause_search::{Cnf, Literal, Variable, *};
use std::alloc::Global;
use std::test::Fail;

// Assumes the literal where that may be.
fn assume(cnf: &Cnf, trail: &mut Trail, variable: Variable, positive: bool)
    requires { IsTrailOf cnf.now trail.old }
    ensures { IsTrailOf cnf.now trail.new }
{
    let _ = cnf.is_empty();
    let literal = Literal { variable, positive };
    if trail.can_assume(literal) {
        trail.assume(literal);
    }
}

// Propagates to the end: a bit for each atom that was forced, and the last answer.
fn run(cnf: &Cnf, trail: &mut Trail) -> Option<(u32, Prop)>
    requires { IsTrailOf cnf.now trail.old }
    ensures { IsTrailOf cnf.now trail.new }
{
    let mut forced = 0;
    for _ in 0..8u32 {
        match trail.propagate(cnf).ok()? {
            Prop::Forced(j) => forced |= 1 << (j % 8),
            last => return Some((forced, last)),
        }
    }
    None
}

// ---- trails of one form

// 0 and 1 and (2 or 3) and 4
const SHAPE: [Form; 7] = [
    Form::Atom(0),
    Form::Atom(1),
    Form::Atom(2),
    Form::Atom(3),
    Form::Any(&[2, 3]),
    Form::Atom(4),
    Form::All(&[0, 1, 4, 5]),
];

// What is asked of a trail, and what it answers.
enum Step {
    Assume(Variable, bool),
    Clear,
    // Propagates to the end: which atoms of these bits are forced, and the last answer.
    Run(u32, u32, Prop),
    // Whether this one is not decided.
    IsOpen(Variable, bool),
}

// Whether the trail answers so.
fn is_answered(cnf: &Cnf, trail: &mut Trail, step: &Step) -> bool
    requires { IsTrailOf cnf.now trail.old }
    ensures { IsTrailOf cnf.now trail.new }
{
    match step {
        Step::Assume(variable, positive) => {
            assume(cnf, trail, *variable, *positive);
            true
        }
        Step::Clear => {
            trail.clear();
            true
        }
        Step::Run(of, wanted, answer) => match run(cnf, trail) {
            Some((forced, last)) => forced & *of == *wanted && last == *answer,
            None => false,
        },
        Step::IsOpen(variable, open) => trail.is_undecided(*variable) == *open,
    }
}

// Whether it answers so to each step, one after the other.
fn are_answered(cnf: &Cnf, trail: &mut Trail, steps: &[Step]) -> bool
    requires { IsTrailOf cnf.now trail.old }
    ensures { IsTrailOf cnf.now trail.new }
{
    for step in steps {
        if !is_answered(cnf, trail, step) {
            return false;
        }
    }
    true
}

// The same of a new trail of the clauses.
fn follows_in(alloc: Global, cnf: &Cnf, steps: &[Step]) -> bool {
    match Trail::new(alloc, cnf) {
        Ok(mut trail) => are_answered(cnf, &mut trail, steps),
        Err(_) => false,
    }
}

// The same of the clauses of the form.
fn follows(alloc: Global, steps: &[Step]) -> Result<bool, Fail> {
    let cnf = clauses_of(alloc, &SHAPE, 6)?;
    Ok(follows_in(alloc, &cnf, steps))
}

const TRAILS: [&[Step]; 3] = [
    // each atom is forced
    &[
        Step::Assume(Variable::Atom(2), false),
        Step::Run(0b11111, 0b11011, Prop::Rest),
    ],
    // one is assumed against what was derived
    &[
        Step::Run(0b11111, 0b10011, Prop::Rest),
        Step::IsOpen(Variable::Atom(2), true),
        Step::IsOpen(Variable::Atom(4), false),
        Step::Assume(Variable::Atom(4), false),
        Step::Run(0, 0, Prop::Conflict),
    ],
    // what was assumed is forgotten, and what follows from the form alone is derived again
    &[
        Step::Assume(Variable::Atom(4), false),
        Step::Run(0, 0, Prop::Conflict),
        Step::Clear,
        Step::Run(0b11111, 0b10011, Prop::Rest),
    ],
];

#[test]
fn trails_force_and_conflict(rt: HostRuntime) -> Result<(), Fail> {
    for steps in &TRAILS {
        assert!(rt; follows(rt.alloc(), steps)?, "of {}", steps.len());
    }
    Ok(())
}

// ---- small forms: how many assignments propagate without a conflict

// Five atoms, then the two values of each of two Bool axes.
fn variable(k: u32) -> Variable {
    if k < 5 {
        Variable::Atom(k)
    } else {
        Variable::BoolIs((k - 5) / 2, k % 2 == 0)
    }
}

// Assumes each atom and each Bool value by its bit.
fn assume_all(cnf: &Cnf, trail: &mut Trail, bits: u32)
    requires { IsTrailOf cnf.now trail.old }
    ensures { IsTrailOf cnf.now trail.new }
{
    for k in 0..9u32 {
        assume(cnf, trail, variable(k), (bits >> k) % 2 == 1);
    }
}

// How many of the 512 assignments of atoms and Bool values propagate without a conflict.
fn count_rests(cnf: &Cnf, trail: &mut Trail) -> Option<u32>
    requires { IsTrailOf cnf.now trail.old }
    ensures { IsTrailOf cnf.now trail.new }
{
    let mut rests = 0u32;
    for bits in 0..512u32 {
        trail.clear();
        assume_all(cnf, trail, bits);
        let (_, last) = run(cnf, trail)?;
        if last == Prop::Rest {
            rests = rests.saturating_add(1);
        }
    }
    Some(rests)
}

// The same in a trail of its own.
fn count_in(alloc: Global, cnf: &Cnf) -> Option<u32> {
    let mut trail = Trail::new(alloc, cnf).ok()?;
    count_rests(cnf, &mut trail)
}

// The same of the clauses of the form.
fn count(alloc: Global, nodes: &[Form], root: u32) -> Result<Option<u32>, Fail> {
    let cnf = clauses_of(alloc, nodes, root)?;
    Ok(count_in(alloc, &cnf))
}

// Nodes, a root, and how many assignments propagate so.
const COUNTS: [(&[Form], u32, u32); 9] = [
    (&[Form::True], 0, 512),
    (&[Form::False], 0, 0),
    (&[Form::Atom(1)], 0, 256),
    (&[Form::Bool(1, false)], 0, 256),
    (&[Form::Atom(0), Form::Atom(4), Form::All(&[0, 1])], 2, 128),
    (&[Form::Atom(0), Form::Atom(4), Form::Any(&[0, 1])], 2, 384),
    // 3 of 4 values of two atoms, one of the other three, and all Bool values
    (&SHAPE, 6, 48),
    (&[Form::Any(&[])], 0, 0),
    (&[Form::All(&[])], 0, 512),
];

#[test]
fn as_many_assignments_rest(rt: HostRuntime) -> Result<(), Fail> {
    for (nodes, root, wanted) in &COUNTS {
        assert_eq!(rt;
            count(rt.alloc(), nodes, *root)?,
            Some(*wanted),
            "at {root}"
        );
    }
    Ok(())
}
