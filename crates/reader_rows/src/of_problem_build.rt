use problem_build::*;
use script_fault::{FaultKind, Place, ReadError};
use smt_script::commands;
use smt_sexp::read;
use sort_check::{check, single};
use std::alloc::{AllocError, Global};

// What is counted of a script's problem: its axes, the nodes of its terms, its atoms, the nodes of its form.
type Counts = (usize, usize, usize, usize);

// A fault of a script's building, without the name; or another one.
#[derive(Clone, Copy, Debug, PartialEq, Eq)]
enum Refused {
    TooWide(u32, u32),
    NotConstant(u32, u32),
    Zero(u32, u32),
    NoBound(u32, u32),
    Far(u32, u32),
    LeftOut(u32, u32),
    Other,
}

fn refusal_of(error: &ReadError) -> Refused {
    let ReadError::Fault(fault) = error else {
        return Refused::Other;
    };
    let Place { line, column } = fault.at;
    match &fault.kind {
        FaultKind::NumberTooWide => Refused::TooWide(line, column),
        FaultKind::DivisorNotConstant => Refused::NotConstant(line, column),
        FaultKind::ZeroDivisor => Refused::Zero(line, column),
        FaultKind::NoBound(_) => Refused::NoBound(line, column),
        FaultKind::BoundTooWide(_) => Refused::Far(line, column),
        FaultKind::LeftOut => Refused::LeftOut(line, column),
        _ => Refused::Other,
    }
}

// The counts of a script's problem, or its first fault.
fn counts(alloc: Global, text: &[u8], bound: Option<u32>) -> Result<Counts, Refused> {
    let Ok(sexps) = read(alloc, text) else {
        return Err(Refused::Other);
    };
    let Ok(course) = commands(alloc, &sexps) else {
        return Err(Refused::Other);
    };
    let Ok(typed) = check(alloc, course) else {
        return Err(Refused::Other);
    };
    let only = match single(alloc, typed) {
        Ok(only) => only,
        Err(error) => return Err(refusal_of(&error)),
    };
    match build(alloc, only, bound) {
        Ok(p) => Ok((
            p.axes().len(),
            p.graph().len(),
            p.atoms().len(),
            p.forms().len(),
        )),
        Err(error) => Err(refusal_of(&error)),
    }
}

// The terms 0, x, 4, -x, 0 + -x, -4, x + -4; and then x * x, 2, -2, x * x + -2.
const BOX: &str = "(declare-const x Real)
(assert (and (<= 0 x) (<= x 4)))
(assert (= (* x x) 2))
(check-sat)";

// The terms 0, x, 2, x + x, 2 * (x + x), 1, -x, 0 + -x, -1, 2 * (x + x) + -1; and then 7, -7, x + -7. The outer `x` is
// at most 7, and the second call makes nothing new.
const CALLS: &str = "(declare-const x Real)
(define-fun twice ((a Real)) Real (+ a a))
(define-fun small ((b Real)) Bool (<= (* 2 (twice b)) 1))
(assert (and (<= 0 x) (small x) (small x)))
(assert (let ((x 7) (y x)) (<= y x)))
(check-sat)";

// The terms x, 1, -1, x + -1; and then 3, -3, x + 3. What stands in an `or` is no bound.
const OPEN: &str = "(declare-const p Bool)
(declare-const x Real)
(assert (or p (<= x 1)))
(assert (! (>= x (- 3)) :named low))
(check-sat)";

// A chain of definitions, each of which calls the one before it within its own body. Of an even number of calls the terms
// are 0, x, -x, 0 + -x; and then 4, -4, x + -4.
fn chain(alloc: Global, calls: u32) -> Result<String, AllocError> {
    let mut text = String::new(alloc);
    text.push_str("(declare-const x Real)\n(define-fun p0 ((a Real)) Bool (<= a 4))\n")?;
    for k in 0..calls {
        let next = k + 1;
        text.push_str(&format!(in alloc;
            "(define-fun p{next} ((a Real)) Bool (not (p{k} a)))\n"
        )?)?;
    }
    text.push_str(&format!(in alloc; "(assert (<= 0 x))\n(assert (p{calls} x))\n(check-sat)")?)?;
    Ok(text)
}

#[test]
fn builds_problems_and_tells_faults(rt: HostRuntime) {
    let deep = chain(rt.alloc(), 2_000).expect(&rt, "memory");
    let rows = [
        (BOX, None, Ok((1, 11, 3, 5))),
        (CALLS, None, Ok((1, 13, 3, 5))),
        (OPEN, Some(10), Ok((2, 7, 2, 5))),
        (OPEN, None, Err(Refused::NoBound(2, 1))),
        (deep.as_str(), Some(10), Ok((1, 7, 2, 3))),
        (
            "(declare-const x Real)\n(assert (<= (/ x 0) 1))\n(check-sat)",
            None,
            Err(Refused::Zero(2, 13)),
        ),
        (
            "(declare-const x Real)\n(assert (<= (/ 1 x) 1))\n(check-sat)",
            None,
            Err(Refused::NotConstant(2, 13)),
        ),
        (
            "(declare-const x Real)\n(assert (<= x (* 1000000000000000000000000000000000000 10)))\n(check-sat)",
            None,
            Err(Refused::TooWide(2, 15)),
        ),
        (
            "(declare-const x Real)\n(assert (<= 0 x))\n(assert (<= x (/ 40000000000 7)))\n(check-sat)",
            None,
            Err(Refused::Far(1, 1)),
        ),
    ];
    for (text, bound, expected) in rows {
        assert_eq!(rt;
            counts(rt.alloc(), text.as_bytes(), bound),
            expected,
            "{text}"
        );
    }
}

// The problems of the two scripts are those of `BOX`: what was popped is no part of them, nor what stands behind the check.
const LEVELS: &str = "(push 1)
(declare-const y Bool)
(assert y)
(pop 1)
(declare-const x Real)
(assert (and (<= 0 x) (<= x 4)))
(push 2)
(assert (= (* x x) 2))
(check-sat)
(pop 2)
(assert (= 1 (/ 1 x)))";

const ASSUMED: &str = "(declare-const x Real)
(define-fun low () Bool (and (<= 0 x) (<= x 4)))
(define-fun root () Bool (= (* x x) 2))
(check-sat-assuming (low root))";

#[test]
fn builds_what_is_in_force(rt: HostRuntime) {
    let rows = [
        (LEVELS, Ok((1, 11, 3, 5))),
        (ASSUMED, Ok((1, 11, 3, 5))),
        ("(check-sat)\n(check-sat)", Err(Refused::LeftOut(2, 1))),
        (
            "(check-sat)\n(push 1)\n (check-sat-assuming ())",
            Err(Refused::LeftOut(3, 2)),
        ),
    ];
    for (text, expected) in rows {
        assert_eq!(rt;
            counts(rt.alloc(), text.as_bytes(), None),
            expected,
            "{text}"
        );
    }
}

// The number of the goal's atom, or the first fault.
fn goal(alloc: Global, text: &[u8]) -> Result<Option<u32>, Refused> {
    match read_goal(alloc, text, None) {
        Ok((_, atom)) => Ok(atom),
        Err(error) => Err(refusal_of(&error)),
    }
}

#[test]
fn the_goal_is_the_term_of_an_atom(rt: HostRuntime) {
    let rows = [
        // 0 <= x, x <= 4, 4 - x <= 0, x * x = 2
        (
            "(declare-const x Real)
(assert (and (<= 0 x) (<= x 4)))
(minimize (- 4 x))
(assert (= (* x x) 2))
(check-sat)",
            Ok(Some(2)),
        ),
        // The atom stands there.
        (
            "(declare-const x Real)
(assert (<= x 0))
(assert (>= x (- 1)))
(minimize x)
(check-sat)",
            Ok(Some(0)),
        ),
        // Two terms.
        (
            "(declare-const x Real)
(assert (and (<= 0 x) (<= x 4)))
(minimize (ite (<= x 2) x (- 4 x)))
(check-sat)",
            Ok(None),
        ),
        (BOX, Ok(None)),
        (
            "(declare-const x Real)\n(minimize (/ x 0))\n(check-sat)",
            Err(Refused::Zero(2, 11)),
        ),
    ];
    for (text, expected) in rows {
        assert_eq!(rt; goal(rt.alloc(), text.as_bytes()), expected, "{text}");
    }
}
