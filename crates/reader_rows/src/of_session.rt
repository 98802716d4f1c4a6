use poly_graph::{FormGraph, Graph, Problem};
use problem_build::*;
use problem_session::Session;
use script_fault::{FaultKind, Place, ReadError};
use std::alloc::Global;

// What is counted of a problem, the nodes of its terms and its atoms, with whether all commands of the check before are in
// force at its check.
type Counts = (usize, usize, bool);

// The first fault of a script, with its line and column, without the name; or another one.
#[derive(Clone, Copy, Debug, PartialEq, Eq)]
enum Refused {
    BadCommand(u32, u32),
    UnknownSymbol(u32, u32),
    Zero(u32, u32),
    NoBound(u32, u32),
    Other,
}

fn refusal_of(error: &ReadError) -> Refused {
    let ReadError::Fault(fault) = error else {
        return Refused::Other;
    };
    let Place { line, column } = fault.at;
    match &fault.kind {
        FaultKind::BadCommand => Refused::BadCommand(line, column),
        FaultKind::UnknownSymbol(_) => Refused::UnknownSymbol(line, column),
        FaultKind::ZeroDivisor => Refused::Zero(line, column),
        FaultKind::NoBound(_) => Refused::NoBound(line, column),
        _ => Refused::Other,
    }
}

// The problem of the check of this number, made of those before it, one after the other.
fn problem_at(alloc: Global, session: &Session, k: usize) -> Option<Problem> {
    if k >= session.len() {
        return None;
    }
    let mut problem = match session.first(alloc) {
        Ok(problem) => problem,
        Err(_) => return None,
    };
    for before in 0..k {
        problem = match session.next(alloc, before, &problem) {
            Ok(problem) => problem,
            Err(_) => return None,
        };
    }
    Some(problem)
}

// Whether these are the counts of a session, problem by problem.
fn has_counts(alloc: Global, session: &Session, wanted: &[Counts]) -> bool {
    let count = session.len();
    if count != wanted.len() {
        return false;
    }
    for k in 0..count {
        let Some(p) = problem_at(alloc, session, k) else {
            return false;
        };
        if (p.graph().len(), p.atoms().len(), session.extends(k)) != wanted[k] {
            return false;
        }
    }
    true
}

// The terms 0, x, 1, -x, 0 + -x, -1, x + -1 are of the bounds; 2, -2, x + -2 of the comparison with 2.
const POPPED: &str = "(declare-const x Real)
(assert (<= 0 x 1))
(push 1)
(assert (> x 2))
(check-sat)
(pop 1)
(check-sat)";

// Between the second and the third check nothing changes.
const GROWING: &str = "(declare-const x Real)
(assert (<= 0 x 1))
(check-sat)
(push 1)
(assert (> x 2))
(check-sat)
(push 1)
(pop 1)
(check-sat)
(pop 1)
(check-sat)";

// What is asserted again is another command.
const AGAIN: &str = "(declare-const x Real)
(assert (<= 0 x 1))
(push 1)
(assert (> x 2))
(check-sat)
(pop 1)
(push 1)
(assert (> x 2))
(check-sat)";

const ASSUMED: &str = "(declare-const p Bool)
(check-sat)
(check-sat-assuming (p))
(check-sat-assuming ((not p)))
(check-sat-assuming ())";

const RESET: &str = "(check-sat)
(reset)
(check-sat)
(assert true)
(check-sat)
(reset-assertions)
(check-sat)";

const SESSIONS: [(&str, &[Counts]); 7] = [
    ("(check-sat)", &[(0, 0, false)]),
    ("(check-sat)(assert false)", &[(0, 0, false)]),
    (POPPED, &[(10, 3, false), (7, 2, false)]),
    (
        GROWING,
        &[(7, 2, false), (10, 3, true), (10, 3, true), (7, 2, false)],
    ),
    (AGAIN, &[(10, 3, false), (10, 3, false)]),
    (
        ASSUMED,
        &[(0, 0, false), (0, 0, true), (0, 0, false), (0, 0, false)],
    ),
    (
        RESET,
        &[(0, 0, false), (0, 0, true), (0, 0, true), (0, 0, false)],
    ),
];

#[test]
fn builds_sessions(rt: HostRuntime) {
    for (text, wanted) in &SESSIONS {
        let is_wanted = match read_session(rt.alloc(), text.as_bytes(), None) {
            Ok(session) => has_counts(rt.alloc(), &session, wanted),
            Err(_) => false,
        };
        assert_eq!(rt; is_wanted, true, "{text}");
    }
}

// Commands and sorts come before the building of any problem; the bounds of a problem before the next one; what no check asks
// is not built.
const FAULTS: [(&str, Refused); 6] = [
    ("(pop 1)\n(check-sat)", Refused::BadCommand(1, 1)),
    (
        "(assert (= 1 (/ 1 0)))\n(check-sat)\n(assert p)\n(check-sat)",
        Refused::UnknownSymbol(3, 9),
    ),
    (
        "(declare-const x Real)\n(check-sat)\n(assert (= 1 (/ 1 0)))\n(check-sat)",
        Refused::NoBound(1, 1),
    ),
    (
        "(check-sat)\n(assert (= 1 (/ 1 0)))\n(check-sat)",
        Refused::Zero(2, 14),
    ),
    (
        "(push 1)\n(assert (= 1 (/ 1 0)))\n(pop 1)\n(assert (= 1 (/ 2 0)))\n(check-sat)",
        Refused::Zero(4, 14),
    ),
    (
        "(push 1)\n(declare-const x Real)\n(pop 1)\n(check-sat)\n(declare-const x Real)\n(check-sat)",
        Refused::NoBound(5, 1),
    ),
];

#[test]
fn tells_faults_of_sessions(rt: HostRuntime) {
    for (text, wanted) in &FAULTS {
        let refused = match read_session(rt.alloc(), text.as_bytes(), None) {
            Ok(_) => Refused::Other,
            Err(error) => refusal_of(&error),
        };
        assert_eq!(rt; refused, *wanted, "{text}");
    }
}

// The problem of a script's last check.
fn last_problem(alloc: Global, text: &str) -> Option<Problem> {
    let session = read_session(alloc, text.as_bytes(), None).ok()?;
    let last = session.len().checked_sub(1)?;
    problem_at(alloc, &session, last)
}

fn same_terms(p: &Graph, q: &Graph) -> bool {
    let Ok(count) = u32::try_from(p.len()) else {
        return false;
    };
    if p.len() != q.len() {
        return false;
    }
    for k in 0..count {
        if p.node(k) != q.node(k) {
            return false;
        }
    }
    true
}

fn same_forms(p: &FormGraph, q: &FormGraph) -> bool {
    let Ok(count) = u32::try_from(p.len()) else {
        return false;
    };
    if p.len() != q.len() {
        return false;
    }
    for k in 0..count {
        if p.node(k) != q.node(k) {
            return false;
        }
    }
    true
}

fn same_problem(p: &Problem, q: &Problem) -> bool {
    p.axes() == q.axes()
        && p.atoms() == q.atoms()
        && p.root() == q.root()
        && same_terms(p.graph(), q.graph())
        && same_forms(p.forms(), q.forms())
}

// Scripts with levels, and what is in force at their last check, written without.
const STACKED: [(&str, &str); 31] = [
    (
        "(push 1)(assert true)(pop 1)(assert false)(check-sat)",
        "(assert false)(check-sat)",
    ),
    (
        "(push 1)(assert true)(push 1)(assert false)(check-sat)",
        "(assert true)(assert false)(check-sat)",
    ),
    (
        "(push 2)(assert false)(pop 2)(assert true)(check-sat)",
        "(assert true)(check-sat)",
    ),
    (
        "(declare-const x Real)(assert (<= 0 x 1))(check-sat)(push 1)(assert (> x 2))(check-sat)",
        "(declare-const x Real)(assert (<= 0 x 1))(assert (> x 2))(check-sat)",
    ),
    (
        "(push 1)(declare-const x Real)(assert (<= 0 x 1))(check-sat)(pop 1)(declare-const x Bool)(assert x)(check-sat)",
        "(declare-const x Bool)(assert x)(check-sat)",
    ),
    (
        "(push 1)(define-fun f () Bool true)(assert f)(check-sat)(pop 1)(define-fun f () Bool false)(assert f)(check-sat)",
        "(define-fun f () Bool false)(assert f)(check-sat)",
    ),
    (
        "(declare-const p Bool)(assert (not p))(check-sat)(check-sat-assuming (p))",
        "(declare-const p Bool)(assert (not p))(assert p)(check-sat)",
    ),
    (
        "(declare-const p Bool)(assert (not p))(check-sat-assuming (p))(check-sat-assuming ((not p)))",
        "(declare-const p Bool)(assert (not p))(assert (not p))(check-sat)",
    ),
    (
        "(declare-const p Bool)(push 1)(declare-const q Bool)(assert (=> p q))(check-sat-assuming (p (not q)))",
        "(declare-const p Bool)(declare-const q Bool)(assert (=> p q))(assert p)(assert (not q))(check-sat)",
    ),
    (
        "(declare-const x Real)(assert (<= 0 x 1))(check-sat-assuming ((or (< x 0) (> (* x x) 2))))",
        "(declare-const x Real)(assert (<= 0 x 1))(assert (or (< x 0) (> (* x x) 2)))(check-sat)",
    ),
    (
        "(declare-const x Real)(push 1)(assert (let ((y x)) (and (<= 0 y) (<= y (+ 1 1)))))(check-sat)",
        "(declare-const x Real)(assert (let ((y x)) (and (<= 0 y) (<= y (+ 1 1)))))(check-sat)",
    ),
    (
        "(declare-const x Real)(define-fun r ((a Real)) Bool (<= 0 a 1))(define-fun goal () Bool (r x))(check-sat-assuming (goal))",
        "(declare-const x Real)(define-fun r ((a Real)) Bool (<= 0 a 1))(assert (r x))(check-sat)",
    ),
    (
        "(declare-const x Real)(push 1)(assert (= x 2))(check-sat)(pop 1)(push 1)(assert (= x 1))(check-sat)",
        "(declare-const x Real)(assert (= x 1))(check-sat)",
    ),
    (
        "(declare-const y Bool)(assert y)(reset-assertions)(declare-const x Real)(assert (<= 0 (+ x) 1))(check-sat)",
        "(declare-const x Real)(assert (<= 0 (+ x) 1))(check-sat)",
    ),
    (
        "(set-logic QF_LRA)(push 5)(reset)(set-logic QF_NRA)(declare-const x Real)(assert (< 0 x 1))(check-sat)",
        "(declare-const x Real)(assert (< 0 x 1))(check-sat)",
    ),
    (
        "(declare-const x Real)(push 1)(push 1)(pop 1)(assert (! (>= 1 x 0) :named bounds))(check-sat)",
        "(declare-const x Real)(assert (! (>= 1 x 0) :named bounds))(check-sat)",
    ),
    (
        "(declare-const x Real)(push 1)(assert (<= 0 x 1))(check-sat)(pop 1)(assert (<= 1 x 0))(check-sat)",
        "(declare-const x Real)(assert (<= 1 x 0))(check-sat)",
    ),
    (
        "(declare-const p Bool)(push 1)(assert (or p (not p)))(check-sat)(pop 1)(push 2)(assert (and p (not p)))(check-sat)",
        "(declare-const p Bool)(assert (and p (not p)))(check-sat)",
    ),
    (
        "(declare-const |p| Bool)(push 1)(declare-const q Bool)(pop 1)(assert (or p (not |p|)))(check-sat)",
        "(declare-const p Bool)(assert (or p (not p)))(check-sat)",
    ),
    (
        "(push 1)(assert (xor true true))(check-sat)(pop 1)(assert (xor true false true true))(check-sat)",
        "(assert (xor true false true true))(check-sat)",
    ),
    (
        "(push 1)(assert (<= 1 2 2 3))(check-sat)(push 1)(assert (<= 1 3 2))(check-sat)",
        "(assert (<= 1 2 2 3))(assert (<= 1 3 2))(check-sat)",
    ),
    (
        "(push 1)(assert (not (distinct 1 2 3)))(pop 1)(push 1)(assert (not (distinct 1 2 1)))(check-sat)",
        "(assert (not (distinct 1 2 1)))(check-sat)",
    ),
    (
        "(push 1)(assert (let ((y 1)) (= y 2)))(pop 1)(assert (let ((y 1)) (let ((y (+ y 1)) (z y)) (= z 1))))(check-sat)",
        "(assert (let ((y 1)) (let ((y (+ y 1)) (z y)) (= z 1))))(check-sat)",
    ),
    (
        "(declare-const c Real)(assert (= c 1))(push 1)(define-fun f ((a Real)) Real (* a c))(pop 1)(define-fun f ((a Real)) Real (+ a c))(push 1)(assert (let ((c 5)) (= (f c) 6)))(check-sat)",
        "(declare-const c Real)(assert (= c 1))(define-fun f ((a Real)) Real (+ a c))(assert (let ((c 5)) (= (f c) 6)))(check-sat)",
    ),
    (
        "(declare-const p Bool)(push 1)(assert (not p))(push 1)(define-fun f ((p Bool)) Bool p)(assert (f true))(get-value (p (f p)))(check-sat)",
        "(declare-const p Bool)(assert (not p))(define-fun f ((p Bool)) Bool p)(assert (f true))(check-sat)",
    ),
    (
        "(declare-const x Real)(assert (<= 0 x 1))(push 1)(assert (= (* x x) 2))(check-sat)(pop 1)(push 1)(assert (= (* x x) (/ 1 4)))(check-sat)",
        "(declare-const x Real)(assert (<= 0 x 1))(assert (= (* x x) (/ 1 4)))(check-sat)",
    ),
    (
        "(declare-const x Real)(assert (<= 0 x 1))(check-sat)(assert (>= (* x (- 1 x)) 1))(check-sat)",
        "(declare-const x Real)(assert (<= 0 x 1))(assert (>= (* x (- 1 x)) 1))(check-sat)",
    ),
    (
        "(declare-const b Bool)(push 1)(declare-const x Bool)(check-sat)(pop 1)(declare-const x Real)(assert (<= 0 x 1))(push 1)(assert (= x (ite b 2 3)))(check-sat)",
        "(declare-const b Bool)(declare-const x Real)(assert (<= 0 x 1))(assert (= x (ite b 2 3)))(check-sat)",
    ),
    (
        "(declare-const x Real)(assert (<= 0 x 1))(declare-const b Bool)(define-fun wide () Bool (> (ite b x 3) 2))(check-sat-assuming (b wide))",
        "(declare-const x Real)(assert (<= 0 x 1))(declare-const b Bool)(assert b)(assert (> (ite b x 3) 2))(check-sat)",
    ),
    (
        "(declare-const x Real)(assert (<= 0 x 1))(declare-const b Bool)(define-fun wide () Bool (> (ite b x 3) 2))(check-sat-assuming (b))(check-sat-assuming ((not b) wide))",
        "(declare-const x Real)(assert (<= 0 x 1))(declare-const b Bool)(assert (not b))(assert (> (ite b x 3) 2))(check-sat)",
    ),
    (
        "(declare-const x Real)(assert (<= 0 x 1))(push 1)(declare-const y Real)(assert (<= 0 y 1))(check-sat)(assert (> (ite (<= x y) x y) (+ x 0.5)))(check-sat)",
        "(declare-const x Real)(assert (<= 0 x 1))(declare-const y Real)(assert (<= 0 y 1))(assert (> (ite (<= x y) x y) (+ x 0.5)))(check-sat)",
    ),
];

#[test]
fn levels_are_what_is_in_force(rt: HostRuntime) {
    for (stacked, plain) in &STACKED {
        let first = last_problem(rt.alloc(), stacked);
        let second = last_problem(rt.alloc(), plain);
        let is_same = match (&first, &second) {
            (Some(p), Some(q)) => same_problem(p, q),
            _ => false,
        };
        assert_eq!(rt; is_same, true, "{stacked}");
    }
}
