use script_fault::{FaultKind, Place, ReadError};
use smt_script::commands;
use smt_sexp::read;
use sort_check::*;
use std::alloc::Global;

// A fault of a script's names and sorts, without the name; or another one.
#[derive(Clone, Copy, Debug, PartialEq, Eq)]
enum Refused {
    Unknown(u32, u32),
    Redeclared(u32, u32),
    Mismatch(u32, u32),
    LeftOut(u32, u32),
    Other,
}

// How many steps a script has, or its first fault.
fn count(alloc: Global, text: &[u8]) -> Result<usize, Refused> {
    let Ok(sexps) = read(alloc, text) else {
        return Err(Refused::Other);
    };
    let Ok(course) = commands(alloc, &sexps) else {
        return Err(Refused::Other);
    };
    match check(alloc, course) {
        Ok(typed) => Ok(typed.course.steps.len()),
        Err(error) => Err(refusal_of(&error)),
    }
}

fn refusal_of(error: &ReadError) -> Refused {
    let ReadError::Fault(fault) = error else {
        return Refused::Other;
    };
    let Place { line, column } = fault.at;
    match &fault.kind {
        FaultKind::UnknownSymbol(_) => Refused::Unknown(line, column),
        FaultKind::Redeclared(_) => Refused::Redeclared(line, column),
        FaultKind::SortMismatch => Refused::Mismatch(line, column),
        FaultKind::LeftOut => Refused::LeftOut(line, column),
        _ => Refused::Other,
    }
}

fn unknown(line: u32, column: u32) -> Result<usize, Refused> {
    Err(Refused::Unknown(line, column))
}

fn redeclared(line: u32, column: u32) -> Result<usize, Refused> {
    Err(Refused::Redeclared(line, column))
}

fn mismatch(line: u32, column: u32) -> Result<usize, Refused> {
    Err(Refused::Mismatch(line, column))
}

fn left_out(line: u32, column: u32) -> Result<usize, Refused> {
    Err(Refused::LeftOut(line, column))
}

const WHOLE: &str = "(declare-fun a () Real)
(declare-const p Bool)
(define-fun f ((a Real) (p Bool)) Bool (and p (< a 1)))
(assert (let ((a p) (p a)) (and a (f p a) (distinct p 1 2.5))))
(assert (=> p true (ite p false (xor p p))))
(assert (! (<= (- a) (* 2 a) (/ a 3)) :named n))
(check-sat)";

#[test]
fn finds_the_first_fault(rt: HostRuntime) {
    let rows = [
        (WHOLE, Ok(7)),
        ("(assert (foo))\n(check-sat)", unknown(1, 9)),
        ("(assert x)\n(check-sat)", unknown(1, 9)),
        ("(assert (+ (foo)))\n(check-sat)", unknown(1, 12)),
        ("(assert (not (foo) true))\n(check-sat)", unknown(1, 14)),
        ("(assert (g (sqrt 2)))\n(check-sat)", unknown(1, 9)),
        (
            "(assert (let ((x (foo)) (x 1)) true))\n(check-sat)",
            unknown(1, 18),
        ),
        (
            "(assert (let ((x true) (y x)) y))\n(check-sat)",
            unknown(1, 27),
        ),
        ("(define-fun f () Real (f))\n(check-sat)", unknown(1, 23)),
        (
            "(declare-const x Real)\n (declare-const x Real)\n(check-sat)",
            redeclared(2, 2),
        ),
        ("(declare-const true Bool)\n(check-sat)", redeclared(1, 1)),
        (
            "(assert (let ((x 1) (x (foo))) true))\n(check-sat)",
            redeclared(1, 22),
        ),
        (
            "(assert (let ((and true)) true))\n(check-sat)",
            redeclared(1, 16),
        ),
        (
            "(define-fun f ((a Real) (a Real)) Real a)\n(check-sat)",
            redeclared(1, 26),
        ),
        ("(assert (=> true))\n(check-sat)", mismatch(1, 9)),
        ("(assert (= 1 true))\n(check-sat)", mismatch(1, 9)),
        ("(assert (not 1))\n(check-sat)", mismatch(1, 9)),
        ("(assert ())\n(check-sat)", mismatch(1, 9)),
        ("(assert (and))\n(check-sat)", mismatch(1, 9)),
        ("(assert 1)\n(check-sat)", mismatch(1, 9)),
        ("(define-fun f () Real true)\n(check-sat)", mismatch(1, 23)),
        (
            "(define-fun f ((a Real) (b Real)) Real a)\n(assert (< (f 1) 2))\n(check-sat)",
            mismatch(2, 12),
        ),
        (
            "(define-fun f ((a Real)) Real a)\n(assert (< (f 1 2) 2))\n(check-sat)",
            mismatch(2, 12),
        ),
        (
            "(declare-const p Bool)\n(assert (p true))\n(check-sat)",
            mismatch(2, 9),
        ),
        ("(assert (sqrt 2))\n(check-sat)", left_out(1, 9)),
        (
            "(assert (forall ((x Real)) true))\n(check-sat)",
            left_out(1, 9),
        ),
        (
            "(assert (< (ite true 1 false) 3))\n(check-sat)",
            mismatch(1, 12),
        ),
        ("(assert (ite true 1 2))\n(check-sat)", mismatch(1, 9)),
    ];
    for (text, expected) in rows {
        assert_eq!(rt; count(rt.alloc(), text.as_bytes()), expected, "{text}");
    }
}

// The term of a goal is Real.
#[test]
fn sorts_a_goal(rt: HostRuntime) {
    let rows = [
        (
            "(declare-const x Real)\n(minimize (* x x))\n(check-sat)",
            Ok(3),
        ),
        (
            "(declare-const p Bool)\n(minimize (ite p 1 2))\n(check-sat)",
            Ok(3),
        ),
        (
            "(declare-const p Bool)\n(minimize p)\n(check-sat)",
            mismatch(2, 11),
        ),
        ("(minimize (<= 0 1))\n(check-sat)", mismatch(1, 11)),
        ("(minimize x)\n(check-sat)", unknown(1, 11)),
        (
            "(push 1)\n(declare-const x Real)\n(pop 1)\n(minimize (+ 1 x))\n(check-sat)",
            unknown(4, 16),
        ),
    ];
    for (text, expected) in rows {
        assert_eq!(rt; count(rt.alloc(), text.as_bytes()), expected, "{text}");
    }
}

#[test]
fn sees_what_is_in_force(rt: HostRuntime) {
    let rows = [
        (
            "(push 1)\n(declare-const x Real)\n(pop 1)\n(declare-const x Bool)\n(assert x)\n(check-sat)",
            Ok(6),
        ),
        (
            "(push 1)\n(define-fun f () Bool true)\n(pop 1)\n(assert f)\n(check-sat)",
            unknown(4, 9),
        ),
        (
            "(declare-const x Real)\n(push 1)\n(declare-const x Bool)\n(check-sat)",
            redeclared(3, 1),
        ),
        (
            "(declare-const p Bool)\n(push 2)\n(pop 1)\n(assert p)\n(pop 1)\n(assert p)\n(check-sat)",
            Ok(7),
        ),
        (
            "(declare-const p Bool)\n(push 1)\n(reset)\n(assert p)\n(check-sat)",
            unknown(4, 9),
        ),
        (
            "(declare-const x Real)\n(check-sat-assuming (x))",
            mismatch(2, 22),
        ),
        ("(check-sat-assuming (p))", unknown(1, 22)),
        ("(check-sat-assuming (1))", mismatch(1, 22)),
        (
            "(declare-const x Real)\n(check-sat)\n(get-value (x (= x y)))",
            unknown(3, 20),
        ),
        ("(get-value ((+ true)))\n(check-sat)", mismatch(1, 13)),
    ];
    for (text, expected) in rows {
        assert_eq!(rt; count(rt.alloc(), text.as_bytes()), expected, "{text}");
    }
}
