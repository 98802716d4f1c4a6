use script_fault::{FaultKind, Limit, Place, ReadError};
use smt_script::*;
use smt_sexp::read;
use std::alloc::{AllocError, Global};

// The first fault of a script's commands, with its line and column; or another one.
#[derive(Clone, Copy, Debug, PartialEq, Eq)]
enum Refused {
    BadCommand(u32, u32),
    LeftOut(u32, u32),
    WrongLogic(u32, u32),
    NoCheck(u32, u32),
    TooManyLevels(u32, u32),
    TooManyChecks(u32, u32),
    Other,
}

fn refusal_of(error: &ReadError) -> Refused {
    let ReadError::Fault(fault) = error else {
        return Refused::Other;
    };
    let Place { line, column } = fault.at;
    match &fault.kind {
        FaultKind::BadCommand => Refused::BadCommand(line, column),
        FaultKind::LeftOut => Refused::LeftOut(line, column),
        FaultKind::WrongLogic => Refused::WrongLogic(line, column),
        FaultKind::NoCheck => Refused::NoCheck(line, column),
        FaultKind::TooMany(Limit::Levels) => Refused::TooManyLevels(line, column),
        FaultKind::TooMany(Limit::Checks) => Refused::TooManyChecks(line, column),
        _ => Refused::Other,
    }
}

// How many steps a script has, or its first fault.
fn count(alloc: Global, text: &[u8]) -> Result<usize, Refused> {
    let Ok(sexps) = read(alloc, text) else {
        return Err(Refused::Other);
    };
    match commands(alloc, &sexps) {
        Ok(course) => Ok(course.steps.len()),
        Err(error) => Err(refusal_of(&error)),
    }
}

fn bad(line: u32, column: u32) -> Result<usize, Refused> {
    Err(Refused::BadCommand(line, column))
}

fn left_out(line: u32, column: u32) -> Result<usize, Refused> {
    Err(Refused::LeftOut(line, column))
}

fn wrong_logic(line: u32, column: u32) -> Result<usize, Refused> {
    Err(Refused::WrongLogic(line, column))
}

fn no_check() -> Result<usize, Refused> {
    Err(Refused::NoCheck(0, 0))
}

const WHOLE: &str = "(set-logic QF_NRA)
(set-info :source |a tool|)
(set-info :smt-lib-version 2.6)
(set-info :status sat)
(declare-fun a () Real)
(assert (let ((s (* a a))) (and (<= 0 a 2) (= s 2.25))))
(check-sat)
(exit)
((";

#[test]
fn reads_commands(rt: HostRuntime) {
    let rows = [
        (WHOLE, Ok(8)),
        ("(check-sat)", Ok(1)),
        ("(|assert| true) (check-sat)", Ok(2)),
        ("(assert)", bad(1, 1)),
        ("(assert true true)", bad(1, 1)),
        ("(check-sat 1)", bad(1, 1)),
        ("(exit 1)", bad(1, 1)),
        ("5", bad(1, 1)),
        (" foo", bad(1, 2)),
        ("()", bad(1, 1)),
        ("((assert) true)", bad(1, 1)),
        ("(let x)", bad(1, 1)),
        ("(foo)", bad(1, 1)),
        ("(declare-sort A 0)", bad(1, 1)),
        ("(get-proof)\n(check-sat)", left_out(1, 1)),
        ("(define-fun-rec f)", left_out(1, 1)),
        ("", no_check()),
        ("(assert true)", no_check()),
        ("(exit)", no_check()),
    ];
    for (text, expected) in rows {
        assert_eq!(rt; count(rt.alloc(), text.as_bytes()), expected, "{text}");
    }
}

#[test]
fn reads_what_follows(rt: HostRuntime) {
    let rows = [
        (
            "(get-model) (check-sat) (get-model) (set-info :a) (exit)",
            Ok(5),
        ),
        ("(set-info) (set-info 1 2) (set-option) (check-sat)", Ok(4)),
        ("(check-sat) (assert)", bad(1, 13)),
        ("(check-sat) (assert true) (check-sat)", Ok(3)),
        ("(check-sat) (push)", bad(1, 13)),
        ("(check-sat) (exit 1)", bad(1, 13)),
        ("(check-sat) (get-model 1)", bad(1, 13)),
        ("(check-sat) (foo)", bad(1, 13)),
        ("(set-logic QF_LRA) (check-sat)", Ok(2)),
        ("(set-logic QF_NRA) (set-logic QF_LIA)", bad(1, 20)),
        ("(set-logic QF_LIA)", wrong_logic(1, 1)),
        ("(set-logic 5)", bad(1, 1)),
        ("(set-logic)", bad(1, 1)),
    ];
    for (text, expected) in rows {
        assert_eq!(rt; count(rt.alloc(), text.as_bytes()), expected, "{text}");
    }
}

#[test]
fn reads_declarations(rt: HostRuntime) {
    let rows = [
        ("(declare-const x Int)", left_out(1, 1)),
        ("(declare-const x (Array Int Int))", left_out(1, 1)),
        ("(declare-const x ())", bad(1, 1)),
        ("(declare-const x 5)", bad(1, 1)),
        ("(declare-const let Bool)", bad(1, 1)),
        ("(declare-const |let| |Bool|) (check-sat)", Ok(2)),
        ("(declare-fun 5 (Int) Real)", bad(1, 1)),
        ("(declare-fun f (Int) Real)", left_out(1, 1)),
        ("(declare-fun f (5) Int)", bad(1, 1)),
        ("(declare-fun f () Real) (check-sat)", Ok(2)),
        (
            "(define-fun f ((x Real) (y Bool)) Real x) (check-sat)",
            Ok(2),
        ),
        ("(define-fun f ((x Int)) Real x)", left_out(1, 1)),
        ("(define-fun f ((x Int) (y)) Real x)", bad(1, 1)),
        ("(define-fun f () Real)", bad(1, 1)),
        ("(define-fun f () Int 1)", left_out(1, 1)),
        ("(define-fun f (x) Real x)", bad(1, 1)),
    ];
    for (text, expected) in rows {
        assert_eq!(rt; count(rt.alloc(), text.as_bytes()), expected, "{text}");
    }
}

fn levels(line: u32, column: u32) -> Result<usize, Refused> {
    Err(Refused::TooManyLevels(line, column))
}

#[test]
fn reads_levels(rt: HostRuntime) {
    let rows = [
        ("(push 1) (pop 1) (check-sat)", Ok(3)),
        ("(pop 1)\n(check-sat)", bad(1, 1)),
        ("(push 2)\n(pop 3)\n(check-sat)", bad(2, 1)),
        ("(push 1 1)", bad(1, 1)),
        ("(push 1.0)", bad(1, 1)),
        ("(push 1024) (check-sat)", Ok(2)),
        ("(push 1025)", levels(1, 1)),
        ("(push 1024)\n(push 1)", levels(2, 1)),
        ("(push 1024) (pop 1024) (push 1024) (check-sat)", Ok(4)),
        ("(push 99999999999999999999)", levels(1, 1)),
        ("(pop 99999999999999999999)", bad(1, 1)),
        ("(push 1024)\n(check-sat-assuming (p))", levels(2, 1)),
        ("(push 1) (reset)\n(pop 1)", bad(2, 1)),
        ("(reset 1)", bad(1, 1)),
    ];
    for (text, expected) in rows {
        assert_eq!(rt; count(rt.alloc(), text.as_bytes()), expected, "{text}");
    }
}

// Assumptions are a level with their terms and a check.
#[test]
fn reads_assumptions_and_values(rt: HostRuntime) {
    let rows = [
        ("(check-sat-assuming ())", Ok(1)),
        ("(check-sat-assuming (p (not q)))", Ok(5)),
        ("(check-sat-assuming ((not (not p))))", Ok(4)),
        ("(check-sat-assuming ((and p) 1))", Ok(5)),
        ("(check-sat-assuming p)", bad(1, 1)),
        ("(check-sat-assuming (p) q)", bad(1, 1)),
        ("(get-value (x (+ x 1))) (check-sat)", Ok(2)),
        ("(get-value ())", bad(1, 1)),
        ("(get-value x)", bad(1, 1)),
        ("(echo \"a\") (get-info :name) (check-sat)", Ok(3)),
        ("(echo a)", bad(1, 1)),
        ("(echo)", bad(1, 1)),
    ];
    for (text, expected) in rows {
        assert_eq!(rt; count(rt.alloc(), text.as_bytes()), expected, "{text}");
    }
}

// One goal at most, at whatever level, also where the first one is no longer in force.
#[test]
fn reads_a_goal(rt: HostRuntime) {
    let rows = [
        ("(minimize (+ x 1)) (check-sat)", Ok(2)),
        ("(check-sat) (push 1) (minimize x) (pop 1)", Ok(4)),
        ("(|minimize| x) (check-sat)", Ok(2)),
        ("(minimize)", bad(1, 1)),
        ("(minimize x y)", bad(1, 1)),
        ("(maximize x)", bad(1, 1)),
        ("(minimize x)", no_check()),
        ("(minimize x)\n(minimize x)\n(check-sat)", left_out(2, 1)),
        ("(minimize x)\n(minimize)\n(check-sat)", bad(2, 1)),
        (
            "(push 1) (minimize x) (pop 1)\n(minimize y)",
            left_out(2, 1),
        ),
        ("(minimize x) (reset)\n(minimize y)", left_out(2, 1)),
    ];
    for (text, expected) in rows {
        assert_eq!(rt; count(rt.alloc(), text.as_bytes()), expected, "{text}");
    }
}

// So many checks, each in a line of its own.
fn checks(alloc: Global, count: usize) -> Result<String, AllocError> {
    let mut text = String::new(alloc);
    for _check in 0..count {
        text.push_str("(check-sat)\n")?;
    }
    Ok(text)
}

#[test]
fn counts_checks(rt: HostRuntime) {
    let most = checks(rt.alloc(), 1_024).expect(&rt, "memory");
    assert_eq!(rt; count(rt.alloc(), most.as_bytes()), Ok(1_024));
    let more = checks(rt.alloc(), 1_025).expect(&rt, "memory");
    assert_eq!(rt;
        count(rt.alloc(), more.as_bytes()),
        Err(Refused::TooManyChecks(1_025, 1))
    );
}
