// The check of a certificate, from a script and a certificate to the answer: by pieces, and where each call of the desk fails
// once.
use check_run::{Status, run_check};
use command_line::CheckWords;
use desk::{Desk, Fault, MemoryDesk, Port};
use problem_build::Reader;
use std::alloc::{AllocError, Global};

// ---- by pieces

const ONE: &[u8] = b"(check-sat)";

const TWO: &[u8] = b"(check-sat)(assert false)(check-sat)";

// Scripts with certificates, how the check of each ends, and its answer.
const CERTIFICATES: [(&[u8], &[u8], Status, &str); 8] = [
    (
        ONE,
        b"dpoly 1\nmargin 20\ndelta 10\nbound none\ncover 0\ntree\nopen\nend\n",
        Status::Answered,
        "open 1\n",
    ),
    (
        ONE,
        b"dpoly 1\nmargin 20\ndelta 10\nbound none\npoint\nend",
        Status::Answered,
        "confirmed delta-sat\ndelta 1b-10\n",
    ),
    (
        ONE,
        b"dpoly 1\nmargin 20\ndelta 10\nbound none\ncover 0\ntree\nfalse\nend\n",
        Status::CertRefused,
        "certificate fault 3 RuleFails false line 7\n",
    ),
    (
        ONE,
        b"",
        Status::CertRefused,
        "certificate fault 1 BadHeader line 1\n",
    ),
    (
        TWO,
        b"dpoly 3\nmargin 20\ndelta 10\nbound none\nchecks 2\npoint\nend\ncover 0\nkeep 0\ntree\nfalse\nend",
        Status::Answered,
        "confirmed delta-sat\ndelta 1b-10\nconfirmed unsat\nmargin 1b-20\n",
    ),
    (
        TWO,
        b"dpoly 3\nmargin 20\ndelta 10\nbound none\nchecks 2\npoint\nend\ncover 0\nkeep 1\ntree\nfalse\nend\n",
        Status::CertRefused,
        "certificate fault 3 RuleFails keep line 9\n",
    ),
    (
        TWO,
        b"dpoly 2\nmargin 20\ndelta 10\nbound none\npoint\nend\n",
        Status::CertRefused,
        "certificate fault 1 BadHeader line 1\n",
    ),
    (
        b"(check-sat",
        b"",
        Status::ScriptRefused,
        "script fault 3 Unbalanced 1:1\n",
    ),
];

// A desk with this script and this certificate, of which a read gives so many bytes at most.
fn desk_of(
    alloc: Global,
    script: &[u8],
    cert: &[u8],
    most: usize,
) -> Result<MemoryDesk, AllocError> {
    Ok(MemoryDesk::new(
        alloc,
        script.to_vec(alloc)?,
        cert.to_vec(alloc)?,
        most.max(1),
    ))
}

fn checked(alloc: Global, desk: &mut MemoryDesk) -> Status {
    let asked = CheckWords {
        script: "s",
        cert: "c",
        bound: None,
    };
    run_check(&Reader, alloc, desk, asked)
}

// Whether the certificate is answered so, however much a read gives.
fn is_checked(alloc: Global, script: &[u8], cert: &[u8], wanted: Status, text: &str) -> bool {
    for most in [1usize, 7, 65_536] {
        let Ok(mut desk) = desk_of(alloc, script, cert, most) else {
            return false;
        };
        if checked(alloc, &mut desk) != wanted || desk.written(Port::Answer) != text.as_bytes() {
            return false;
        }
    }
    true
}

// The answer of the first certificate that is answered otherwise.
fn first_wrong(alloc: Global) -> Option<&'static str> {
    for (script, cert, wanted, text) in &CERTIFICATES {
        if !is_checked(alloc, script, cert, *wanted, text) {
            return Some(text);
        }
    }
    None
}

#[test]
fn certificates_are_checked_by_pieces(rt: HostRuntime) {
    assert_eq!(rt; first_wrong(rt.alloc()), None);
}

// ---- calls that fail

// Whether the check ends as the call that failed has it, if it was made, and nothing was answered where a read failed.
fn ends_so(alloc: Global, desk: &mut MemoryDesk) -> bool {
    let status = checked(alloc, desk);
    if desk.in_faults() > 0 {
        status == Status::InFailed && desk.written(Port::Answer).is_empty()
    } else if desk.out_faults() > 0 {
        status == Status::OutFailed
    } else {
        status == Status::CertRefused
    }
}

fn fails_once(alloc: Global, fault: Fault) -> bool {
    match desk_of(alloc, ONE, b"dpoly 2\n", 3) {
        Ok(mut desk) => desk.fail(fault).is_ok() && ends_so(alloc, &mut desk),
        Err(_) => false,
    }
}

// The same of each of the first six calls of the ports.
fn all_fail_once(alloc: Global) -> bool {
    for port in [Port::Script, Port::CertIn, Port::Answer] {
        for call in 0u64..6 {
            if !fails_once(alloc, Fault { port, call }) {
                return false;
            }
        }
    }
    true
}

#[test]
fn each_call_of_a_check_fails_once(rt: HostRuntime) {
    assert!(rt; all_fail_once(rt.alloc()));
}
