// Certificates that are read at any place and checked, each by itself.
ghost use Rattle.std.specs.Prelude.{◌≡◌, [], IfOk, IfSome, MatchResult};
ghost use Rattle.desk.specs.Sight.{part_in};
ghost use Rattle.poly_graph.specs.ProblemViews.{problem_of};
ghost use Rattle.cert_model.specs.Accepted.{verdict};
ghost use Rattle.cert_check.specs.Feeding.{HasTaken};
ghost use Rattle.dpoly.specs.Join.{IsFirstFaultOn, IsReadAlone, IsToldAlone, IsUnread};

use cert_check::{CertFault, Feed};
use check_run::{ROOM, Unconfirmed, Unread};
use desk::Desk;
use poly_graph::Problem;
use std::alloc::Global;

// The verdict of a certificate, by a feed that was fed nothing; it is read up to its first fault.
fn verdict_by<D: Desk>(
    desk: &mut D,
    problem: &Problem,
    bound: Option<u32>,
    number: usize,
    feed: &mut Feed<'_>,
) -> Result<(), Unconfirmed>
    requires { HasTaken problem.now bound [] feed.old }
    ensures told { IfSome (part_in number (D.sight desk.old)) (λ cert.
        IsToldAlone (verdict (problem_of problem.now) bound cert) result) }
    ensures read { IsReadAlone result (D.sight desk.old) (D.sight desk.new) }
{
    let mut buffer = [0u8; ROOM];
    let mut at = 0u64;
    loop {
        let n = match desk.read_at(number, at, &mut buffer) {
            Ok(n) => n,
            Err(_) => return Err(Unconfirmed::Failed),
        };
        if n == 0 {
            match feed.end() {
                Ok(_) => return Ok(()),
                Err(fault) => return Err(Unconfirmed::Fault(fault)),
            }
        }
        match feed.piece(&buffer[..n]) {
            Ok(()) => at += n as u64,
            Err(fault) => return Err(Unconfirmed::Fault(fault)),
        }
    }
}

// The verdict of a certificate, which is read up to its first fault.
fn told_alone<D: Desk>(
    alloc: Global,
    desk: &mut D,
    problem: &Problem,
    bound: Option<u32>,
    number: usize,
) -> Result<(), Unconfirmed>
    ensures told { IfSome (part_in number (D.sight desk.old)) (λ cert.
        IsToldAlone (verdict (problem_of problem.now) bound cert) result) }
    ensures read { IsReadAlone result (D.sight desk.old) (D.sight desk.new) }
{
    match Feed::new(alloc, problem, bound) {
        Ok(mut feed) => verdict_by(desk, problem, bound, number, &mut feed),
        Err(_) => Err(Unconfirmed::Fault(CertFault::Memory)),
    }
}

/// Of so many certificates the first that is refused, by its number from 1 on, with its fault, out of memory included; none
/// where each is accepted.
pub fn first_fault<D: Desk>(
    alloc: Global,
    desk: &mut D,
    problem: &Problem,
    bound: Option<u32>,
    count: usize,
) -> Result<Option<(usize, CertFault)>, Unread>
    ensures told { IfOk result
        (IsFirstFaultOn (problem_of problem.now) bound count (D.sight desk.old)) }
    ensures read { MatchResult result
        (λ x. D.sight desk.new ≡ D.sight desk.old)
        (λ e. IsUnread e (D.sight desk.old) (D.sight desk.new)) }
{
    let mut number = 0usize;
    while number < count {
        match told_alone(alloc, desk, problem, bound, number) {
            Ok(()) => number += 1,
            Err(Unconfirmed::Fault(fault)) => return Ok(Some((number + 1, fault))),
            Err(Unconfirmed::Failed) => return Err(Unread::Failed),
        }
    }
    Ok(None)
}
