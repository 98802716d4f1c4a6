// The headers of certificates, one after the other.
ghost use Rattle.std.specs.Prelude.{◌≡◌, ◌≢◌, IfOk, IfSome, MatchOption, MatchResult, take};
ghost use Rattle.desk.specs.Sight.{part_in};
ghost use Rattle.cert_parting.specs.Calls.{IsPartingOn, IsUnread};
ghost use Rattle.cert_parting.specs.Parting.{bits_in, header_room, line_apart};

use crate::header::bits_of_text;
use desk::{Denied, Desk};
use std::alloc::Global;

// The first three lines of a certificate have at most so many bytes.
const HEADER_ROOM: usize = 64;

/// A line of a certificate.
#[derive(Clone, Copy, Debug, PartialEq, Eq)]
pub struct Place {
    /// The number of the certificate, from 1.
    pub number: usize,
    /// The number of the line, from 1.
    pub line: u64,
}

// The first bytes of a certificate, as many as a header may have, or all.
fn front_of<D: Desk>(alloc: Global, desk: &mut D, number: usize) -> Result<Vec<u8>, Denied>
    ensures told { IfOk result (λ front. IfSome (part_in number (D.sight desk.old))
        (λ cert. front.items ≡ take header_room cert)) }
    ensures read { MatchResult result
        (λ x. D.sight desk.new ≡ D.sight desk.old)
        (λ e. IsUnread e (D.sight desk.old) (D.sight desk.new)) }
{
    let mut front: Vec<u8> = Vec::new(alloc);
    let mut buffer = [0u8; HEADER_ROOM];
    while front.len() < HEADER_ROOM {
        let n = match desk.read_at(number, front.len() as u64, &mut buffer) {
            Ok(n) => n,
            Err(_) => return Err(Denied::Failed),
        };
        if n == 0 {
            return Ok(front);
        }
        match front.extend_from_slice(&buffer[..n]) {
            Ok(()) => {}
            Err(_) => return Err(Denied::Memory),
        }
    }
    front.truncate(HEADER_ROOM);
    Ok(front)
}

// The bits of margin and delta in the header of a certificate.
fn bits_at<D: Desk>(
    alloc: Global,
    desk: &mut D,
    number: usize,
) -> Result<Option<(u32, u32)>, Denied>
    ensures told { IfOk result (λ bits. IfSome (part_in number (D.sight desk.old))
        (λ cert. bits ≡ bits_in cert)) }
    ensures read { MatchResult result
        (λ x. D.sight desk.new ≡ D.sight desk.old)
        (λ e. IsUnread e (D.sight desk.old) (D.sight desk.new)) }
{
    match front_of(alloc, desk, number) {
        Ok(front) => match bits_of_text(alloc, &front) {
            Ok(bits) => Ok(bits),
            Err(_) => Err(Denied::Memory),
        },
        Err(denied) => Err(denied),
    }
}

// The line in which a header differs from the first one's; none where it does not.
fn line_apart(first: Option<(u32, u32)>, other: Option<(u32, u32)>) -> Option<u64>
    ensures { MatchOption result (other ≡ first)
        (λ n. (other ≢ first) × (n ≡ line_apart first other)) }
{
    match first {
        Some((margin, delta)) => match other {
            Some((m, _)) if m != margin => Some(2),
            Some((_, d)) if d != delta => Some(3),
            Some(_) => None,
            None => Some(2),
        },
        None => match other {
            Some(_) => Some(2),
            None => None,
        },
    }
}

/// Of so many certificates the first whose margin or delta is not that of the first one, and the line of its header that
/// says so; none where all agree.
pub fn first_parting<D: Desk>(
    alloc: Global,
    desk: &mut D,
    count: usize,
) -> Result<Option<Place>, Denied>
    ensures told { IfOk result (IsPartingOn count (D.sight desk.old)) }
    ensures read { MatchResult result
        (λ x. D.sight desk.new ≡ D.sight desk.old)
        (λ e. IsUnread e (D.sight desk.old) (D.sight desk.new)) }
{
    if count == 0 {
        return Ok(None);
    }
    let first = match bits_at(alloc, desk, 0) {
        Ok(bits) => bits,
        Err(denied) => return Err(denied),
    };
    let mut number = 1usize;
    while number < count {
        let bits = match bits_at(alloc, desk, number) {
            Ok(bits) => bits,
            Err(denied) => return Err(denied),
        };
        number += 1;
        match line_apart(first, bits) {
            Some(line) => return Ok(Some(Place { number, line })),
            None => {}
        }
    }
    Ok(None)
}
