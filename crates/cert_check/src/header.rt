// The five lines of a header.
ghost use Rattle.std.specs.Prelude.{◌≡◌, ℕ, Option, IfOk};
ghost use Rattle.cert_read.specs.CertLine.{version as VersionLine, delta as CertDelta, cover as CoverLine, point_word as PointLine};
ghost use Rattle.cert_read.specs.Views.{line_of};
ghost use Rattle.cert_model.specs.Due.{same_bound};
ghost use Rattle.cert_model.specs.Accepted.{loosenings_fit};
ghost use Rattle.poly_graph.specs.ProblemViews.{Parts};
ghost use Rattle.cert_check.specs.declared.due.Due.TheVariants.{Version as VersionDue, Margin as MarginDue, Delta as DeltaDue, Bound as BoundDue, Kind as KindDue};
ghost use Rattle.cert_check.specs.Dues.{due_of, IsNext, IsNextAnywhere, IsNextAt, IsSound};

use crate::due::{Cover, Due};
use crate::lemmas::Lemmas;
use crate::loosenings::Loosenings;
use crate::refusal::Refusal;
use cert_read::Line;
use ival::Space;
use poly_graph::Problem;
use std::alloc::Global;

/// A certificate has at most so many lemmas.
pub const MOST_LEMMAS: u32 = 1_048_576;

// What is due after this version.
fn after_version(version: u32) -> Result<Due, Refusal>
    ensures comes { IsNextAnywhere VersionDue (VersionLine version) result }
    ensures sound { (p : Parts) → IfOk result (IsSound p) }
{
    if version == 1 || version == 2 || version == 5 {
        Ok(Due::Margin(version))
    } else {
        Err(Refusal::BadHeader)
    }
}

/// `dpoly`, with a version that is read: 1, 2 or 5.
pub fn version_line(line: &Line) -> Result<Due, Refusal>
    ensures comes { IsNextAnywhere VersionDue (line_of line.now) result }
    ensures sound { (p : Parts) → IfOk result (IsSound p) }
{
    match line {
        Line::Version(version) => after_version(*version),
        _ => Err(Refusal::BadHeader),
    }
}

/// `margin`.
pub fn margin_line(version: u32, line: &Line) -> Result<Due, Refusal>
    ensures comes { IsNextAnywhere (MarginDue version) (line_of line.now) result }
    ensures sound { (p : Parts) → IfOk result (IsSound p) }
{
    match line {
        Line::Margin(margin) => Ok(Due::Delta(version, *margin)),
        _ => Err(Refusal::BadHeader),
    }
}

// From one bit of delta up to thirty, and above it up to sixty of margin.
fn fit(margin: u32, delta: u32) -> bool
    ensures { result ≡ loosenings_fit margin delta }
{
    1 <= delta && delta <= 30 && delta < margin && margin <= 60
}

// The loosenings, where they are in their limits.
fn loosenings(version: u32, margin: u32, delta: u32) -> Result<Due, Refusal>
    ensures comes { IsNextAnywhere (DeltaDue version margin) (CertDelta delta) result }
    ensures sound { (p : Parts) → IfOk result (IsSound p) }
{
    if fit(margin, delta) {
        Ok(Due::Bound(Loosenings {
            margin,
            delta,
            version,
        }))
    } else {
        Err(Refusal::BadHeader)
    }
}

/// `delta`, below the margin.
pub fn delta_line(version: u32, margin: u32, line: &Line) -> Result<Due, Refusal>
    ensures comes { IsNextAnywhere (DeltaDue version margin) (line_of line.now) result }
    ensures sound { (p : Parts) → IfOk result (IsSound p) }
{
    match line {
        Line::Delta(delta) => loosenings(version, margin, *delta),
        _ => Err(Refusal::BadHeader),
    }
}

// Whether these are the same bound.
fn same_bound(a: Option<u32>, b: Option<u32>) -> bool
    ensures { result ≡ same_bound a b }
{
    match a {
        None => b.is_none(),
        Some(m) => match b {
            None => false,
            Some(n) => m == n,
        },
    }
}

/// `bound`, which has to be that of the words.
pub fn bound_line(s: Loosenings, bound: Option<u32>, line: &Line) -> Result<Due, Refusal>
    ensures comes { (p : Parts) →
        IsNextAt p bound (due_of p (BoundDue s)) (line_of line.now) result }
    ensures sound { (p : Parts) → IfOk result (IsSound p) }
{
    match line {
        Line::Bound(told) => {
            if same_bound(*told, bound) {
                Ok(Due::Kind(s))
            } else {
                Err(Refusal::WrongBound)
            }
        }
        _ => Err(Refusal::BadHeader),
    }
}

/// The first axis of a point.
pub fn point(alloc: Global, problem: &Problem, s: Loosenings) -> Result<Due, Refusal>
    ensures comes { IsNext problem.now (KindDue s) PointLine result }
    ensures sound { IfOk result (IsSound problem.now) }
{
    let space = Space::with_capacity(alloc, problem.axes().len())?;
    Ok(Due::Coordinate(s, space))
}

// The first lemma of a cover.
fn cover(alloc: Global, s: Loosenings, count: u32) -> Result<Due, Refusal>
    ensures comes { IsNextAnywhere (KindDue s) (CoverLine count) result }
    ensures sound { (p : Parts) → IfOk result (IsSound p) }
{
    if count > MOST_LEMMAS {
        return Err(Refusal::BadHeader);
    }
    Ok(Due::Next(Cover {
        loosenings: s,
        count,
        lemmas: Lemmas::new(alloc),
    }))
}

/// `cover`, with the number of lemmas, or `point`.
pub fn kind_line(
    alloc: Global,
    problem: &Problem,
    s: Loosenings,
    line: &Line,
) -> Result<Due, Refusal>
    ensures comes { IsNext problem.now (KindDue s) (line_of line.now) result }
    ensures sound { IfOk result (IsSound problem.now) }
{
    match line {
        Line::Cover(count) => cover(alloc, s, *count),
        Line::Point => point(alloc, problem, s),
        _ => Err(Refusal::BadHeader),
    }
}
