// The lines of certificates of several checks.
ghost use Rattle.std.specs.Prelude.{◌≡◌, ◌<◌, ◌-◌, ◌^◌, ℕ, Option, IfOk};
ghost use Rattle.cert_read.specs.CertLine.{keep as KeepLine, point_word as PointLine};
ghost use Rattle.cert_read.specs.Views.{line_of};
ghost use Rattle.cert_model.specs.Session.{is_session_version};
ghost use Rattle.cert_check.specs.declared.work.Work.TheVariants.{Alone as AloneWork, Checks as ChecksWork, First as FirstWork, Header as HeaderWork, Inside as InsideWork, Keep as KeepWork, Part as PartWork};
ghost use Rattle.cert_check.specs.declared.due.Due.TheVariants.{Version as VersionDue};
ghost use Rattle.cert_check.specs.declared.part.Part.{Part as PartInWork};
ghost use Rattle.cert_check.specs.Dues.{IsSound};
ghost use Rattle.cert_check.specs.Stays.{stays_in, stays_in_work};
ghost use Rattle.cert_check.specs.Works.{AreSameChecks, IsFirst, IsInHeader, IsNoVersion, IsNoneComplete, IsPart, IsSoundWork, IsWorkNext};

use crate::due::{Cover, Due};
use crate::header::{MOST_LEMMAS, point};
use crate::lemma::next_line;
use crate::loosenings::Loosenings;
use crate::part::{Part, inside};
use crate::refusal::Refusal;
use crate::work::Work;
use cert_read::Line;
use std::alloc::Global;

// Whether it is a version of certificates of several checks.
fn is_session_version(version: u32) -> bool
    ensures { result ≡ is_session_version version }
{
    version == 3 || version == 5
}

// What is due in a header, where this is so in that of one check.
fn in_header(due: Due) -> Work
    ensures comes { IsInHeader due result }
    ensures sound { (t : PartInWork) → IsFirst t → IsSound t.problem due → IsSoundWork t result }
{
    match due {
        Due::Kind(s) => Work::Checks(s),
        due => Work::Header(due),
    }
}

// `dpoly`, with a version of certificates of several checks.
fn version_line(_part: &Part<'_>, line: &Line) -> Result<Work, Refusal>
    requires sound { IsSoundWork _part.now (HeaderWork VersionDue) }
    ensures comes { (bound : Option ℕ) →
        IsWorkNext _part.now bound (HeaderWork VersionDue) (line_of line.now) _part.now result }
    ensures sound { IfOk result (IsSoundWork _part.now) }
{
    match line {
        Line::Version(version) => {
            if is_session_version(*version) {
                Ok(Work::Header(Due::Margin(*version)))
            } else {
                Err(Refusal::BadHeader)
            }
        }
        _ => Err(Refusal::BadHeader),
    }
}

// A line of the header behind the first one, up to the bound.
fn later_header_line(
    alloc: Global,
    bound: Option<u32>,
    part: &mut Part<'_>,
    due: Due,
    line: &Line,
) -> Result<Work, Refusal>
    requires part { IsPart part.old }
    requires sound { IsSoundWork part.old (HeaderWork due) }
    requires room { stays_in due < 2 ^ 64 - 1 }
    requires later { IsNoVersion due }
    ensures comes { IsWorkNext part.old bound (HeaderWork due) (line_of line.now) part.new result }
    ensures part { IsPart part.new }
    ensures sound { IfOk result (IsSoundWork part.new) }
    ensures checks { AreSameChecks part.old part.new }
{
    match part.next(alloc, bound, due, line) {
        Ok(due) => Ok(in_header(due)),
        Err(refusal) => Err(refusal),
    }
}

// A line of the header, up to the bound.
fn header_line(
    alloc: Global,
    bound: Option<u32>,
    part: &mut Part<'_>,
    due: Due,
    line: &Line,
) -> Result<Work, Refusal>
    requires part { IsPart part.old }
    requires sound { IsSoundWork part.old (HeaderWork due) }
    requires room { stays_in due < 2 ^ 64 - 1 }
    ensures comes { IsWorkNext part.old bound (HeaderWork due) (line_of line.now) part.new result }
    ensures part { IsPart part.new }
    ensures sound { IfOk result (IsSoundWork part.new) }
    ensures checks { AreSameChecks part.old part.new }
{
    match due {
        Due::Version => version_line(part, line),
        due => later_header_line(alloc, bound, part, due, line),
    }
}

// The number of checks, of which there are as many as in the session.
fn checks_line(part: &Part<'_>, s: Loosenings, line: &Line) -> Result<Work, Refusal>
    requires part { IsPart part.now }
    requires sound { IsSoundWork part.now (ChecksWork s) }
    ensures comes { (bound : Option ℕ) →
        IsWorkNext part.now bound (ChecksWork s) (line_of line.now) part.now result }
    ensures sound { IfOk result (IsSoundWork part.now) }
{
    match line {
        Line::Checks(count) => {
            if *count as usize == part.checks() {
                Ok(Work::Part(s))
            } else {
                Err(Refusal::BadHeader)
            }
        }
        _ => Err(Refusal::BadHeader),
    }
}

// `point`, where a part begins.
fn point_line(alloc: Global, part: &mut Part<'_>, s: Loosenings) -> Result<Work, Refusal>
    requires part { IsPart part.old }
    ensures comes { (bound : Option ℕ) →
        IsWorkNext part.old bound (PartWork s) PointLine part.new result }
    ensures part { IsPart part.new }
    ensures sound { IfOk result (IsSoundWork part.new) }
    ensures checks { AreSameChecks part.old part.new }
{
    drop(part.take_lemmas(alloc));
    match point(alloc, &part.problem, s) {
        Ok(due) => Ok(inside(alloc, part, due)?),
        Err(refusal) => Err(refusal),
    }
}

// The first line of a part: `point`, or `cover` with the number of its lemmas.
fn part_line(
    alloc: Global,
    part: &mut Part<'_>,
    s: Loosenings,
    line: &Line,
) -> Result<Work, Refusal>
    requires part { IsPart part.old }
    requires sound { IsSoundWork part.old (PartWork s) }
    ensures comes { (bound : Option ℕ) →
        IsWorkNext part.old bound (PartWork s) (line_of line.now) part.new result }
    ensures part { IsPart part.new }
    ensures sound { IfOk result (IsSoundWork part.new) }
    ensures checks { AreSameChecks part.old part.new }
{
    match line {
        Line::Cover(count) => {
            if *count > MOST_LEMMAS {
                return Err(Refusal::BadHeader);
            }
            Ok(Work::Keep(s, *count))
        }
        Line::Point => point_line(alloc, part, s),
        _ => Err(Refusal::Missing),
    }
}

// The lemmas of the part before that a cover with so many keeps, the first ones: not more than it has, and than there are.
fn kept(
    alloc: Global,
    part: &mut Part<'_>,
    s: Loosenings,
    count: u32,
    keep: u32,
) -> Result<Work, Refusal>
    requires part { IsPart part.old }
    requires sound { IsSoundWork part.old (KeepWork s count) }
    ensures comes { (bound : Option ℕ) →
        IsWorkNext part.old bound (KeepWork s count) (KeepLine keep) part.new result }
    ensures part { IsPart part.new }
    ensures sound { IfOk result (IsSoundWork part.new) }
    ensures checks { AreSameChecks part.old part.new }
{
    if keep > count || keep as usize > part.may_keep.len() {
        return Err(Refusal::KeepFails);
    }
    let mut lemmas = part.take_lemmas(alloc);
    lemmas.truncate(keep as usize);
    Ok(Work::First(Cover {
        loosenings: s,
        count,
        lemmas,
    }))
}

// `keep`, with the number of lemmas that stay.
fn keep_line(
    alloc: Global,
    part: &mut Part<'_>,
    s: Loosenings,
    count: u32,
    line: &Line,
) -> Result<Work, Refusal>
    requires part { IsPart part.old }
    requires sound { IsSoundWork part.old (KeepWork s count) }
    ensures comes { (bound : Option ℕ) →
        IsWorkNext part.old bound (KeepWork s count) (line_of line.now) part.new result }
    ensures part { IsPart part.new }
    ensures sound { IfOk result (IsSoundWork part.new) }
    ensures checks { AreSameChecks part.old part.new }
{
    match line {
        Line::Keep(keep) => kept(alloc, part, s, count, *keep),
        _ => Err(Refusal::Missing),
    }
}

// Where no tree of the part is complete yet, a line of a tree is not one too many: another one is missing.
fn none_complete(refusal: Refusal) -> Refusal
    ensures { IsNoneComplete refusal result }
{
    match refusal {
        Refusal::Extra => Refusal::Missing,
        _ => refusal,
    }
}

// The line behind `keep`: the next lemma, or `tree`.
fn first_line(
    alloc: Global,
    part: &mut Part<'_>,
    cover: Cover,
    line: &Line,
) -> Result<Work, Refusal>
    requires part { IsPart part.old }
    requires sound { IsSoundWork part.old (FirstWork cover) }
    ensures comes { (bound : Option ℕ) →
        IsWorkNext part.old bound (FirstWork cover) (line_of line.now) part.new result }
    ensures part { IsPart part.new }
    ensures sound { IfOk result (IsSoundWork part.new) }
    ensures checks { AreSameChecks part.old part.new }
{
    match next_line(alloc, &part.problem, cover, line) {
        Ok(due) => Ok(inside(alloc, part, due)?),
        Err(refusal) => Err(none_complete(refusal)),
    }
}

// A later line of a part.
fn inside_line(
    alloc: Global,
    bound: Option<u32>,
    part: &mut Part<'_>,
    due: Due,
    line: &Line,
) -> Result<Work, Refusal>
    requires part { IsPart part.old }
    requires sound { IsSoundWork part.old (InsideWork due) }
    requires room { stays_in due < 2 ^ 64 - 1 }
    ensures comes { IsWorkNext part.old bound (InsideWork due) (line_of line.now) part.new result }
    ensures part { IsPart part.new }
    ensures sound { IfOk result (IsSoundWork part.new) }
    ensures checks { AreSameChecks part.old part.new }
{
    match part.next(alloc, bound, due, line) {
        Ok(due) => Ok(inside(alloc, part, due)?),
        Err(refusal) => Err(refusal),
    }
}

// A line of a certificate of one check.
fn alone_line(
    alloc: Global,
    bound: Option<u32>,
    part: &mut Part<'_>,
    due: Due,
    line: &Line,
) -> Result<Work, Refusal>
    requires part { IsPart part.old }
    requires sound { IsSoundWork part.old (AloneWork due) }
    requires room { stays_in due < 2 ^ 64 - 1 }
    ensures comes { IsWorkNext part.old bound (AloneWork due) (line_of line.now) part.new result }
    ensures part { IsPart part.new }
    ensures sound { IfOk result (IsSoundWork part.new) }
    ensures checks { AreSameChecks part.old part.new }
{
    match part.next(alloc, bound, due, line) {
        Ok(due) => Ok(Work::Alone(due)),
        Err(refusal) => Err(refusal),
    }
}

/// What is due after the line, in the part in work or the next one, or the line's fault.
pub fn work_line(
    alloc: Global,
    bound: Option<u32>,
    part: &mut Part<'_>,
    work: Work,
    line: &Line,
) -> Result<Work, Refusal>
    requires part { IsPart part.old }
    requires sound { IsSoundWork part.old work }
    requires room { stays_in_work work < 2 ^ 64 - 1 }
    ensures comes { IsWorkNext part.old bound work (line_of line.now) part.new result }
    ensures part { IsPart part.new }
    ensures sound { IfOk result (IsSoundWork part.new) }
    ensures checks { AreSameChecks part.old part.new }
{
    match work {
        Work::Alone(due) => alone_line(alloc, bound, part, due, line),
        Work::Header(due) => header_line(alloc, bound, part, due, line),
        Work::Checks(s) => checks_line(part, s, line),
        Work::Part(s) => part_line(alloc, part, s, line),
        Work::Keep(s, count) => keep_line(alloc, part, s, count, line),
        Work::First(cover) => first_line(alloc, part, cover, line),
        Work::Inside(due) => inside_line(alloc, bound, part, due, line),
        Work::Done(_) => Err(Refusal::Extra),
    }
}
