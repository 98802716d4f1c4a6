// A certificate read back.
ghost use Rattle.std.specs.Prelude.{◌≡◌, ◌<◌, ◌≤◌, ℕ, length, map, slice_get, true, IfErr, IfOk, None, Ok, OnOk, Option, Some};
ghost use Rattle.poly_graph.specs.ProblemViews.{problem_of};
ghost use Rattle.ival.specs.SpaceViews.{space_of};
ghost use Rattle.cert_read.specs.CertLine.{parsed};
ghost use Rattle.cert_read.specs.Lines.{lines_of};
ghost use Rattle.cert_model.specs.Accepted.{most_bytes, verdict};
ghost use Rattle.cert_check.specs.Checked.{fresh_checker};
ghost use Rattle.cert_check.specs.Courses.{cover_in, point_in, Finishes, IsUnderWay};
ghost use Rattle.cert_check.specs.Feeding.{IsRefusalOrMemory};
ghost use Rattle.cert_base.specs.Base.{loosenings_of, IsReadBack};
ghost use Rattle.cert_base.specs.Gathered.{nothing_yet};
ghost use Rattle.cert_base.specs.Views.{base_gathered, gathered_of, IsGathered};

use crate::base::{Base, Read};
use crate::gathered::Gathered;
use cert_check::{CertFault, Checker, Lemmas, Verdict};
use cert_read::LineReader;
use cover_data::{State, StoredState};
use ival::Space;
use poly_graph::Problem;
use std::alloc::{AllocError, Global};

// The reader of these bytes and no more.
fn reader_of(alloc: Global, cert: &[u8]) -> Result<LineReader, AllocError>
    ensures reader { IfOk result (λ r. r ≡ record { unread = cert.now; ended = true }) }
    ensures few { length cert.now ≤ most_bytes }
{
    let _size = cert.len();
    let mut reader = LineReader::new(alloc);
    reader.feed(cert)?;
    reader.end();
    Ok(reader)
}

// The verdict of the bytes, whose lines are gathered.
fn take_all(
    alloc: Global,
    problem: &Problem,
    cert: &[u8],
    checker: &mut Checker<'_>,
    gathered: &mut Gathered,
) -> Result<Verdict, CertFault>
    requires { IsUnderWay checker.old.course }
    ensures fault { (b : Option ℕ) → checker.old ≡ fresh_checker problem.now b →
        IfErr result (IsRefusalOrMemory (verdict (problem_of problem.now) b cert.now)) }
    ensures gathered { (b : Option ℕ) → checker.old ≡ fresh_checker problem.now b →
        gathered_of gathered.old ≡ nothing_yet →
        OnOk result (IsGathered (problem_of problem.now) b (map parsed (lines_of cert.now))
        checker.new.course (gathered_of gathered.new)) }
    ensures finished { IfOk result (λ w. Finishes checker.new.course (Ok w)) }
    ensures few { length cert.now ≤ most_bytes }
{
    let mut reader = reader_of(alloc, cert)?;
    match gathered.take(alloc, problem, checker, &mut reader) {
        Ok(()) => checker.finish(),
        Err(fault) => Err(fault),
    }
}

// The point of a certificate that was taken whole.
fn point_of(alloc: Global, checker: &Checker<'_>) -> Result<Space, AllocError>
    requires { ¬ (point_in checker.now.course ≡ None) }
    ensures { IfOk result (λ point. point_in checker.now.course ≡ Some (space_of point)) }
{
    match checker.point() {
        Some(point) => point.try_clone(alloc),
        None => unreachable!(),
    }
}

// The state of the lemma of this number, to be kept, where one that is like it may be kept already.
fn stored(
    alloc: Global,
    lemmas: &Lemmas,
    i: usize,
    like: Option<&StoredState>,
) -> Result<StoredState, AllocError>
    requires { i < length lemmas.now }
    ensures { IfOk result (λ s. slice_get lemmas.now i ≡ Some s) }
{
    let (space, marks) = lemmas.state(alloc, i)?;
    StoredState::new(alloc, &State::new(space, marks), like)
}

// The states of lemmas.
#[tactic(auto, using(crate::proofs::Taken::all_taken))]
fn states_of(alloc: Global, lemmas: &Lemmas) -> Result<Vec<StoredState>, AllocError>
    ensures { IfOk result (λ v. v.items ≡ lemmas.now) }
{
    let mut states: Vec<StoredState> = Vec::with_capacity(alloc, lemmas.len())?;
    for i in 0..lemmas.len() {
        let state = stored(alloc, lemmas, i, states.last())?;
        states.push(state)?;
    }
    Ok(states)
}

// What was gathered of a cover that was taken whole, with its header and its lemmas.
fn base_of(
    alloc: Global,
    checker: &Checker<'_>,
    bound: Option<u32>,
    gathered: Gathered,
) -> Result<Base, AllocError>
    requires { ¬ (cover_in checker.now.course ≡ None) }
    ensures cover { IfOk result (λ b.
        cover_in checker.now.course ≡ Some (loosenings_of b, b.lemmas.items)) }
    ensures gathered { IfOk result (λ b. base_gathered b ≡ gathered_of gathered) }
    ensures bound { IfOk result (λ b. b.bound ≡ bound) }
{
    let Some(cover) = checker.cover() else {
        unreachable!();
    };
    let lemmas = states_of(alloc, cover.lemmas)?;
    let Gathered {
        lemma_lines,
        main,
        left,
    } = gathered;
    Ok(Base {
        version: cover.loosenings.version,
        margin: cover.loosenings.margin,
        delta: cover.loosenings.delta,
        bound,
        lemma_lines,
        lemmas,
        main,
        left,
    })
}

/// Checks a certificate of one check, for the problem, where `bound` is the bound of the words, and answers what it says;
/// of a cover that leaves states open or stuck all that one that goes on from it needs. The error is the first fault, or
/// out of memory.
pub fn read_base(
    alloc: Global,
    problem: &Problem,
    bound: Option<u32>,
    cert: &[u8],
) -> Result<Read, CertFault>
    ensures { IsReadBack (problem_of problem.now) bound cert.now result }
{
    let mut checker = Checker::new(alloc, problem, bound)?;
    let mut gathered = Gathered::new(alloc);
    match take_all(alloc, problem, cert, &mut checker, &mut gathered)? {
        Verdict::Unsat(margin) => Ok(Read::Closed(margin)),
        Verdict::Point(delta) => Ok(Read::Point(point_of(alloc, &checker)?, delta)),
        Verdict::Left(_) => Ok(Read::Cover(base_of(alloc, &checker, bound, gathered)?)),
    }
}
