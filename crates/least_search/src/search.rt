// The search for a least value.
ghost use Rattle.std.specs.Prelude.{◌≡◌, ◌≢◌, ◌+◌, ◌<◌, ◌≤◌, true, false, IfOk, None, OnOk, Some, length, option_map};
ghost use Rattle.dyadic.specs.Rounding.{ext_at_most};
ghost use Rattle.dyadic.specs.Views.{dyadic_of};
ghost use Rattle.poly_graph.specs.ProblemViews.{problem_of};
ghost use Rattle.cert_model.specs.Due.{is_crossed_box};
ghost use Rattle.cert_model.specs.Least.{lower_end};
ghost use Rattle.cover_book.specs.Limits.{IsWithinLimits};
ghost use Rattle.cover_book.specs.Verdict.{verdict_of};
ghost use Rattle.cover_book.specs.declared.verdict.BookVerdict.TheVariants as verdicts;
ghost use Rattle.least_search.specs.Aims.{IsReady, IsSameAim};
ghost use Rattle.least_search.specs.Found.{AreBoundsOf, AreFar, BeginsFor, IsBookOf, IsEndingAt, IsFound, IsLeast, IsNextSearch, IsSearchOf, IsSearchVersion, IsShownFor, IsVersionAfter, bound_of, lower_behind, span_of, weight};
ghost use Rattle.least_search.specs.Limits.{IsLimited, IsNotBelow, StaysAbove, span_in};
ghost use Rattle.least_search.specs.declared.limits.Phase.TheVariants as phase;

use crate::aim::Aim;
use crate::bounds::{Bounds, is_settled};
use crate::descent::{go_down, take_valley};
use crate::found::{Ending, Found, Least, Lower};
use crate::limits::{Between, Limited, Phase, next_limit};
use cover_book::{Book, BookVerdict};
use cover_data::{Options, Point};
use dyadic::{Dy, Ext, at_most};
use poly_graph::Problem;
use std::alloc::{AllocError, Global};

impl Lower {
    /// The bound; none for minus infinity.
    pub fn bound(&self) -> Option<Dy>
        ensures { result ≡ bound_of self.now }
    {
        match self {
            Lower::Root(bound) => *bound,
            Lower::Limit(_, _, bound) => Some(*bound),
        }
    }
}

// The least budget of the first probes.
const PROBE: u32 = 4;

// The budget of the next search, where so much is left of the one of all: a probe has a sixteenth of what was spent so far, so
// that all probes together cost little beside the other searches, and at least its patience, and a closing search has half of
// what is left.
fn share(phase: Phase, all: u32, left: u32, patience: u32) -> u32
    requires { 0 < left }
    ensures { result < left }
{
    let most = left - 1;
    match phase {
        Phase::Probing => most.min((all.saturating_sub(left) / 16).max(patience)),
        Phase::Closing => most / 2,
        Phase::Halving => most,
    }
}

// Whether the search found a point, or closed its problem.
fn is_decided(verdict: BookVerdict) -> bool {
    matches!(verdict, BookVerdict::Unsat | BookVerdict::DeltaSat)
}

// What the search behind one of this verdict is for, where `near` says that its limit was below the best value by two gaps at
// most, and no descent leads far down. Probes come nearer to the best value from both sides until one that is near decides
// nothing.
fn next_phase(phase: Phase, verdict: BookVerdict, near: bool) -> Phase {
    match phase {
        Phase::Halving => Phase::Halving,
        _ if is_decided(verdict) => Phase::Probing,
        Phase::Probing if near => Phase::Closing,
        Phase::Probing => Phase::Probing,
        Phase::Closing => Phase::Halving,
    }
}

// The last limit at which a probe decided nothing, behind a search of this verdict; none where the limit is a lower bound.
fn next_tried(phase: Phase, verdict: BookVerdict, tried: Option<Dy>, limit: Dy) -> Option<Dy>
    ensures closed { verdict ≡ verdicts.Unsat → result ≡ None }
    ensures above { StaysAbove tried limit result }
{
    match (phase, verdict) {
        (Phase::Probing, BookVerdict::DeltaSat) => tried,
        (Phase::Probing, BookVerdict::UnknownBudget | BookVerdict::UnknownWidth) => Some(limit),
        _ => None,
    }
}

// The least budget of a probe behind a search of this verdict. A closing search that finds a point finds one that is hardly
// better, and probes between it and the lower bound had too little to find a better one: so it doubles.
fn next_patience(phase: Phase, verdict: BookVerdict, patience: u32) -> u32 {
    match (phase, verdict) {
        (Phase::Closing, BookVerdict::DeltaSat) => patience.saturating_mul(2),
        _ => patience,
    }
}

// The problem with a limit is searched with a share of what is left of the budget.
fn search_limited<F: Fn(Global, &Problem, &Options) -> Result<Book, AllocError>>(
    searcher: &F,
    alloc: Global,
    aim: &Aim<'_>,
    bounds: &Bounds,
    limited: &Limited,
) -> Result<Book, AllocError>
    requires takes { (a p o : _) → IsWithinLimits p.now o.now → F.pre searcher.now a p o }
    requires gives { (a p o r : _) → F.post searcher.now a p o r →
        IfOk r (IsBookOf p.now o.now) }
    requires ready { IsReady aim.now }
    requires limited { IsLimited aim.now.problem.now aim.now.goal limited.now }
    requires bounds { AreBoundsOf aim.now bounds.now }
    requires budget { 0 < bounds.now.budget }
    ensures book { IfOk result (IsSearchOf aim.now limited.now) }
    ensures version { IfOk result (λ b.
        IsVersionAfter bounds.now.version b.options.version) }
    ensures less { IfOk result (λ b. b.branches < bounds.now.budget) }
{
    let options = Options {
        budget: share(
            bounds.phase,
            aim.options.budget,
            bounds.budget,
            bounds.patience,
        ),
        version: bounds.version,
        ..*aim.options
    };
    let book = searcher(alloc, &limited.problem, &options)?;
    Ok(book)
}

// The book leaves nothing of the problem with a limit: that is the lower bound now.
fn take_closed(aim: &Aim<'_>, bounds: &mut Bounds, limited: Limited, book: Book)
    requires bounds { AreBoundsOf aim.now bounds.old }
    requires search { IsNextSearch aim.now bounds.old limited book }
    requires version { book.options.version ≡ bounds.old.version }
    requires closed { verdict_of book ≡ verdicts.Unsat }
    requires tried { bounds.old.tried ≡ None }
    ensures bounds { AreBoundsOf aim.now bounds.new }
    ensures less { bounds.new.budget < bounds.old.budget }
{
    bounds.budget -= 1 + book.branches();
    bounds.lower = Lower::Limit(book, limited.bits, limited.limit);
}

// The book of a problem with a limit decided nothing.
fn take_undecided(aim: &Aim<'_>, bounds: &mut Bounds, limited: &Limited, book: &Book)
    requires bounds { AreBoundsOf aim.now bounds.old }
    requires search { IsNextSearch aim.now bounds.old limited.now book.now }
    requires undecided { verdict_of book.now ≢ verdicts.Unsat }
    requires no_point { book.now.point ≡ None }
    ensures bounds { AreBoundsOf aim.now bounds.new }
    ensures same { bounds.new ≡ record bounds.old { budget = bounds.new.budget } }
    ensures less { bounds.new.budget < bounds.old.budget }
{
    bounds.budget -= 1 + book.branches();
}

// The book of a problem with a limit has a point: the best one is at least as good then.
fn take_found(
    alloc: Global,
    aim: &mut Aim<'_>,
    bounds: &mut Bounds,
    limited: &Limited,
    book: &Book,
) -> Result<(), AllocError>
    requires ready { IsReady aim.old }
    requires bounds { AreBoundsOf aim.old bounds.old }
    requires search { IsNextSearch aim.old bounds.old limited.now book.now }
    requires undecided { verdict_of book.now ≢ verdicts.Unsat }
    ensures ready { IsReady aim.new }
    ensures same { IsSameAim aim.old aim.new }
    ensures bounds { AreBoundsOf aim.old bounds.new }
    ensures less { OnOk result (bounds.new.budget < bounds.old.budget) }
{
    let Some(point) = book.point() else {
        take_undecided(aim, bounds, limited, book);
        return Ok(());
    };
    take_valley(alloc, aim, bounds, point)?;
    bounds.budget -= 1 + book.branches();
    Ok(())
}

// What comes of the book of a problem with a limit, by its verdict.
fn take_by_verdict(
    alloc: Global,
    aim: &mut Aim<'_>,
    bounds: &mut Bounds,
    limited: Limited,
    book: Book,
    phase: Phase,
) -> Result<Option<Ending>, AllocError>
    requires ready { IsReady aim.old }
    requires bounds { AreBoundsOf aim.old bounds.old }
    requires far { AreFar (span_of aim.old.gap_bits bounds.old) }
    requires search { IsNextSearch aim.old bounds.old limited book }
    requires version { book.options.version ≡ bounds.old.version }
    requires tried { verdict_of book ≡ verdicts.Unsat → bounds.old.tried ≡ None }
    ensures ready { IsReady aim.new }
    ensures same { IsSameAim aim.old aim.new }
    ensures bounds { AreBoundsOf aim.old bounds.new }
    ensures ending { IfOk result (IsEndingAt aim.old bounds.new) }
    ensures less { OnOk result (bounds.new.budget < bounds.old.budget) }
{
    match book.verdict() {
        BookVerdict::Unsat => {
            take_closed(aim, bounds, limited, book);
            Ok(None)
        }
        BookVerdict::DeltaSat => {
            take_found(alloc, aim, bounds, &limited, &book)?;
            Ok(None)
        }
        BookVerdict::UnknownBudget => {
            take_undecided(aim, bounds, &limited, &book);
            Ok(None)
        }
        BookVerdict::UnknownWidth => {
            take_undecided(aim, bounds, &limited, &book);
            match phase {
                Phase::Halving => Ok(Some(Ending::Width)),
                Phase::Probing | Phase::Closing => Ok(None),
            }
        }
        BookVerdict::NotYet => unreachable!(),
    }
}

// The version in which a search ended is that of what shows the lower bound, and of the next search.
fn go_over(bounds: &mut Bounds, version: u32)
    ensures { bounds.new ≡ record bounds.old
        { lower = lower_behind version bounds.old.lower; version = version } }
{
    if version >= 5 {
        if let Lower::Limit(book, _, _) = &mut bounds.lower {
            book.raise();
        }
    }
    bounds.version = version;
}

// What the next search is for, behind one of this verdict and limit, and with which budget at least.
fn plan_next(bounds: &mut Bounds, verdict: BookVerdict, limit: Dy, near: bool)
    ensures same { bounds.new ≡ record bounds.old
        { phase = bounds.new.phase; tried = bounds.new.tried; patience = bounds.new.patience } }
    ensures closed { verdict ≡ verdicts.Unsat → bounds.new.tried ≡ None }
    ensures above { StaysAbove bounds.old.tried limit bounds.new.tried }
{
    let phase = bounds.phase;
    bounds.phase = next_phase(phase, verdict, near);
    bounds.tried = next_tried(phase, verdict, bounds.tried, limit);
    bounds.patience = next_patience(phase, verdict, bounds.patience);
}

// What comes of the book of a problem with a limit.
fn take_book(
    alloc: Global,
    aim: &mut Aim<'_>,
    bounds: &mut Bounds,
    limited: Limited,
    book: Book,
) -> Result<Option<Ending>, AllocError>
    requires ready { IsReady aim.old }
    requires bounds { AreBoundsOf aim.old bounds.old }
    requires far { AreFar (span_of aim.old.gap_bits bounds.old) }
    requires search { IsNextSearch aim.old bounds.old limited book }
    requires version { IsVersionAfter bounds.old.version book.options.version }
    ensures ready { IsReady aim.new }
    ensures same { IsSameAim aim.old aim.new }
    ensures bounds { AreBoundsOf aim.old bounds.new }
    ensures ending { IfOk result (IsEndingAt aim.old bounds.new) }
    ensures less { OnOk result (bounds.new.budget < bounds.old.budget) }
{
    let phase = bounds.phase;
    let gaps = aim.gap_bits.saturating_sub(1);
    let near = is_settled(Some(limited.limit), bounds.upper, gaps);
    go_over(bounds, book.options().version);
    plan_next(bounds, book.verdict(), limited.limit, near);
    take_by_verdict(alloc, aim, bounds, limited, book, phase)
}

// From where the limit of a probe lies half way to the best value: the last limit at which one decided nothing, if that is
// below the best value, or the lower bound.
#[tactic(auto, using(crate::proofs::Near::at_most_itself))]
fn probe_from(lower: Option<Dy>, tried: Option<Dy>, upper: Ext) -> Option<Dy>
    requires { IsNotBelow (lower_end (option_map dyadic_of lower)) tried }
    ensures { ext_at_most (lower_end (option_map dyadic_of lower))
        (lower_end (option_map dyadic_of result)) ≡ true }
{
    match tried {
        Some(limit) if !at_most(upper, Ext::Fin(limit)) => Some(limit),
        _ => lower,
    }
}

// One more probe; where there is no limit for one, the closing search is next.
fn probe<F: Fn(Global, &Problem, &Options) -> Result<Book, AllocError>>(
    searcher: &F,
    alloc: Global,
    aim: &mut Aim<'_>,
    bounds: &mut Bounds,
    between: Between,
) -> Result<Option<Ending>, AllocError>
    requires takes { (a p o : _) → IsWithinLimits p.now o.now → F.pre searcher.now a p o }
    requires gives { (a p o r : _) → F.post searcher.now a p o r →
        IfOk r (IsBookOf p.now o.now) }
    requires ready { IsReady aim.old }
    requires bounds { AreBoundsOf aim.old bounds.old }
    requires phase { bounds.old.phase ≡ phase.Probing }
    requires budget { 0 < bounds.old.budget }
    requires far { AreFar (span_of aim.old.gap_bits bounds.old) }
    requires between { span_in between ≡ span_of aim.old.gap_bits bounds.old }
    requires gap { between.gap_bits ≤ 30 }
    ensures ready { IsReady aim.new }
    ensures same { IsSameAim aim.old aim.new }
    ensures bounds { AreBoundsOf aim.old bounds.new }
    ensures ending { IfOk result (IsEndingAt aim.old bounds.new) }
    ensures less { IfOk result (λ e. e ≡ None → weight bounds.new < weight bounds.old) }
{
    let from = Between {
        lower: probe_from(between.lower, bounds.tried, between.upper),
        ..between
    };
    let Some(limited) = next_limit(alloc, aim.problem, aim.goal, Phase::Probing, from)? else {
        bounds.phase = Phase::Closing;
        return Ok(None);
    };
    let book = search_limited(searcher, alloc, aim, bounds, &limited)?;
    take_book(alloc, aim, bounds, limited, book)
}

// One more search, unless the bounds are near, the budget is spent, or there is no limit between them. Each costs one of
// the budget, and what it splits.
fn step<F: Fn(Global, &Problem, &Options) -> Result<Book, AllocError>>(
    searcher: &F,
    alloc: Global,
    aim: &mut Aim<'_>,
    bounds: &mut Bounds,
) -> Result<Option<Ending>, AllocError>
    requires takes { (a p o : _) → IsWithinLimits p.now o.now → F.pre searcher.now a p o }
    requires gives { (a p o r : _) → F.post searcher.now a p o r →
        IfOk r (IsBookOf p.now o.now) }
    requires ready { IsReady aim.old }
    requires bounds { AreBoundsOf aim.old bounds.old }
    ensures ready { IsReady aim.new }
    ensures same { IsSameAim aim.old aim.new }
    ensures bounds { AreBoundsOf aim.old bounds.new }
    ensures ending { IfOk result (IsEndingAt aim.old bounds.new) }
    ensures less { IfOk result (λ e. e ≡ None → weight bounds.new < weight bounds.old) }
{
    let between = Between {
        lower: bounds.lower.bound(),
        upper: bounds.upper,
        gap_bits: aim.gap_bits,
    };
    if is_settled(between.lower, between.upper, between.gap_bits) {
        return Ok(Some(Ending::Minimum));
    }
    if bounds.budget == 0 {
        return Ok(Some(Ending::Budget));
    }
    let phase = bounds.phase;
    match phase {
        Phase::Probing => probe(searcher, alloc, aim, bounds, between),
        Phase::Closing | Phase::Halving => {
            let Some(limited) = next_limit(alloc, aim.problem, aim.goal, phase, between)? else {
                return Ok(Some(Ending::Limit));
            };
            let book = search_limited(searcher, alloc, aim, bounds, &limited)?;
            take_book(alloc, aim, bounds, limited, book)
        }
    }
}

// Search after search.
fn improve<F: Fn(Global, &Problem, &Options) -> Result<Book, AllocError>>(
    searcher: &F,
    alloc: Global,
    aim: &mut Aim<'_>,
    bounds: &mut Bounds,
) -> Result<Ending, AllocError>
    requires takes { (a p o : _) → IsWithinLimits p.now o.now → F.pre searcher.now a p o }
    requires gives { (a p o r : _) → F.post searcher.now a p o r →
        IfOk r (IsBookOf p.now o.now) }
    requires ready { IsReady aim.old }
    requires bounds { AreBoundsOf aim.old bounds.old }
    ensures bounds { AreBoundsOf aim.old bounds.new }
    ensures ending { IfOk result (λ e. IsEndingAt aim.old bounds.new (Some e)) }
{
    loop {
        if let Some(ending) = step(searcher, alloc, aim, bounds)? {
            return Ok(ending);
        }
    }
}

// The bounds of a goal, from a point on.
fn bounds_of(
    alloc: Global,
    aim: &mut Aim<'_>,
    point: &Point,
    budget: u32,
    version: u32,
) -> Result<Bounds, AllocError>
    requires ready { IsReady aim.old }
    requires shown { IsShownFor aim.old point.now }
    requires begins { BeginsFor aim.old point.now budget }
    requires version { IsSearchVersion version }
    requires crossed { is_crossed_box (problem_of aim.old.problem.now) ≡ false }
    ensures ready { IsReady aim.new }
    ensures same { IsSameAim aim.old aim.new }
    ensures bounds { IfOk result (AreBoundsOf aim.old) }
{
    let lower = Lower::Root(aim.root_bound(alloc)?);
    let upper = aim.upper(point.space());
    Ok(Bounds {
        lower,
        point: point.try_clone(alloc)?,
        upper,
        budget,
        phase: Phase::Probing,
        tried: None,
        patience: PROBE,
        version,
    })
}

// Better points near the first one, unless that search spent the budget: then no search follows, and the point stays as it was
// found.
fn begin_low(alloc: Global, aim: &mut Aim<'_>, bounds: &mut Bounds) -> Result<(), AllocError>
    requires ready { IsReady aim.old }
    requires bounds { AreBoundsOf aim.old bounds.old }
    ensures ready { IsReady aim.new }
    ensures same { IsSameAim aim.old aim.new }
    ensures bounds { AreBoundsOf aim.old bounds.new }
{
    if 0 < bounds.budget {
        return go_down(alloc, aim, bounds);
    }
    Ok(())
}

// Better and better bounds, from a point of the first search and the rest of the budget on.
fn find<F: Fn(Global, &Problem, &Options) -> Result<Book, AllocError>>(
    searcher: &F,
    alloc: Global,
    aim: &mut Aim<'_>,
    point: &Point,
    budget: u32,
    version: u32,
) -> Result<Found, AllocError>
    requires takes { (a p o : _) → IsWithinLimits p.now o.now → F.pre searcher.now a p o }
    requires gives { (a p o r : _) → F.post searcher.now a p o r →
        IfOk r (IsBookOf p.now o.now) }
    requires ready { IsReady aim.old }
    requires shown { IsShownFor aim.old point.now }
    requires begins { BeginsFor aim.old point.now budget }
    requires version { IsSearchVersion version }
    requires crossed { is_crossed_box (problem_of aim.old.problem.now) ≡ false }
    ensures { let a = aim.old in
        IfOk result (IsFound a.problem.now a.goal a.gap_bits a.options.now) }
{
    let mut bounds = bounds_of(alloc, aim, point, budget, version)?;
    begin_low(alloc, aim, &mut bounds)?;
    let ending = improve(searcher, alloc, aim, &mut bounds)?;
    Ok(Found {
        lower: bounds.lower,
        point: bounds.point,
        upper: bounds.upper,
        ending,
        version: bounds.version,
    })
}

/// Searches for the least value of the goal, the term of atom `goal`, until the bounds are within `2^-gap_bits`, the budget
/// of the options, which is that of all searches together, is spent, or no search helps any more. Each search but the first
/// costs one of the budget beside what it splits. The searcher is called with a problem and options, and gives a book of
/// them with an answer, in the version of the options or in version 5, in which all later searches begin then.
pub fn minimize<F: Fn(Global, &Problem, &Options) -> Result<Book, AllocError>>(
    searcher: &F,
    alloc: Global,
    problem: &Problem,
    goal: u32,
    gap_bits: u32,
    options: &Options,
) -> Result<Least, AllocError>
    requires takes { (a p o : _) → IsWithinLimits p.now o.now → F.pre searcher.now a p o }
    requires gives { (a p o r : _) → F.post searcher.now a p o r →
        IfOk r (IsBookOf p.now o.now) }
    requires goal { goal < length problem.now.atoms }
    requires gap { gap_bits ≤ 30 }
    requires within { IsWithinLimits problem.now options.now }
    ensures { IfOk result (IsLeast problem.now goal gap_bits options.now) }
{
    let book = searcher(alloc, problem, options)?;
    let Some(point) = book.point() else {
        return Ok(Least::NoPoint(book));
    };
    let budget = options.budget - book.branches();
    let version = book.options().version;
    let mut aim = Aim::new(alloc, problem, goal, gap_bits, options)?;
    Ok(Least::Found(find(searcher, alloc, &mut aim, point, budget, version)?))
}
