// Ends of a patch that part its state or leave it, over its parts.
ghost use Rattle.std.specs.Prelude.{◌≡◌, ◌<◌, ℕ, length, not, ◌&&◌, IsTrue, IsNone, IfSome, None};
ghost use Rattle.poly_graph.specs.ProblemViews.{problem_of};
ghost use Rattle.cover_model.specs.Fits.{FitsProblem};
ghost use Rattle.cover_model.specs.State.{misses, margin_of, undecided};
ghost use Rattle.cover_model.specs.Rules.{flip, case, stuck};
ghost use Rattle.interval_model.specs.Space.{is_undecided, test_axis};
ghost use Rattle.cover_model.specs.Honest.{is_honest, may_be_cut};
ghost use Rattle.dyadic.specs.Views.{dyadic_of};
ghost use Rattle.ival.specs.SpaceViews.{space_of, domain_of};
ghost use Rattle.cover_data.specs.Margins.{AreMargins, loosenings_of};
ghost use Rattle.cover_rule.specs.Serves.{HasRowsOf, IsReady, IsNumbered};
ghost use Rattle.cover_rule.specs.Refusals.{FlipEnd, CaseEnd, StuckEnd, CutEnd, cut_line, is_decided, is_widest};
ghost use Rattle.cover_rule.specs.Parting.{is_due_at, HasHalves};
ghost use Rattle.cover_data.specs.Views.{kept_of};
ghost use Rattle.cover_rule.specs.Held.{IsHeld, patch_of};

use crate::ends::end_by;
use crate::facts::problem_is_whole;
use crate::refusal::PatchRefusal;
use crate::small::{can_be_halved, has_small_side, is_small};
use crate::steps::may_without;
use crate::stuck::{is_settled, is_stuck_atom, none_stuck_below};
use crate::truth::is_not_shown;
use crate::workspace::Workspace;
use cover_data::{End, KeptPatch, Margins, State};
use cover_line::Branching;
use dyadic::mid;
use form_truth::may_atom;
use ival::{Domain, Range, Space, Truths};
use poly_graph::Problem;

/// Whether nothing is left to do at the state but to part it.
pub fn is_due(problem: &Problem, margins: &Margins, state: &State, work: &mut Workspace) -> bool
    requires margins { AreMargins margins.now }
    requires numbered { IsNumbered problem.now }
    requires state { FitsProblem (problem_of problem.now) state.now }
    requires work { IsReady problem.now margins.now state.now.space work.old }
    ensures due { result ≡ is_due_at problem.now margins.now state.now }
    ensures work { IsReady problem.now margins.now state.now.space work.new }
{
    is_not_shown(problem, margins, state, work) && is_settled(problem, margins, state, work)
}

// Whether a Bool has one value left.
fn has_one_value(domain: Domain) -> bool
    ensures { result ≡ is_decided (domain_of domain) }
{
    match domain {
        Domain::Real(_) => false,
        Domain::Bool(Truths::Either) => false,
        Domain::Bool(Truths::False) => true,
        Domain::Bool(Truths::True) => true,
    }
}

// Whether a Bool has both values left.
fn has_both_values(domain: Domain) -> bool
    ensures { result ≡ is_undecided (domain_of domain) }
{
    match domain {
        Domain::Real(_) => false,
        Domain::Bool(Truths::Either) => true,
        Domain::Bool(Truths::False) => false,
        Domain::Bool(Truths::True) => false,
    }
}

// Whether the axis is a Bool that is decided.
fn is_decided_axis(state: &State, axis: u32) -> bool
    requires { axis < length state.now.space }
    ensures { result ≡ test_axis is_decided axis state.now.space }
{
    has_one_value(state.space().get(axis as usize))
}

// Whether the axis is a Bool that is not decided.
fn is_undecided_axis(state: &State, axis: u32) -> bool
    requires { axis < length state.now.space }
    ensures { result ≡ test_axis is_undecided axis state.now.space }
{
    has_both_values(state.space().get(axis as usize))
}

/// Ends the patch by parting the Bool axis, which is not decided: false, then true.
pub fn flip(
    problem: &Problem,
    margins: &Margins,
    kept: &mut KeptPatch,
    work: &mut Workspace,
    axis: u32,
) -> Result<(), PatchRefusal>
    requires held { IsHeld problem.now margins.now kept.old work.old }
    requires axis { axis < length problem.now.axes }
    ensures answer { let P = patch_of problem.now margins.now in
        FlipEnd (P kept.old) axis (P kept.new) result }
    ensures reached { kept.new.reached ≡ kept.old.reached }
    ensures ready { IsReady problem.now margins.now kept.old.reached.space work.new }
{
    if kept.end.is_some() {
        return Err(PatchRefusal::Ended);
    }
    if is_decided_axis(&kept.reached, axis) {
        return Err(PatchRefusal::Decided);
    }
    if !is_undecided_axis(&kept.reached, axis) {
        return Err(PatchRefusal::NotInside);
    }
    if !is_due(problem, margins, &kept.reached, work) {
        return Err(PatchRefusal::NotHonest);
    }
    end_by(kept, End::Part(Branching::Flip(axis)));
    Ok(())
}

/// Whether the enclosure of atom j, which is not marked, meets its range.
pub fn meets_range(
    problem: &Problem,
    margins: &Margins,
    state: &State,
    work: &Workspace,
    j: u32,
) -> bool
    requires margins { AreMargins margins.now }
    requires state { FitsProblem (problem_of problem.now) state.now }
    requires small { j < length problem.now.atoms }
    requires atom { IsTrue (undecided state.now j) }
    requires work { HasRowsOf problem.now margins.now state.now.space work.now }
    ensures { let margin = margin_of (loosenings_of margins.now) in
        result ≡ not (misses (problem_of problem.now) margin state.now.space j) }
{
    problem_is_whole(problem);
    let space = state.space();
    may_atom(
        problem,
        &work.rows,
        space,
        state.lits(),
        margins.margin_bits,
        j,
    )
}

// Whether it is honest to part the state at atom j, which is not marked.
fn is_case_due(
    problem: &Problem,
    margins: &Margins,
    state: &mut State,
    work: &mut Workspace,
    j: u32,
) -> bool
    requires margins { AreMargins margins.now }
    requires numbered { IsNumbered problem.now }
    requires state { FitsProblem (problem_of problem.now) state.old }
    requires small { j < length problem.now.atoms }
    requires atom { IsTrue (undecided state.old j) }
    requires work { IsReady problem.now margins.now state.old.space work.old }
    ensures honest { let s = loosenings_of margins.now in
        result ≡ is_honest (problem_of problem.now) margins.now.least_bits s state.old (case j) }
    ensures state { state.new ≡ state.old }
    ensures work { IsReady problem.now margins.now state.old.space work.new }
{
    if !is_due(problem, margins, state, work) {
        return false;
    }
    if !may_without(problem, margins, state, work, j) {
        return false;
    }
    meets_range(problem, margins, state, work, j)
}

/// Ends the patch by parting the state at atom j, which is not marked: yes, then no.
pub fn case(
    problem: &Problem,
    margins: &Margins,
    kept: &mut KeptPatch,
    work: &mut Workspace,
    j: u32,
) -> Result<(), PatchRefusal>
    requires held { IsHeld problem.now margins.now kept.old work.old }
    requires atom { j < length problem.now.atoms }
    ensures answer { let P = patch_of problem.now margins.now in
        CaseEnd (P kept.old) j (P kept.new) result }
    ensures reached { kept.new.reached ≡ kept.old.reached }
    ensures ready { IsReady problem.now margins.now kept.old.reached.space work.new }
{
    if kept.end.is_some() {
        return Err(PatchRefusal::Ended);
    }
    if !kept.reached.is_undecided(j) {
        return Err(PatchRefusal::Decided);
    }
    if !is_case_due(problem, margins, &mut kept.reached, work, j) {
        return Err(PatchRefusal::NotHonest);
    }
    end_by(kept, End::Part(Branching::Case(j)));
    Ok(())
}

/// Ends the patch at a stuck state, whose first stuck atom is j.
pub fn stuck(
    problem: &Problem,
    margins: &Margins,
    kept: &mut KeptPatch,
    work: &mut Workspace,
    j: u32,
) -> Result<(), PatchRefusal>
    requires held { IsHeld problem.now margins.now kept.old work.old }
    requires atom { j < length problem.now.atoms }
    ensures answer { let P = patch_of problem.now margins.now in
        StuckEnd (P kept.old) j (P kept.new) result }
    ensures reached { kept.new.reached ≡ kept.old.reached }
    ensures ready { IsReady problem.now margins.now kept.old.reached.space work.new }
{
    if kept.end.is_some() {
        return Err(PatchRefusal::Ended);
    }
    if !is_stuck_atom(problem, margins, &kept.reached, work, j) {
        return Err(PatchRefusal::NotStuck);
    }
    if !is_small(kept.reached.space(), margins.least_bits) {
        return Err(PatchRefusal::NotStuck);
    }
    if !is_due(problem, margins, &kept.reached, work) {
        return Err(PatchRefusal::NotHonest);
    }
    if !none_stuck_below(problem, margins, &kept.reached, work, j) {
        return Err(PatchRefusal::NotHonest);
    }
    end_by(kept, End::Stuck(j));
    Ok(())
}

// The range of the axis, if it is a Real one that can be halved.
fn halved_range(space: &Space, axis: u32) -> Option<Range>
    ensures none { IsNone result → cut_line axis (space_of space.now) ≡ None }
    ensures found { IfSome result (HasHalves (space_of space.now) axis) }
{
    let axis = axis as usize;
    if axis >= space.len() {
        return None;
    }
    match space.get(axis) {
        Domain::Real(range) => {
            if can_be_halved(range) {
                Some(range)
            } else {
                None
            }
        }
        Domain::Bool(_) => None,
    }
}

// Whether it is the first axis of greatest side among those that can be halved.
fn is_widest(space: &Space, axis: u32) -> bool
    ensures { result ≡ is_widest axis (space_of space.now) }
{
    match space.widest() {
        Some(widest) => axis as usize == widest,
        None => false,
    }
}

// Whether the side of the axis, whose range this is, is above the least width, and it is the widest one where the
// version asks for that.
fn may_be_cut(space: &Space, margins: &Margins, axis: u32, range: Range) -> bool
    requires margins { AreMargins margins.now }
    requires range { HasHalves (space_of space.now) axis range }
    ensures { let s = loosenings_of margins.now in
        result ≡ may_be_cut margins.now.least_bits s axis (space_of space.now) }
{
    if has_small_side(range, margins.least_bits) {
        return false;
    }
    if margins.version >= 5 {
        return true;
    }
    is_widest(space, axis)
}

/// Ends the patch by cutting the axis at its middle.
pub fn cut(
    problem: &Problem,
    margins: &Margins,
    kept: &mut KeptPatch,
    work: &mut Workspace,
    axis: u32,
) -> Result<(), PatchRefusal>
    requires held { IsHeld problem.now margins.now kept.old work.old }
    ensures answer { let P = patch_of problem.now margins.now in
        CutEnd (P kept.old) axis (P kept.new) result }
    ensures reached { kept.new.reached ≡ kept.old.reached }
    ensures ready { IsReady problem.now margins.now kept.old.reached.space work.new }
{
    if kept.end.is_some() {
        return Err(PatchRefusal::Ended);
    }
    let Some(range) = halved_range(kept.reached.space(), axis) else {
        return Err(PatchRefusal::NotInside);
    };
    if !may_be_cut(kept.reached.space(), margins, axis, range) {
        return Err(PatchRefusal::NotHonest);
    }
    if !is_due(problem, margins, &kept.reached, work) {
        return Err(PatchRefusal::NotHonest);
    }
    let cut = Branching::Cut(axis, mid(range.low, range.high));
    end_by(kept, End::Part(cut));
    Ok(())
}
