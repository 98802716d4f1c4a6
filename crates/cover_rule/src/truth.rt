// Whether the form may hold at a state, and whether it surely does at the middle.
ghost use Rattle.std.specs.Prelude.{◌≡◌, ◌≤◌, ◌&&◌, not, length, vec_len};
ghost use Rattle.dyadic.specs.Rounding.{two_to_minus};
ghost use Rattle.cover_model.specs.State.{may, sure_within};
ghost use Rattle.interval_model.specs.Space.{middle as middle_space};
ghost use Rattle.cover_model.specs.Honest.{not_shown};
ghost use Rattle.poly_graph.specs.ProblemViews.{problem_of};
ghost use Rattle.cover_model.specs.Fits.{FitsProblem};
ghost use Rattle.cover_model.specs.Narrowed.{enclosures};
ghost use Rattle.ival.specs.RowViews.{rows_of};
ghost use Rattle.ival.specs.SpaceViews.{space_of};
ghost use Rattle.cover_data.specs.Margins.{AreMargins, loosenings_of};
ghost use Rattle.cover_rule.specs.Serves.{HasCentre, IsCentre, HasRowsOf, sure_at_middle};

use crate::facts::problem_is_whole;
use crate::workspace::{Centre, Workspace};
use cover_data::{Margins, State};
use form_truth::{Marks, may, sure};
use hc4::{fill, follow};
use ival::{Rows, Space};
use poly_graph::Problem;

/// Whether the form may hold at the state.
pub fn may_hold(problem: &Problem, margins: &Margins, state: &State, work: &mut Workspace) -> bool
    requires margins { AreMargins margins.now }
    requires state { FitsProblem (problem_of problem.now) state.now }
    requires work { HasRowsOf problem.now margins.now state.now.space work.old }
    ensures truth { result ≡ may (problem_of problem.now) (loosenings_of margins.now) state.now }
    ensures work { HasRowsOf problem.now margins.now state.now.space work.new }
    ensures spare { work.new.spare ≡ work.old.spare }
{
    problem_is_whole(problem);
    may(
        problem,
        &work.rows,
        state.space(),
        state.lits(),
        margins.margin_bits,
        &mut work.marks,
    )
}

/// Whether the form surely holds at the middle of the space, each atom loosened by 2 to the power of minus
/// `delta`. There are as many axes of `middle` as of the space, as many rows as nodes, and a mark for each node
/// of the form; afterwards `middle` is the middle and the rows are its enclosures.
pub fn midpoint_sure(
    problem: &Problem,
    space: &Space,
    delta: u32,
    middle: &mut Space,
    rows: &mut Rows,
    marks: &mut Marks,
) -> bool
    requires delta { delta ≤ 120 }
    requires middle { length (space_of middle.old) ≡ length (space_of space.now) }
    requires rows { length (rows_of rows.old) ≡ length problem.now.nodes }
    requires marks { vec_len marks.old.truths ≡ length problem.now.forms }
    ensures sure { let point = middle_space (space_of space.now) in
        result ≡ sure_within (problem_of problem.now) (two_to_minus delta) point }
    ensures middle { space_of middle.new ≡ middle_space (space_of space.now) }
    ensures rows { rows_of rows.new ≡
        enclosures (middle_space (space_of space.now)) problem.now.nodes }
    ensures marks { vec_len marks.new.truths ≡ length problem.now.forms }
{
    space.middle(middle);
    fill(problem.graph(), middle, rows);
    sure(problem, rows, middle, delta, marks)
}

/// Makes the middle of the space and its enclosures known; they follow those over an earlier middle, where there are
/// some.
pub fn find_centre(problem: &Problem, space: &Space, centre: &mut Centre)
    requires space { length (space_of space.now) ≡ length problem.now.axes }
    requires centre { HasCentre problem.now (space_of space.now) centre.old }
    ensures centre { HasCentre problem.now (space_of space.now) centre.new }
    ensures is { IsCentre problem.now (space_of space.now) centre.new }
{
    if centre.known {
        return;
    }
    space.middle(&mut centre.middle);
    if centre.filled {
        follow(problem.graph(), &centre.middle, &mut centre.rows);
    } else {
        fill(problem.graph(), &centre.middle, &mut centre.rows);
    }
    centre.filled = true;
    centre.known = true;
}

/// Whether the form surely holds at the middle of the state's space; it is tried only where that is not known.
pub fn is_sure_at_middle(
    problem: &Problem,
    margins: &Margins,
    state: &State,
    work: &mut Workspace,
) -> bool
    requires margins { AreMargins margins.now }
    requires state { FitsProblem (problem_of problem.now) state.now }
    requires work { HasRowsOf problem.now margins.now state.now.space work.old }
    ensures truth { result ≡ sure_at_middle problem.now margins.now state.now.space }
    ensures work { HasRowsOf problem.now margins.now state.now.space work.new }
    ensures spare { work.new.spare ≡ work.old.spare }
{
    if work.unsure {
        return false;
    }
    problem_is_whole(problem);
    find_centre(problem, state.space(), &mut work.centre);
    let is_sure = sure(
        problem,
        &work.centre.rows,
        &work.centre.middle,
        margins.delta_bits,
        &mut work.marks,
    );
    work.unsure = !is_sure;
    is_sure
}

/// Whether the form may hold at the state, and does not surely hold at the middle.
pub fn is_not_shown(
    problem: &Problem,
    margins: &Margins,
    state: &State,
    work: &mut Workspace,
) -> bool
    requires margins { AreMargins margins.now }
    requires state { FitsProblem (problem_of problem.now) state.now }
    requires work { HasRowsOf problem.now margins.now state.now.space work.old }
    ensures truth { result ≡
        not_shown (problem_of problem.now) (loosenings_of margins.now) state.now }
    ensures work { HasRowsOf problem.now margins.now state.now.space work.new }
    ensures spare { work.new.spare ≡ work.old.spare }
{
    may_hold(problem, margins, state, work) && !is_sure_at_middle(problem, margins, state, work)
}
