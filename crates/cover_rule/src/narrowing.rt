// Narrowing, and rows that follow it.
ghost use Rattle.std.specs.Prelude.{◌≡◌, ◌≢◌, ℕ, ◌<◌, not, true, false, length, vec_len, slice_set, slice_index_or, IsTrue};
ghost use Rattle.poly_graph.specs.ProblemViews.{problem_of};
ghost use Rattle.poly_graph.specs.Problem.{atom_at};
ghost use Rattle.cover_model.specs.Fits.{FitsProblem};
ghost use Rattle.cover_model.specs.State.{with_space};
ghost use Rattle.cover_model.specs.Rules.{in_no_one_sided};
ghost use Rattle.cover_model.specs.Honest.{none_empty};
ghost use Rattle.ival.specs.RowViews.{marks_of, is_marked};
ghost use Rattle.ival.specs.SpaceViews.{space_of, domain_of};
ghost use Rattle.ival.specs.Narrows.{IsNarrowed};
ghost use Rattle.cover_data.specs.Margins.{AreMargins, loosenings_of};
ghost use Rattle.cover_rule.specs.Calls.{narrowing_at, narrowing_off_at};
ghost use Rattle.cover_rule.specs.Serves.{HasRowsOf, IsReady, IsNumbered, leaves_some};

use crate::narrower::{Narrower, leaves_nothing};
use crate::workspace::Workspace;
use cover_data::{Margins, State};
use cover_model::is_one_sided;
use hc4::{follow, narrow, narrow_off};
use ival::{Domain, Narrowed, Rows, Space};
use poly_graph::Problem;
use std::alloc::Global;

/// Puts the domains of a space into another one, which has as many axes.
pub fn copy_space(from: &Space, into: &mut Space)
    requires { length (space_of from.now) ≡ length (space_of into.old) }
    ensures { space_of into.new ≡ space_of from.now }
{
    for axis in 0..from.len() {
        into.set(axis, from.get(axis));
    }
}

// Whether these are the same; where it says no they may be.
fn is_same(domain: Domain, other: Domain) -> bool
    ensures { IsTrue result → domain_of domain ≡ domain_of other }
{
    domain == other
}

// Takes each flag away.
fn clear(flags: &mut [bool])
    ensures none { (j : ℕ) → slice_index_or flags.new j false ≡ false }
{
    for flag in flags.iter_mut() {
        *flag = false;
    }
}

/// Takes it that nothing is known of the present space, nor of its middle.
pub fn forget(work: &mut Workspace)
    ensures leaves { vec_len work.new.leaves ≡ vec_len work.old.leaves }
    ensures none { (j : ℕ) → slice_index_or work.new.leaves.items j false ≡ false }
    ensures unsure { work.new.unsure ≡ false }
    ensures rows { work.new.rows ≡ work.old.rows }
    ensures scratch { work.new.scratch ≡ work.old.scratch }
    ensures marks { work.new.marks ≡ work.old.marks }
    ensures spare { work.new.spare ≡ work.old.spare }
    ensures middle { work.new.centre.middle ≡ work.old.centre.middle }
    ensures centre_rows { work.new.centre.rows ≡ work.old.centre.rows }
    ensures filled { work.new.centre.filled ≡ work.old.centre.filled }
    ensures centre { work.new.centre.known ≡ false }
    ensures room { work.new.room ≡ work.old.room }
    ensures voiding { work.new.voiding.known ≡ false }
{
    clear(&mut work.leaves);
    work.unsure = false;
    work.centre.known = false;
    work.voiding.known = false;
}

// Whether the row of atom j's term is marked.
fn is_reached(problem: &Problem, rows: &Rows, j: usize) -> bool
    requires { j < length problem.now.atoms }
    ensures { result ≡ false →
        is_marked (marks_of rows.now) (atom_at (problem_of problem.now) j).0 ≡ false }
{
    let place = problem.atoms()[j].term as usize;
    place >= rows.len() || rows.marked(place)
}

// Takes away the flags of atoms whose term's row is marked.
fn drop_reached(problem: &Problem, rows: &Rows, leaves: &mut Vec<bool, Global>)
    requires { vec_len leaves.old ≡ length problem.now.atoms }
    ensures count { vec_len leaves.new ≡ vec_len leaves.old }
    ensures kept { (j : ℕ) → slice_index_or leaves.new.items j false ≡ true →
        slice_index_or leaves.old.items j false ≡ true }
    ensures unmarked { (j : ℕ) → j < length problem.now.atoms →
        slice_index_or leaves.new.items j false ≡ true →
        is_marked (marks_of rows.now) (atom_at (problem_of problem.now) j).0 ≡ false }
{
    for j in 0..problem.atoms().len() {
        if is_reached(problem, rows, j) {
            leaves[j] = false;
        }
    }
}

// Leaves a domain to the axis, and tells whether that is a change.
fn set_axis(axis: usize, domain: Domain, state: &mut State) -> bool
    requires { axis < length state.old.space }
    ensures state { state.new ≡
        with_space state.old (slice_set state.old.space axis (domain_of domain)) }
    ensures same { result ≡ false → state.new ≡ state.old }
{
    if is_same(state.space().get(axis), domain) {
        return false;
    }
    state.set_axis(axis, domain);
    true
}

// Leaves to each axis what the space leaves to it, and tells whether that is a change.
fn set_axes(space: &Space, state: &mut State) -> bool
    requires { length (space_of space.now) ≡ length state.old.space }
    ensures state { state.new ≡ with_space state.old (space_of space.now) }
    ensures same { result ≡ false → state.new ≡ state.old }
{
    let mut is_changed = false;
    for axis in 0..space.len() {
        if set_axis(axis, space.get(axis), state) {
            is_changed = true;
        }
    }
    is_changed
}

/// Takes over the spare space, and renews the rows where that is a change: then nothing more is known of atoms from
/// which a changed axis is reached, nor of the middle, nor of a combination.
pub fn adopt_spare(problem: &Problem, margins: &Margins, state: &mut State, work: &mut Workspace)
    requires work { HasRowsOf problem.now margins.now state.old.space work.old }
    requires spare { length (space_of work.old.spare) ≡ length state.old.space }
    ensures state { state.new ≡ with_space state.old (space_of work.old.spare) }
    ensures work { IsReady problem.now margins.now state.new.space work.new }
{
    if !set_axes(&work.spare, state) {
        return;
    }
    follow(problem.graph(), state.space(), &mut work.rows);
    drop_reached(problem, &work.rows, &mut work.leaves);
    work.unsure = false;
    work.centre.known = false;
    work.voiding.known = false;
}

// Narrows the spare space, a copy of the state's, by atom j.
fn narrow_by(
    problem: &Problem,
    margins: &Margins,
    state: &State,
    j: u32,
    work: &mut Workspace,
) -> Narrowed
    requires margins { AreMargins margins.now }
    requires atom { j < length problem.now.atoms }
    requires work { IsReady problem.now margins.now state.now.space work.old }
    ensures narrowed { let narrow = narrowing_at problem.now margins.now state.now j in
        IsNarrowed state.now.space (space_of work.new.spare) narrow result }
    ensures work { HasRowsOf problem.now margins.now state.now.space work.new }
{
    let atom = problem.atoms()[j as usize];
    narrow(
        problem.graph(),
        &atom,
        margins.margin_bits,
        &work.rows,
        &mut work.scratch,
        &mut work.spare,
    )
}

// Notes of atom j that narrowing by it leaves something, where it does.
fn note(narrowed: Narrowed, j: u32, leaves: &mut Vec<bool, Global>)
    requires { j < vec_len leaves.old }
    ensures none { narrowed ≡ Narrowed.Empty → leaves.new.items ≡ leaves.old.items }
    ensures some { narrowed ≢ Narrowed.Empty →
        leaves.new.items ≡ slice_set leaves.old.items j true }
    ensures count { vec_len leaves.new ≡ vec_len leaves.old }
{
    match narrowed {
        Narrowed::Empty => {}
        Narrowed::Same | Narrowed::Less => leaves[j as usize] = true,
    }
}

/// Narrows the spare space, a copy of the state's, by atom j, and notes where that leaves something.
pub fn narrow_spare(
    problem: &Problem,
    margins: &Margins,
    state: &State,
    j: u32,
    work: &mut Workspace,
) -> Narrowed
    requires margins { AreMargins margins.now }
    requires atom { j < length problem.now.atoms }
    requires work { IsReady problem.now margins.now state.now.space work.old }
    ensures narrowed { let narrow = narrowing_at problem.now margins.now state.now j in
        IsNarrowed state.now.space (space_of work.new.spare) narrow result }
    ensures work { HasRowsOf problem.now margins.now state.now.space work.new }
{
    let narrowed = narrow_by(problem, margins, state, j, work);
    note(narrowed, j, &mut work.leaves);
    narrowed
}

/// Whether atom j is marked no and is an inequality.
pub fn is_no_one_sided(problem: &Problem, state: &State, j: u32) -> bool
    requires atom { j < length problem.now.atoms }
    requires marks { j < length state.now.marks }
    ensures { result ≡ in_no_one_sided (problem_of problem.now) state.now j }
{
    let atom = problem.atoms()[j as usize];
    state.is_no(j) && is_one_sided(atom.kind)
}

/// Narrows the spare space, a copy of the state's, by the off-range of atom j.
pub fn narrow_off_spare(
    problem: &Problem,
    margins: &Margins,
    state: &State,
    j: u32,
    work: &mut Workspace,
) -> Narrowed
    requires margins { AreMargins margins.now }
    requires atom { j < length problem.now.atoms }
    requires work { IsReady problem.now margins.now state.now.space work.old }
    ensures narrowed { let narrow = narrowing_off_at problem.now margins.now state.now j in
        IsNarrowed state.now.space (space_of work.new.spare) narrow result }
    ensures work { HasRowsOf problem.now margins.now state.now.space work.new }
{
    let atom = problem.atoms()[j as usize];
    narrow_off(
        problem.graph(),
        &atom,
        margins.margin_bits,
        &work.rows,
        &mut work.scratch,
        &mut work.spare,
    )
}

// Whether narrowing by atom j leaves something; it is tried only where that is not known.
fn leaves_some(
    problem: &Problem,
    margins: &Margins,
    state: &State,
    j: u32,
    work: &mut Workspace,
) -> bool
    requires margins { AreMargins margins.now }
    requires state { FitsProblem (problem_of problem.now) state.now }
    requires atom { j < length problem.now.atoms }
    requires work { IsReady problem.now margins.now state.now.space work.old }
    ensures some { result ≡ leaves_some problem.now margins.now state.now.space j }
    ensures work { IsReady problem.now margins.now state.now.space work.new }
{
    let by = Narrower::Pull(j);
    work.leaves[j as usize] || !leaves_nothing(problem, margins, state, by, work)
}

/// Whether narrowing by no atom that is marked yes leaves nothing.
pub fn none_leaves_nothing(
    problem: &Problem,
    margins: &Margins,
    state: &State,
    work: &mut Workspace,
) -> bool
    requires margins { AreMargins margins.now }
    requires numbered { IsNumbered problem.now }
    requires state { FitsProblem (problem_of problem.now) state.now }
    requires work { IsReady problem.now margins.now state.now.space work.old }
    ensures none { result ≡
        none_empty (problem_of problem.now) (loosenings_of margins.now) state.now }
    ensures work { IsReady problem.now margins.now state.now.space work.new }
{
    for j in 0..state.lits().len() {
        let j = j as u32;
        if state.is_yes(j) && !leaves_some(problem, margins, state, j, work) {
            return false;
        }
    }
    true
}
