// What the rules are tested with.
ghost use Rattle.std.specs.Prelude.{◌≡◌, ◌<◌, ◌≤◌, All, length, IfOk};
ghost use Rattle.cover_model.specs.Rules.{is_one_sided};
ghost use Rattle.cover_model.specs.Space.{range};
ghost use Rattle.cover_model.specs.State.{may};
ghost use Rattle.cover_model.specs.Narrowed.{enclosures};
ghost use Rattle.plain_eval.specs.Calls.{IsCombined};
ghost use Rattle.plain_eval.specs.Rows.{AreEnclosures};
ghost use Rattle.poly_graph.specs.Problem.{atom_at};
ghost use Rattle.poly_graph.specs.ProblemViews.{problem_of};
ghost use Rattle.poly_graph.specs.Views.{atom_of};
ghost use Rattle.ival.specs.Views.{interval_of};
ghost use Rattle.ival.specs.RowViews.{rows_of};
ghost use Rattle.ival.specs.SpaceViews.{space_of};
ghost use Rattle.form_truth.specs.Truth.{HasRows, pruning};
ghost use Rattle.cert_check.specs.States.{state_of};
ghost use Rattle.cert_check.specs.Judgements.{enclosure_over, is_sure_atom_over, is_sure_over, IsNarrowedByAtom, IsNarrowedOff, misses_over};
ghost use Rattle.cert_check.specs.Serving.{Serves};

use crate::centre::Centre;
use crate::form::may_hold;
use crate::judged::Judged;
use crate::state::State;
use cover_model::is_one_sided;
use dyadic::Dy;
use form_truth::{Marks, kind_range, sure};
use ival::{Ival, Narrowed, Rows, Space};
use plain_eval::{Upward, enclose, follow, narrow_enclosed, narrow_off_enclosed};
use poly_graph::{Atom, Graph, Lits, Problem};
use std::alloc::{AllocError, Global};

/// Rows and truth values for the nodes of a problem, made once. The rows are the enclosures over the space that was
/// looked at last, and the atoms are judged by them, so that a line costs what stands above the axes that changed
/// since.
#[derive(Drop)]
pub struct Tools {
    pub upward: Upward,
    pub rows: Rows,
    pub scratch: Rows,
    pub centre: Centre,
    pub judged: Judged,
    pub marks: Marks,
}

/// The atom of this number.
pub fn atom_at(problem: &Problem, j: u32) -> Atom
    requires { j < length problem.now.atoms }
    ensures atom { atom_of result ≡ atom_at (problem_of problem.now) j }
    ensures place { result.term < length problem.now.nodes }
{
    let atoms = problem.atoms();
    atoms[j as usize]
}

/// Whether the atom is an inequality.
pub fn is_inequality(problem: &Problem, j: u32) -> bool
    requires atom { j < length problem.now.atoms }
    ensures { result ≡ is_one_sided (atom_at (problem_of problem.now) j).1 }
{
    is_one_sided(atom_at(problem, j).kind)
}

// Rows to begin with: the enclosures over a space without axes.
fn first_rows(alloc: Global, graph: &Graph) -> Result<Rows, AllocError>
    ensures { IfOk result (λ r. AreEnclosures graph.now (rows_of r)) }
{
    let nodes = graph.len();
    let mut rows = Rows::new(alloc, nodes)?;
    let space = Space::with_capacity(alloc, 0)?;
    if nodes > 0 {
        let _ = enclose(graph, (nodes - 1) as u32, &space, &mut rows);
    }
    Ok(rows)
}

impl Tools {
    /// Those that serve the problem.
    pub fn new(alloc: Global, problem: &Problem) -> Result<Tools, AllocError>
        ensures { IfOk result (Serves problem.now) }
    {
        let graph = problem.graph();
        let upward = Upward::new(alloc, graph)?;
        let rows = first_rows(alloc, graph)?;
        let scratch = Rows::new(alloc, graph.len())?;
        let centre = Centre::new(alloc, problem, first_rows(alloc, graph)?)?;
        let judged = Judged::new(alloc, problem, &rows)?;
        let marks = Marks::new(alloc, problem)?;
        Ok(Tools {
            upward,
            rows,
            scratch,
            centre,
            judged,
            marks,
        })
    }

    // Lets the rows follow to the space, and judges again the atoms whose rows changed.
    fn follow(&mut self, problem: &Problem, space: &Space)
        requires { Serves problem.now self.old }
        ensures all { rows_of self.new.rows ≡ enclosures (space_of space.now) problem.now.nodes }
        ensures rows { HasRows problem.now (space_of space.now) (rows_of self.new.rows) }
        ensures serves { Serves problem.now self.new }
    {
        follow(problem.graph(), &self.upward, space, &mut self.rows);
        self.judged.renew(problem, &self.rows);
    }

    /// Whether the form may hold at a point of the state.
    pub fn may(&mut self, problem: &Problem, margin: u32, state: &State) -> bool
        requires serves { Serves problem.now self.old }
        requires margin { margin ≤ 120 }
        requires atoms { length state.now.lits ≡ length problem.now.atoms }
        ensures truth { result
            ≡ may (problem_of problem.now) (pruning margin) (state_of state.now) }
        ensures serves { Serves problem.now self.new }
    {
        self.follow(problem, &state.space);
        self.judged.judge_at(problem, margin, &self.rows);
        may_hold(
            problem,
            &state.space,
            &state.lits,
            &self.judged,
            &mut self.marks,
        )
    }

    /// Whether the form surely holds at each point of the space.
    pub fn sure(&mut self, problem: &Problem, delta: u32, space: &Space) -> bool
        requires serves { Serves problem.now self.old }
        requires delta { delta ≤ 120 }
        ensures truth { result ≡ is_sure_over problem.now delta space.now }
        ensures serves { Serves problem.now self.new }
    {
        self.follow(problem, space);
        sure(problem, &self.rows, space, delta, &mut self.marks)
    }

    // The enclosure of an atom's term over the space.
    fn enclosure(&mut self, problem: &Problem, j: u32, space: &Space) -> Ival
        requires serves { Serves problem.now self.old }
        requires atom { j < length problem.now.atoms }
        ensures interval { interval_of result ≡ enclosure_over problem.now j space.now }
        ensures serves { Serves problem.now self.new }
    {
        let atom = atom_at(problem, j);
        self.follow(problem, space);
        self.rows.get(atom.term as usize)
    }

    /// Whether the atom's enclosure misses its range at the margin.
    pub fn misses(&mut self, problem: &Problem, margin: u32, j: u32, space: &Space) -> bool
        requires serves { Serves problem.now self.old }
        requires margin { margin ≤ 120 }
        requires atom { j < length problem.now.atoms }
        ensures misses { result ≡ misses_over problem.now margin j space.now }
        ensures serves { Serves problem.now self.new }
    {
        let range = kind_range(atom_at(problem, j).kind, margin);
        self.enclosure(problem, j, space).meet(range).is_empty()
    }

    /// Whether the atom's enclosure lies within its range at delta.
    pub fn sure_at(&mut self, problem: &Problem, delta: u32, j: u32, space: &Space) -> bool
        requires serves { Serves problem.now self.old }
        requires delta { delta ≤ 120 }
        requires atom { j < length problem.now.atoms }
        ensures sure { result ≡ is_sure_atom_over problem.now delta j space.now }
        ensures serves { Serves problem.now self.new }
    {
        let range = kind_range(atom_at(problem, j).kind, delta);
        self.enclosure(problem, j, space).within(range)
    }

    /// Leaves of the space what the atom leaves of it.
    pub fn narrow(&mut self, problem: &Problem, margin: u32, j: u32, space: &mut Space) -> Narrowed
        requires serves { Serves problem.now self.old }
        requires margin { margin ≤ 120 }
        requires atom { j < length problem.now.atoms }
        ensures narrowed { IsNarrowedByAtom problem.now margin j space.old space.new result }
        ensures serves { Serves problem.now self.new }
    {
        let atom = atom_at(problem, j);
        self.follow(problem, space);
        narrow_enclosed(
            problem.graph(),
            &atom,
            margin,
            &self.rows,
            &mut self.scratch,
            space,
        )
    }

    /// Leaves of the space what the off-range of the atom leaves of it.
    pub fn narrow_off(
        &mut self,
        problem: &Problem,
        margin: u32,
        j: u32,
        space: &mut Space,
    ) -> Narrowed
        requires serves { Serves problem.now self.old }
        requires margin { margin ≤ 120 }
        requires atom { j < length problem.now.atoms }
        ensures narrowed { IsNarrowedOff problem.now margin j space.old space.new result }
        ensures serves { Serves problem.now self.new }
    {
        let atom = atom_at(problem, j);
        self.follow(problem, space);
        narrow_off_enclosed(
            problem.graph(),
            &atom,
            margin,
            &self.rows,
            &mut self.scratch,
            space,
        )
    }

    /// Leaves of the space what the combination of marked atoms leaves of it.
    pub fn combine(
        &mut self,
        problem: &Problem,
        margin: u32,
        lits: &Lits,
        pairs: &[(u32, Dy)],
        space: &mut Space,
    ) -> Narrowed
        requires serves { Serves problem.now self.old }
        requires margin { margin ≤ 120 }
        requires lits { length lits.now ≡ length problem.now.atoms }
        requires atoms { All (λ x. x.0 < length problem.now.atoms) pairs.now }
        requires axes { length (space_of space.old) ≡ length problem.now.axes }
        ensures narrowed { IsCombined problem.now margin lits.now pairs.now
            space.old space.new result }
        ensures serves { Serves problem.now self.new }
    {
        self.follow(problem, space);
        self.centre.combine(
            problem,
            &self.upward,
            margin,
            lits,
            pairs,
            &self.rows,
            space,
        )
    }
}
