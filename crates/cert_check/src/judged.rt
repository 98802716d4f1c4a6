// Which atoms' enclosures miss their ranges.
ghost use Rattle.std.specs.Prelude.{◌≡◌, ◌≢◌, ℕ, ◌<◌, ◌≤◌, length, IfOk, false, true, ◌||◌, slice_index_or};
ghost use Rattle.poly_graph.specs.Problem.{atom_at};
ghost use Rattle.poly_graph.specs.ProblemViews.{problem_of};
ghost use Rattle.ival.specs.RowViews.{rows_of, marks_of, is_marked};
ghost use Rattle.cert_check.specs.Judged.{AreJudged, atom_misses, is_missing, row_misses};

use form_truth::kind_range;
use ival::Rows;
use poly_graph::{Atom, Problem};
use std::alloc::{AllocError, Global};

/// For each atom whether its enclosure misses its range at a margin of so many bits.
#[derive(Drop)]
pub struct Judged {
    pub margin: u32,
    pub misses: Vec<bool>,
}

// Whether the row of the atom's term misses its range.
fn is_missed(atom: Atom, margin: u32, rows: &Rows) -> bool
    requires margin { margin ≤ 120 }
    requires place { atom.term < length (rows_of rows.now) }
    ensures { result ≡ atom_misses margin (rows_of rows.now) atom }
{
    let range = kind_range(atom.kind, margin);
    rows.get(atom.term as usize).meet(range).is_empty()
}

// Whether an atom is to be judged again: its row is marked, or all are.
fn is_due(all: bool, atom: Atom, rows: &Rows) -> bool
    requires { atom.term < length (rows_of rows.now) }
    ensures { result ≡ (all || is_marked (marks_of rows.now) atom.term) }
{
    all || rows.marked(atom.term as usize)
}

// Whether the atom misses its range: judged again, if that is due, else as it was.
fn again(all: bool, atom: Atom, margin: u32, rows: &Rows, was: bool) -> bool
    requires margin { margin ≤ 120 }
    requires place { atom.term < length (rows_of rows.now) }
    ensures due { (all || is_marked (marks_of rows.now) atom.term) ≡ true →
        result ≡ atom_misses margin (rows_of rows.now) atom }
    ensures kept { (all || is_marked (marks_of rows.now) atom.term) ≡ false → result ≡ was }
{
    if is_due(all, atom, rows) {
        is_missed(atom, margin, rows)
    } else {
        was
    }
}

// Judges the atoms with marked rows, or all.
fn judge(problem: &Problem, margin: u32, all: bool, rows: &Rows, misses: &mut [bool])
    requires margin { margin ≤ 120 }
    requires rows { length (rows_of rows.now) ≡ length problem.now.nodes }
    requires count { length misses.old ≡ length problem.now.atoms }
    requires others { (j : ℕ) → j < length problem.now.atoms → all ≡ false →
        is_marked (marks_of rows.now) (atom_at (problem_of problem.now) j).0 ≡ false →
        slice_index_or misses.old j false ≡ row_misses problem.now margin (rows_of rows.now) j }
    ensures count { length misses.new ≡ length problem.now.atoms }
    ensures each { (j : ℕ) → j < length problem.now.atoms →
        slice_index_or misses.new j false ≡ row_misses problem.now margin (rows_of rows.now) j }
{
    for j in 0..misses.len() {
        let atom = problem.atoms()[j];
        misses[j] = again(all, atom, margin, rows, misses[j]);
    }
}

impl Judged {
    /// Each atom judged by its row, at the whole margin.
    pub fn new(alloc: Global, problem: &Problem, rows: &Rows) -> Result<Judged, AllocError>
        requires { length (rows_of rows.now) ≡ length problem.now.nodes }
        ensures { IfOk result (AreJudged problem.now (rows_of rows.now)) }
    {
        let mut misses = vec![in alloc; false; problem.atoms().len()]?;
        judge(problem, 0, true, rows, &mut misses);
        Ok(Judged { margin: 0, misses })
    }

    /// Judges again the atoms whose rows are marked, since those may have changed.
    pub fn renew(&mut self, problem: &Problem, rows: &Rows)
        requires margin { self.old.margin ≤ 120 }
        requires rows { length (rows_of rows.now) ≡ length problem.now.nodes }
        requires count { length self.old.misses.items ≡ length problem.now.atoms }
        requires others { (j : ℕ) → j < length problem.now.atoms →
            is_marked (marks_of rows.now) (atom_at (problem_of problem.now) j).0 ≡ false →
            is_missing self.old j ≡ row_misses problem.now self.old.margin (rows_of rows.now) j }
        ensures { AreJudged problem.now (rows_of rows.now) self.new }
    {
        judge(problem, self.margin, false, rows, &mut self.misses);
    }

    /// Judges all atoms again, if the margin is another one.
    pub fn judge_at(&mut self, problem: &Problem, margin: u32, rows: &Rows)
        requires margin { margin ≤ 120 }
        requires rows { length (rows_of rows.now) ≡ length problem.now.nodes }
        requires judged { AreJudged problem.now (rows_of rows.now) self.old }
        ensures judged { AreJudged problem.now (rows_of rows.now) self.new }
        ensures margin { self.new.margin ≡ margin }
    {
        if margin == self.margin {
            return;
        }
        judge(problem, margin, true, rows, &mut self.misses);
        self.margin = margin;
    }
}
