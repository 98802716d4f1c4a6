// What is said of each atom: it holds, it does not, or neither.
ghost use Rattle.std.specs.Prelude.{◌≡◌, ℕ, ◌<◌, ◌^◌, length, map, replicate, IfOk, IsTrue, slice_set, ◌↔◌};
ghost use Rattle.poly_graph.specs.Marks.{unmarked, mark_at};
ghost use Rattle.poly_graph.specs.MarkViews.{mark_of};

use crate::mark::Mark;
use std::alloc::{AllocError, Global};
use std::marker::Model;

/// One mark for each atom, by the atom's number.
#[derive(Drop)]
pub struct Lits {
    marks: Vec<Mark>,
}

impl Model for Lits {
    ghost use Rattle.std.specs.Prelude.{List, map};
    ghost use Rattle.poly_graph.specs.Marks as mark;
    ghost use Rattle.poly_graph.specs.MarkViews.{mark_of};

    ghost Value = { List mark.Mark };

    ghost view = { λ l. map mark_of l.marks.items };
}

impl Lits {
    /// No atom marked.
    pub fn new(alloc: Global, atoms: usize) -> Result<Self, AllocError>
        ensures { IfOk result (λ l. l ≡ replicate atoms unmarked) }
    {
        let mut marks = Vec::new(alloc);
        marks.resize(atoms, Mark::Neither)?;
        Ok(Lits { marks })
    }

    /// How many atoms there are.
    pub fn len(&self) -> usize
        ensures { result ≡ length self.now }
    {
        self.marks.len()
    }

    /// Whether there are no atoms.
    pub fn is_empty(&self) -> bool
        ensures { IsTrue result ↔ (length self.now ≡ 0) }
    {
        self.marks.is_empty()
    }

    /// The marks, by atom.
    pub fn marks(&self) -> &[Mark]
        ensures { map mark_of result.now ≡ self.now }
    {
        &self.marks
    }

    /// The mark of atom j.
    pub fn mark(&self, j: u32) -> Mark
        requires { j < length self.now }
        ensures { mark_of result ≡ mark_at self.now j }
    {
        self.marks[j as usize]
    }

    /// Marks atom j.
    pub fn set(&mut self, j: u32, mark: Mark)
        requires { j < length self.old }
        ensures { self.new ≡ slice_set self.old j (mark_of mark) }
    {
        self.marks[j as usize] = mark;
    }

    /// The same marks once more.
    pub fn try_clone(&self, alloc: Global) -> Result<Self, AllocError>
        ensures { IfOk result (λ l. l ≡ self.now) }
    {
        let mut marks = Vec::new(alloc);
        marks.extend_from_slice(&self.marks)?;
        Ok(Lits { marks })
    }
}
