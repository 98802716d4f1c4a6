// Room for the work on boxes.
ghost use Rattle.std.specs.Prelude.{◌≡◌, IfOk};
ghost use Rattle.cover_model.specs.Fits.{FitsProblem};
ghost use Rattle.poly_graph.specs.ProblemViews.{problem_of};
ghost use Rattle.cover_data.specs.Margins.{AreMargins};
ghost use Rattle.cover_data.specs.Views.{kept_of};
ghost use Rattle.cover_rule.specs.Patch.{IsRunOf, run_at};
ghost use Rattle.cover_rule.specs.Serves.{IsNumbered};

use crate::heuristics::Heuristics;
use cover_rule::{KeptPatch, Margins, Patch, State, Workspace};
use poly_graph::Problem;
use std::alloc::{AllocError, Global};
use std::marker::Model;
use std::mem;

/// Room for the work on the boxes of a problem, which is what clauses see of it. The workspace of its patches is made at
/// the first box, and goes from one to the next: it is filled for the problem.
#[derive(Drop)]
pub struct Room<'a> {
    problem: &'a Problem,
    work: Option<Workspace>,
    pub heuristics: Heuristics,
}

impl<'a> Model for Room<'a> {
    ghost use Rattle.std.specs.Prelude.{IfSome};
    ghost use Rattle.poly_graph.specs.ProblemViews.{Parts};
    ghost use Rattle.cover_rule.specs.Serves.{IsFilled};

    ghost Value = { Parts };

    ghost view = { λ r. r.problem.now };

    ghost invariant = { λ r. IfSome r.work (IsFilled r.problem.now) };
}

impl<'a> Room<'a> {
    /// Room for the boxes of the problem, with nothing in it yet.
    pub fn new(problem: &'a Problem) -> Room<'a>
        ensures { result ≡ problem.now }
    {
        Room {
            problem,
            work: None,
            heuristics: Heuristics::new(),
        }
    }

    /// The problem.
    pub fn problem(&self) -> &'a Problem
        ensures { result.now ≡ self.now }
    {
        self.problem
    }

    /// A patch at the state, with nothing done yet, in the workspace.
    pub fn begin(
        &mut self,
        alloc: Global,
        margins: &Margins,
        state: State,
    ) -> Result<Patch<'a>, AllocError>
        requires numbered { IsNumbered self.old }
        requires margins { AreMargins margins.now }
        requires state { FitsProblem (problem_of self.old) state }
        ensures problem { IfOk result (λ p. p.problem ≡ self.old) }
        ensures margins { IfOk result (λ p. p.margins ≡ margins.now) }
        ensures kept { IfOk result (λ p. p.kept ≡ run_at state) }
        ensures same { self.new ≡ self.old }
    {
        match self.work.take() {
            Some(work) => Patch::begin_in(alloc, work, self.problem, margins, state),
            None => Patch::begin(alloc, self.problem, margins, state),
        }
    }

    /// What a patch for the problem has done; the workspace that it worked in is kept.
    pub fn end(&mut self, patch: Patch) -> KeptPatch
        requires { patch.problem ≡ self.old }
        ensures kept { kept_of result ≡ patch.entry.kept }
        ensures run { IsRunOf patch.entry }
        ensures same { self.new ≡ self.old }
    {
        let (kept, work) = patch.into_kept();
        drop(mem::replace(&mut self.work, Some(work)));
        kept
    }
}
