// Patches.
ghost use Rattle.std.specs.Prelude.{◌≡◌, ◌<◌, ◌↔◌, length, IfOk, IsTrue, MatchResult};
ghost use Rattle.poly_graph.specs.ProblemViews.{problem_of};
ghost use Rattle.cover_line.specs.Views.{blocks_of, multipliers_of};
ghost use Rattle.cover_model.specs.Fits.{FitsProblem};
ghost use Rattle.cover_model.specs.Narrowed.{enclosures};
ghost use Rattle.interval_model.specs.Space.{widest};
ghost use Rattle.ival.specs.BestViews.{axis_of};
ghost use Rattle.ival.specs.RowViews.{rows_of};
ghost use Rattle.ival.specs.SpaceViews.{space_of};
ghost use Rattle.cover_data.specs.Margins.{AreMargins};
ghost use Rattle.cover_data.specs.Runs.{IsClosed};
ghost use Rattle.cover_rule.specs.Serves.{IsFilled, IsNumbered, sure_at_middle};
ghost use Rattle.cover_rule.specs.Patch.{problem_in, run_at, IsRunOf, IsLemmaState, IsClosedRunOf, IsNotClosed};
ghost use Rattle.cover_rule.specs.Narrowers.{NamesAtom, narrowing_of};
ghost use Rattle.cover_rule.specs.Refusals.{NarrowStep, NarrowIfLessStep, UnitStep, BanStep, VoidEnd, SquaresEnd, FalseEnd, LemmaEnd, CutEnd, FlipEnd, CaseEnd, EitherEnd, StuckEnd};
ghost use Rattle.cover_data.specs.Views.{kept_of};

use crate::groups::Groups;
use crate::narrower::Narrower;
use crate::narrowing::{copy_space, forget};
use crate::refusal::PatchRefusal;
use crate::squaring::Difference;
use crate::truth::{find_centre, is_sure_at_middle};
use crate::workspace::{Centre, Workspace};
use crate::{branches, ends, groups, squaring, steps};
use cover_data::{ClosedPatch, KeptPatch, Lemma, Margins, State};
use cover_line::Block;
use dyadic::Dy;
use hc4::follow;
use ival::Rows;
use poly_graph::Problem;
use std::alloc::{AllocError, Global};
use std::marker::Model;

/// A run of rules for a problem that goes from a state to another by one rule after another, and may end. It is
/// lawful and honest at each moment, whatever is asked of it: what would not be is refused.
#[derive(Drop)]
pub struct Patch<'a> {
    alloc: Global,
    problem: &'a Problem,
    margins: Margins,
    kept: KeptPatch,
    work: Workspace,
}

impl<'a> Model for Patch<'a> {
    ghost use Rattle.cover_rule.specs.Models.{PatchModel};
    ghost use Rattle.cover_rule.specs.Held.{IsHeld, patch_of};

    ghost Value = { PatchModel };

    ghost view = { λ p. patch_of p.problem.now p.margins p.kept };

    ghost invariant = { λ p. IsHeld p.problem.now p.margins p.kept p.work };
}

// Nothing done yet at the state, which is given twice.
fn nothing_done(alloc: Global, first: State, reached: State) -> KeptPatch
    requires { first ≡ reached }
    ensures kept { kept_of result ≡ run_at reached }
    ensures reached { result.reached ≡ reached }
{
    KeptPatch {
        first,
        steps: Vec::new(alloc),
        quoted: Vec::new(alloc),
        end: None,
        reached,
    }
}

impl<'a> Patch<'a> {
    /// A patch at the state, with nothing done yet, in room for the problem, whose rows follow to the state's space.
    pub fn begin_in(
        alloc: Global,
        work: Workspace,
        problem: &'a Problem,
        margins: &Margins,
        state: State,
    ) -> Result<Patch<'a>, AllocError>
        requires filled { IsFilled problem.now work }
        requires numbered { IsNumbered problem.now }
        requires margins { AreMargins margins.now }
        requires state { FitsProblem (problem_of problem.now) state }
        ensures problem { IfOk result (λ p. p.problem ≡ problem.now) }
        ensures margins { IfOk result (λ p. p.margins ≡ margins.now) }
        ensures kept { IfOk result (λ p. p.kept ≡ run_at state) }
    {
        let mut work = work;
        let first = state.try_clone(alloc)?;
        let space = state.space();
        follow(problem.graph(), space, &mut work.rows);
        copy_space(space, &mut work.spare);
        forget(&mut work);
        let kept = nothing_done(alloc, first, state);
        Ok(Patch {
            alloc,
            problem,
            margins: *margins,
            kept,
            work,
        })
    }

    /// A patch at the state, with nothing done yet.
    pub fn begin(
        alloc: Global,
        problem: &'a Problem,
        margins: &Margins,
        state: State,
    ) -> Result<Patch<'a>, AllocError>
        requires numbered { IsNumbered problem.now }
        requires margins { AreMargins margins.now }
        requires state { FitsProblem (problem_of problem.now) state }
        ensures problem { IfOk result (λ p. p.problem ≡ problem.now) }
        ensures margins { IfOk result (λ p. p.margins ≡ margins.now) }
        ensures kept { IfOk result (λ p. p.kept ≡ run_at state) }
    {
        let work = Workspace::new(alloc, problem, state.space())?;
        Patch::begin_in(alloc, work, problem, margins, state)
    }

    /// The problem.
    pub fn problem(&self) -> &'a Problem
        ensures problem { result.now ≡ self.now.problem }
        ensures numbered { IsNumbered result.now }
    {
        self.problem
    }

    /// The margins.
    pub fn margins(&self) -> &Margins
        ensures margins { result.now ≡ self.now.margins }
        ensures bits { AreMargins result.now }
    {
        &self.margins
    }

    /// The state that it has reached.
    pub fn reached(&self) -> &State
        ensures state { result.now ≡ self.now.kept.reached }
        ensures run { IsRunOf self.now }
    {
        &self.kept.reached
    }

    /// The first axis of greatest side, among those that can be halved, of the space that it has reached.
    pub fn widest(&self) -> Option<u32>
        ensures { result ≡ axis_of (widest self.now.kept.reached.space) }
    {
        match self.kept.reached.space().widest() {
            Some(axis) => Some(axis as u32),
            None => None,
        }
    }

    /// The enclosures of the problem's terms over the space that it has reached.
    pub fn rows(&self) -> &Rows
        ensures { rows_of result.now ≡
            enclosures self.now.kept.reached.space self.now.problem.nodes }
    {
        &self.work.rows
    }

    /// Makes the middle of the space that it has reached known, and the enclosures over it.
    pub fn find_centre(&mut self)
        ensures same { self.new ≡ self.old }
    {
        find_centre(
            self.problem,
            self.kept.reached.space(),
            &mut self.work.centre,
        )
    }

    /// The middle of the space that it has reached, and the enclosures over it, where they are known.
    pub fn centre(&self) -> &Centre {
        &self.work.centre
    }

    /// Whether the form is sure at the middle of the space that it has reached.
    pub fn is_sure_at_middle(&mut self) -> bool
        ensures sure { result ≡
            sure_at_middle self.old.problem self.old.margins self.old.kept.reached.space }
        ensures same { self.new ≡ self.old }
    {
        is_sure_at_middle(
            self.problem,
            &self.margins,
            &self.kept.reached,
            &mut self.work,
        )
    }

    /// What it has done, to be kept, and the room that it worked in.
    pub fn into_kept(self) -> (KeptPatch, Workspace)
        ensures kept { kept_of result.0 ≡ self.entry.kept }
        ensures run { IsRunOf self.entry }
        ensures filled { IsFilled self.entry.problem result.1 }
    {
        let Patch {
            alloc: _,
            problem: _,
            margins: _,
            kept,
            work,
        } = self;
        (kept, work)
    }

    /// The closed patch; the patch itself where it did not end by closing its state.
    pub fn closed(self) -> Result<ClosedPatch, Patch<'a>>
        ensures { MatchResult result (IsClosedRunOf self.entry) (IsNotClosed self.entry) }
    {
        if !self.has_closed() {
            return Err(self);
        }
        let (kept, _) = self.into_kept();
        match kept.closed() {
            Ok(closed) => Ok(closed),
            Err(_) => unreachable!(),
        }
    }

    /// Whether it ended by closing its state.
    pub fn has_closed(&self) -> bool
        ensures { IsTrue result ↔ IsClosed self.now.kept }
    {
        self.kept.has_closed()
    }

    /// Narrows the space, where the marks allow it: leaves of it what the atom's range, its off-range, or the sum of the
    /// combined terms, expanded at the middle of the space, leaves of it.
    pub fn narrow(&mut self, by: Narrower) -> Result<(), PatchRefusal>
        requires { NamesAtom self.old.problem by }
        ensures { NarrowStep self.old (narrowing_of by.entry) self.new result }
    {
        steps::narrow(
            self.alloc,
            self.problem,
            &self.margins,
            &mut self.kept,
            &mut self.work,
            by,
        )
    }

    /// Narrows the space, where the marks allow it and that leaves less of it; whether it does. So no line is spent on a
    /// narrowing that changes nothing.
    pub fn narrow_if_less(&mut self, by: Narrower) -> Result<bool, PatchRefusal>
        requires { NamesAtom self.old.problem by }
        ensures { NarrowIfLessStep self.old (narrowing_of by.entry) self.new result }
    {
        steps::narrow_if_less(
            self.alloc,
            self.problem,
            &self.margins,
            &mut self.kept,
            &mut self.work,
            by,
        )
    }

    /// Marks atom j yes, without which the form can't hold.
    pub fn unit(&mut self, j: u32) -> Result<(), PatchRefusal>
        requires { j < length self.old.problem.atoms }
        ensures { UnitStep self.old j self.new result }
    {
        steps::unit(
            self.problem,
            &self.margins,
            &mut self.kept,
            &mut self.work,
            j,
        )
    }

    /// Marks atom j no, since the lemma covers the state with the atom marked yes.
    pub fn ban(&mut self, j: u32, lemma: &Lemma) -> Result<(), PatchRefusal>
        requires atom { j < length self.old.problem.atoms }
        requires state { FitsProblem (problem_in self.old) lemma.now.state }
        requires lemma { IsLemmaState self.old lemma.now.state }
        ensures { BanStep self.old j lemma.now self.new result }
    {
        steps::ban(self.alloc, &mut self.kept, j, lemma)
    }

    /// Ends the patch where narrowing leaves nothing, and the marks allow it.
    pub fn void(&mut self, by: Narrower) -> Result<(), PatchRefusal>
        requires { NamesAtom self.old.problem by }
        ensures { VoidEnd self.old (narrowing_of by.entry) self.new result }
    {
        ends::void(
            self.alloc,
            self.problem,
            &self.margins,
            &mut self.kept,
            &mut self.work,
            by,
        )
    }

    /// Ends the patch where the combination of these atoms, each with its multiplier, is above what the atoms allow when the
    /// blocks are taken away, about the middle of the space, and the marks allow it. Memory is needed to see that.
    pub fn squares(&mut self, pairs: Vec<(u32, Dy)>, blocks: Vec<Block>) -> Result<(), PatchRefusal>
        ensures { SquaresEnd self.old (multipliers_of pairs.items) (blocks_of blocks.items)
            self.new result }
    {
        squaring::squares(
            self.alloc,
            self.problem,
            &self.margins,
            &mut self.kept,
            &mut self.work,
            Difference { pairs, blocks },
        )
    }

    /// Ends the patch where the form can't hold.
    pub fn make_false(&mut self) -> Result<(), PatchRefusal>
        ensures { FalseEnd self.old self.new result }
    {
        ends::make_false(self.problem, &self.margins, &mut self.kept, &mut self.work)
    }

    /// Ends the patch by a lemma that covers the state.
    pub fn by(&mut self, lemma: &Lemma) -> Result<(), PatchRefusal>
        requires state { FitsProblem (problem_in self.old) lemma.now.state }
        requires lemma { IsLemmaState self.old lemma.now.state }
        ensures { LemmaEnd self.old lemma.now self.new result }
    {
        ends::by(self.alloc, &mut self.kept, lemma)
    }

    /// Ends the patch by cutting the axis at its middle: the lower part, then the upper one. In version 2 only the
    /// widest axis may be cut.
    pub fn cut(&mut self, axis: u32) -> Result<(), PatchRefusal>
        ensures { CutEnd self.old axis self.new result }
    {
        branches::cut(
            self.problem,
            &self.margins,
            &mut self.kept,
            &mut self.work,
            axis,
        )
    }

    /// Ends the patch by parting the Bool axis, which is not decided: false, then true.
    pub fn flip(&mut self, axis: u32) -> Result<(), PatchRefusal>
        requires { axis < length self.old.problem.axes }
        ensures { FlipEnd self.old axis self.new result }
    {
        branches::flip(
            self.problem,
            &self.margins,
            &mut self.kept,
            &mut self.work,
            axis,
        )
    }

    /// Ends the patch by parting the state at atom j, which is not marked: yes, then no.
    pub fn case(&mut self, j: u32) -> Result<(), PatchRefusal>
        requires { j < length self.old.problem.atoms }
        ensures { CaseEnd self.old j self.new result }
    {
        branches::case(
            self.problem,
            &self.margins,
            &mut self.kept,
            &mut self.work,
            j,
        )
    }

    /// Ends the patch by parting the state by two groups of atoms, none of which is marked, where one of the two holds as a
    /// whole: all of the first marked yes, then all of the second.
    pub fn either(&mut self, first: Vec<u32>, second: Vec<u32>) -> Result<(), PatchRefusal>
        ensures { EitherEnd self.old first.items second.items self.new result }
    {
        groups::either(
            self.problem,
            &self.margins,
            &mut self.kept,
            &mut self.work,
            Groups { first, second },
        )
    }

    /// Ends the patch at a stuck state, whose first stuck atom is j.
    pub fn stuck(&mut self, j: u32) -> Result<(), PatchRefusal>
        requires { j < length self.old.problem.atoms }
        ensures { StuckEnd self.old j self.new result }
    {
        branches::stuck(
            self.problem,
            &self.margins,
            &mut self.kept,
            &mut self.work,
            j,
        )
    }
}
