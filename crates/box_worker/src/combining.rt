// Combinations of marked atoms at a state: each atom alone, and those that a linear programme chooses. Which ones are tried is
// a heuristic that promises nothing; that each step is lawful is what the patch ensures.
ghost use Rattle.std.specs.Prelude.{◌≡◌};

use crate::contraction::Contraction;
use crate::scout::Emptied;
use crate::step::Outcome;
use cover_rule::Patch;
use dyadic::{Dy, pow2};
use ival::{Domain, Space};
use relaxation::{Elimination, Refutation, Relaxation, Side, are_many_equations, is_asking};
use std::alloc::{AllocError, Global};

// The most pairs of a combination in versions of the format before 5, and from then on.
const MOST_PAIRS_AT_FIRST: usize = 64;

const MOST_PAIRS: usize = 512;

// The most pairs that a combination in the patch may have.
fn most_pairs(patch: &Patch) -> usize {
    if patch.margins().version >= 5 {
        MOST_PAIRS
    } else {
        MOST_PAIRS_AT_FIRST
    }
}

/// Whether atom j is marked, and its enclosure does not lie where the mark asks for.
pub fn is_asking_at(patch: &Patch, j: usize) -> bool {
    let margin_bits = patch.margins().margin_bits;
    let lits = patch.reached().lits();
    is_asking(patch.problem(), margin_bits, lits, patch.rows(), j)
}

// Whether two or more atoms are such ones.
fn are_several_asking(patch: &Patch) -> bool {
    let mut is_one_asking = false;
    for j in 0..patch.problem().atoms().len() {
        if is_asking_at(patch, j) {
            if is_one_asking {
                return true;
            }
            is_one_asking = true;
        }
    }
    false
}

// Whether the axis is a Real one.
fn is_real(space: &Space, axis: usize) -> bool {
    axis < space.len() && matches!(space.get(axis), Domain::Real(_))
}

impl<'a, 'b> Contraction<'a, 'b> {
    // Combines these atoms where they leave less; whether an axis fell by about a tenth, or nothing is left.
    fn combine(&mut self, multipliers: Vec<(u32, Dy), Global>) -> Result<bool, AllocError>
        ensures { self.new.open ≡ self.old.open }
    {
        match self.open.combine(&multipliers)? {
            Outcome::Void => {
                self.scout.note_void(Emptied::Combination(multipliers));
                Ok(true)
            }
            Outcome::Done => Ok(self.scout.note_space(self.open.patch().reached().space())),
            Outcome::Idle | Outcome::Refused => Ok(false),
        }
    }

    // Combines atom j alone, where that may give something that narrowing by it did not.
    fn combine_alone(&mut self, j: usize) -> Result<(), AllocError>
        ensures { self.new.open ≡ self.old.open }
    {
        if !self.scout.may_repeat(j) || !is_asking_at(self.open.patch(), j) {
            return Ok(());
        }
        let Ok(atom) = u32::try_from(j) else {
            return Ok(());
        };
        let mut multipliers = Vec::new(self.alloc);
        multipliers.push((atom, pow2(0)))?;
        self.combine(multipliers)?;
        Ok(())
    }

    /// Combines each marked atom alone in whose term an axis may repeat, until nothing is left.
    pub fn combine_all(&mut self) -> Result<(), AllocError>
        ensures { self.new.open ≡ self.old.open }
    {
        for j in 0..self.open.patch().problem().atoms().len() {
            if !self.scout.is_void() {
                self.combine_alone(j)?;
            }
        }
        Ok(())
    }

    // The elimination over the state's marked equations; none where there are few.
    fn elimination(&mut self) -> Result<Option<Elimination>, AllocError>
        ensures { self.new.open ≡ self.old.open }
    {
        let patch = self.open.patch();
        let margin_bits = patch.margins().margin_bits;
        let lits = patch.reached().lits();
        if !are_many_equations(patch.problem(), margin_bits, lits, patch.rows()) {
            return Ok(None);
        }
        self.open.find_centre();
        let patch = self.open.patch();
        let state = patch.reached();
        Elimination::of(
            self.alloc,
            patch.problem(),
            most_pairs(patch),
            margin_bits,
            state.lits(),
            state.space(),
            patch.rows(),
            &patch.centre().rows,
        )
    }

    // Narrows the axis by the equations that are solved for it, if that is worth while; whether an axis fell by about a
    // tenth, or nothing is left.
    fn narrow_solved(
        &mut self,
        elimination: &mut Elimination,
        axis: usize,
    ) -> Result<bool, AllocError>
        ensures { self.new.open ≡ self.old.open }
    {
        if self.scout.is_void() {
            return Ok(false);
        }
        let Some(multipliers) = elimination.narrowing(self.alloc, axis)? else {
            return Ok(false);
        };
        let has_gained = self.combine(multipliers)?;
        elimination.follow(self.open.patch().reached().space());
        Ok(has_gained)
    }

    // Narrows all axes so; whether one fell by about a tenth, or nothing is left.
    fn narrow_all_solved(&mut self, elimination: &mut Elimination) -> Result<bool, AllocError>
        ensures { self.new.open ≡ self.old.open }
    {
        let mut has_gained = false;
        for axis in 0..self.open.patch().problem().axes().len() {
            if self.narrow_solved(elimination, axis)? {
                has_gained = true;
            }
        }
        Ok(has_gained)
    }

    /// Combines marked equations so that each combination narrows one axis, unless that gave nothing at the boxes before.
    pub fn eliminate(&mut self) -> Result<(), AllocError>
        ensures { self.new.open ≡ self.old.open }
    {
        if !self.scout.elimination().is_due() {
            return Ok(());
        }
        let Some(mut elimination) = self.elimination()? else {
            return Ok(());
        };
        let has_gained = self.narrow_all_solved(&mut elimination)?;
        self.scout.elimination().note(has_gained);
        Ok(())
    }

    // The linear relaxation of the state's marked atoms; none where fewer than two ask for something.
    fn relaxation(&mut self) -> Result<Option<Relaxation>, AllocError>
        ensures { self.new.open ≡ self.old.open }
    {
        if !are_several_asking(self.open.patch()) {
            return Ok(None);
        }
        self.open.find_centre();
        let patch = self.open.patch();
        let centre = patch.centre();
        let state = patch.reached();
        Relaxation::of(
            self.alloc,
            patch.problem(),
            patch.margins().margin_bits,
            state.lits(),
            state.space(),
            patch.rows(),
            &centre.middle,
            &centre.rows,
        )
    }

    // Narrows the axis at this end by the combination that the relaxation chooses, if that is worth while; whether it did.
    fn narrow_end(
        &mut self,
        relaxation: &mut Relaxation,
        axis: u32,
        side: Side,
    ) -> Result<bool, AllocError>
        ensures { self.new.open ≡ self.old.open }
    {
        if self.scout.is_void() {
            return Ok(false);
        }
        let Some(multipliers) = relaxation.narrowing(self.alloc, axis, side)? else {
            return Ok(false);
        };
        let has_gained = self.combine(multipliers)?;
        let space = self.open.patch().reached().space();
        if (axis as usize) < space.len() {
            relaxation.tighten(axis, space.get(axis as usize));
        }
        Ok(has_gained)
    }

    // Narrows a Real axis so at both ends, unless that gave nothing at the box before; whether it fell by about a tenth, or
    // nothing is left.
    fn narrow_axis(&mut self, relaxation: &mut Relaxation, axis: usize) -> Result<bool, AllocError>
        ensures { self.new.open ≡ self.old.open }
    {
        if !is_real(self.open.patch().reached().space(), axis) || !self.scout.is_axis_due(axis) {
            return Ok(false);
        }
        let Ok(number) = u32::try_from(axis) else {
            return Ok(false);
        };
        let low = self.narrow_end(relaxation, number, Side::Least)?;
        let high = self.narrow_end(relaxation, number, Side::Greatest)?;
        self.scout.note_axis(axis, low || high);
        Ok(low || high)
    }

    // Narrows all axes so; whether one fell by about a tenth, or nothing is left.
    fn narrow_axes(&mut self, relaxation: &mut Relaxation) -> Result<bool, AllocError>
        ensures { self.new.open ≡ self.old.open }
    {
        let mut has_gained = false;
        for axis in 0..self.open.patch().problem().axes().len() {
            if self.narrow_axis(relaxation, axis)? {
                has_gained = true;
            }
        }
        Ok(has_gained)
    }

    // Combines what the relaxation chooses; whether an axis fell by about a tenth, or nothing is left.
    fn combine_chosen(&mut self, relaxation: &mut Relaxation) -> Result<bool, AllocError>
        ensures { self.new.open ≡ self.old.open }
    {
        match relaxation.refutation(self.alloc)? {
            Refutation::Found(multipliers) => self.combine(multipliers),
            Refutation::None => self.narrow_axes(relaxation),
            Refutation::Unknown => Ok(false),
        }
    }

    /// Combines several marked atoms, as their linear relaxation chooses, unless that gave nothing at the boxes before.
    pub fn relax(&mut self) -> Result<(), AllocError>
        ensures { self.new.open ≡ self.old.open }
    {
        if !self.scout.patience().is_due() {
            return Ok(());
        }
        let Some(mut relaxation) = self.relaxation()? else {
            return Ok(());
        };
        let has_gained = self.combine_chosen(&mut relaxation)?;
        self.scout.patience().note(has_gained);
        Ok(())
    }
}
