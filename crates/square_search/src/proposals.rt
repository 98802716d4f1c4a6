// What is proposed of a box, one line after the other.
use crate::attempt::Attempt;
use crate::candidates::Boxed;
use crate::expansion::{Expanded, expand};
use crate::rounding::Proposal;
use crate::sets::{Set, small_sets, whole_set};
use crate::sides::Sides;
use squares::Budget;
use std::alloc::{AllocError, Global};

/// A step of an expansion, which looks a monomial up, takes about as long as so many of a turn.
const EXPANSION_WEIGHT: u64 = 512;

/// What may be proposed of a box: its atoms, the sets of them that are not yet tried, the last first, and the one that is.
#[derive(Drop)]
pub struct Proposals {
    atoms: Vec<Expanded>,
    sides: Sides,
    sets: Vec<Set>,
    attempt: Option<Attempt>,
    /// those that were taken without the present set's
    steps: u64,
    most_steps: u64,
}

// Whether an atom has a product.
fn has_product(atoms: &[Expanded]) -> bool {
    for atom in atoms {
        if atom.degree() > 1 {
            return true;
        }
    }
    false
}

impl Proposals {
    // Begins with all atoms, or, where that makes too large a programme, goes on with sets around each.
    fn begin(&mut self, alloc: Global) -> Result<(), AllocError> {
        if !has_product(&self.atoms) {
            return Ok(());
        }
        if let Some(set) = whole_set(alloc, &self.atoms)? {
            self.attempt = Attempt::of(alloc, &self.atoms, &set.atoms, &self.sides)?;
        }
        if self.attempt.is_none() {
            self.sets = small_sets(alloc, &self.atoms)?;
            self.sets.reverse();
        }
        Ok(())
    }

    /// What may be proposed of the box.
    pub fn of(alloc: Global, boxed: &Boxed) -> Result<Proposals, AllocError> {
        let sides = Sides::of(alloc, boxed.space, boxed.centre)?;
        let mut budget = Budget::new();
        let all = budget.left;
        let atoms = expand(alloc, boxed, &sides, &mut budget)?;
        let mut proposals = Proposals {
            atoms,
            sides,
            sets: Vec::new(alloc),
            attempt: None,
            steps: all
                .saturating_sub(budget.left)
                .saturating_mul(EXPANSION_WEIGHT),
            most_steps: boxed.most_steps,
        };
        proposals.begin(alloc)?;
        Ok(proposals)
    }

    // Goes on to the next set; whether there is one.
    fn next_set(&mut self, alloc: Global) -> Result<bool, AllocError> {
        if let Some(attempt) = &self.attempt {
            self.steps = self.steps.saturating_add(attempt.steps());
        }
        self.attempt = None;
        match self.sets.pop() {
            None => Ok(false),
            Some(set) => {
                self.attempt = Attempt::of(alloc, &self.atoms, &set.atoms, &self.sides)?;
                Ok(true)
            }
        }
    }

    // The next line of the present set.
    fn next_of_set(&mut self, alloc: Global) -> Result<Option<Proposal>, AllocError> {
        match &mut self.attempt {
            None => Ok(None),
            Some(attempt) => attempt.next(alloc, self.most_steps.saturating_sub(self.steps)),
        }
    }

    /// The next line that may close the box; none where nothing more is found, or no steps are left.
    pub fn next(&mut self, alloc: Global) -> Result<Option<Proposal>, AllocError> {
        for _ in 0..=self.sets.len() {
            let proposal = self.next_of_set(alloc)?;
            if proposal.is_some() {
                return Ok(proposal);
            }
            if !self.next_set(alloc)? {
                return Ok(None);
            }
        }
        Ok(None)
    }

    /// How many steps were taken up to now, as a measure of time: 512 for each of the expansion, and for each turn a sixth of
    /// the cube of its rows, and half the fourth power of each block's size.
    pub fn steps(&self) -> u64 {
        match &self.attempt {
            None => self.steps,
            Some(attempt) => self.steps.saturating_add(attempt.steps()),
        }
    }
}
