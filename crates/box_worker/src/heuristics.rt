// What choices on boxes rest on.
use crate::patience::Patience;
use crate::scout::Scout;
use crate::searches::Searches;
use crate::squaring::Squaring;
use cover_rule::Patch;
use std::alloc::{AllocError, Global};
use std::mem;

/// Closed runs are not repeated for so many of them in a row at most.
const LESSONS_LEFT_OUT: u32 = 32;

/// So many closed runs are repeated before a run quotes a lemma, and after each that does.
const REPEATS_A_QUOTE: u32 = 16;

/// Which closed runs are repeated at the root space: some, as long as lemmas are quoted.
#[derive(Clone, Copy)]
pub struct Lessons {
    patience: Patience,
    left: u32,
}

impl Lessons {
    /// A run is repeated at once.
    pub fn new() -> Lessons {
        Lessons {
            patience: Patience::new(LESSONS_LEFT_OUT),
            left: REPEATS_A_QUOTE,
        }
    }

    /// Whether this run is repeated.
    pub fn is_due(&mut self) -> bool {
        self.left > 0 && self.patience.is_due()
    }

    /// Notes that a run was repeated, and whether that showed a lemma.
    pub fn note_repeat(&mut self, has_shown: bool) {
        self.patience.note(has_shown);
        self.left = self.left.saturating_sub(1);
    }

    /// Notes that a run has quoted a lemma.
    pub fn note_quote(&mut self) {
        self.left = REPEATS_A_QUOTE;
    }
}

/// What is kept from box to box for choices alone. It promises nothing.
#[derive(Drop)]
pub struct Heuristics {
    scout: Option<Scout>,
    pub lessons: Lessons,
    pub searches: Searches,
    pub squaring: Squaring,
}

impl Heuristics {
    /// Nothing yet.
    pub fn new() -> Heuristics {
        Heuristics {
            scout: None,
            lessons: Lessons::new(),
            searches: Searches::new(),
            squaring: Squaring::new(),
        }
    }

    /// The scout that is kept, at the state of the patch; a new one where there is none for the problem.
    pub fn take_scout(&mut self, alloc: Global, patch: &Patch) -> Result<Scout, AllocError> {
        if let Some(mut scout) = self.scout.take() {
            if scout.renew(patch) {
                return Ok(scout);
            }
            drop(scout);
        }
        Scout::new(alloc, patch)
    }

    /// Keeps the scout for the next box.
    pub fn keep(&mut self, scout: Scout) {
        drop(mem::replace(&mut self.scout, Some(scout)));
    }
}
