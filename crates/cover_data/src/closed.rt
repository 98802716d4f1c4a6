// Patches that have closed their state.
ghost use Rattle.std.specs.Prelude.{◌≡◌, ◌↔◌, IsTrue, MatchResult};
ghost use Rattle.cover_data.specs.Runs.{IsClosed};
ghost use Rattle.cover_data.specs.Views.{kept_of};

use crate::kept::KeptPatch;
use crate::step::End;
use std::marker::Model;

/// A kept patch that ended by closing its state, so that no point of its first state meets the form.
#[derive(Drop)]
pub struct ClosedPatch {
    kept: KeptPatch,
}

impl Model for ClosedPatch {
    ghost use Rattle.cover_data.specs.Models.{KeptModel};
    ghost use Rattle.cover_data.specs.Runs.{IsClosed};
    ghost use Rattle.cover_data.specs.Views.{kept_of};

    ghost Value = { KeptModel };

    ghost view = { λ c. kept_of c.kept };

    ghost invariant = { λ c. IsClosed (kept_of c.kept) };
}

impl ClosedPatch {
    /// The kept patch.
    pub fn kept(&self) -> &KeptPatch
        ensures kept { kept_of result.now ≡ self.now }
        ensures closed { IsClosed self.now }
    {
        &self.kept
    }

    /// The kept patch, by value.
    pub fn into_kept(self) -> KeptPatch
        ensures kept { kept_of result ≡ self }
        ensures closed { IsClosed self }
    {
        let ClosedPatch { kept } = self;
        kept
    }
}

impl KeptPatch {
    /// Whether it ended by closing its state.
    pub fn has_closed(&self) -> bool
        ensures { IsTrue result ↔ IsClosed (kept_of self.now) }
    {
        match &self.end {
            Some(End::Close(_)) => true,
            Some(End::Part(_)) => false,
            Some(End::Stuck(_)) => false,
            None => false,
        }
    }

    /// The closed patch; the patch itself where it did not end by closing its state.
    pub fn closed(self) -> Result<ClosedPatch, KeptPatch>
        ensures { MatchResult result
            (λ c. (c ≡ kept_of self) × IsClosed (kept_of self))
            (λ k. (k ≡ self) × ¬ IsClosed (kept_of self)) }
    {
        if self.has_closed() {
            Ok(ClosedPatch { kept: self })
        } else {
            Err(self)
        }
    }
}
