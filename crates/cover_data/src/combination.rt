// Combinations of atoms, as the lines of patches have them.
ghost use Rattle.std.specs.Prelude.{◌≡◌, ◌<◌, ◌≤◌, length, IfOk};

use dyadic::Dy;
use std::alloc::{AllocError, Global};

/// Numbers of atoms, each with its multiplier: from 1 to 512, as many as a line of a certificate has.
#[derive(Drop, PartialEq, Eq, Debug)]
pub struct Combination {
    pub pairs: Vec<(u32, Dy), Global>,
    pub ghost some: { 0 < length pairs.items },
    pub ghost few: { length pairs.items ≤ 512 },
}

impl Combination {
    /// The combination of these pairs.
    pub fn new(alloc: Global, pairs: &[(u32, Dy)]) -> Result<Combination, AllocError>
        requires some { 0 < length pairs.now }
        requires few { length pairs.now ≤ 512 }
        ensures { IfOk result (λ c. c.pairs.items ≡ pairs.now) }
    {
        let pairs = Vec::from_slice(alloc, pairs)?;
        Ok(Combination { pairs })
    }

    /// The same combination in memory of its own.
    pub fn try_clone(&self, alloc: Global) -> Result<Combination, AllocError>
        ensures { IfOk result (λ c. c.pairs.items ≡ self.now.pairs.items) }
    {
        Combination::new(alloc, &self.pairs)
    }
}
