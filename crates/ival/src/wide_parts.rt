// Two halves of a whole number of units.
ghost use Rattle.std.specs.Prelude.{ℕ, ◌^◌, ◌<◌};

/// `high * 2^120 + low` units, exactly.
#[derive(Clone, Copy)]
pub struct Wide {
    pub high: u128,
    pub low: u128,
    pub ghost few: { low < 2 ^ 120 },
    pub ghost small: { high < 2 ^ 124 },
}
