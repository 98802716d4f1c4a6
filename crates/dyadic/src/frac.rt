// Fractions of two numbers of at most 10^36, and their rounding.
ghost use Rattle.std.specs.Prelude.{◌≡◌, ℕ, ◌+◌, ◌*◌, ◌/◌, ◌^◌, ◌<◌, ◌≤◌};
ghost use Rattle.dyadic.specs.Lowest.{IsLowest};

/// The fraction `n / d` in lowest terms.
#[derive(Clone, Copy, PartialEq, Eq, Hash, Debug)]
pub struct Frac {
    pub n: i128,
    pub d: i128,
    pub ghost lowest: { IsLowest n d },
}
