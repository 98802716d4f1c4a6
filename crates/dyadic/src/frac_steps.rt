// Exact steps on fractions, refused where a number grows past 10^36.
ghost use Rattle.std.specs.Prelude.{◌≡◌, ℕ, ◌*◌, ◌^◌, ◌<◌, ◌≤◌, ℤ, pos, ◌+ℤ◌, ◌*ℤ◌, ◌<ℤ◌, IsTrue, IsFalse, MatchResult};
ghost use Rattle.std.specs.Int.{IsGcd};
ghost use Rattle.std.specs.Int.RustNames.{unsigned_abs};
ghost use Rattle.dyadic.specs.Fraction.{negated, sum_of, product_of, quotient_of};
ghost use Rattle.dyadic.specs.Lowest.{reduced, sum_fits, product_fits, quotient_fits};
ghost use Rattle.dyadic.specs.Views.{fraction_of_frac};
ghost use Rattle.dyadic.specs.Signed.{signed_of};
ghost use Rattle.dyadic.specs.SmallSteps.{IsSmall, IsSmallSum, IsSmallProduct, IsSmallQuotient};

use crate::frac::Frac;

/// A number of a step exceeds 10^36 in size.
#[derive(Clone, Copy, PartialEq, Eq, Debug)]
pub struct TooWide;

const LIMIT: u128 = 1_000_000_000_000_000_000_000_000_000_000_000_000;

// The number, if it is small.
fn small(z: i128) -> Result<i128, TooWide>
    ensures { MatchResult result (λ p. (p ≡ z) × IsSmall z) (λ _. ¬ IsSmall z) }
{
    if z.unsigned_abs() <= LIMIT {
        Ok(z)
    } else {
        Err(TooWide)
    }
}

// The product, if it is small.
fn times(a: i128, b: i128) -> Result<i128, TooWide>
    ensures { MatchResult result (λ p. (p ≡ a *ℤ b) × IsSmall (a *ℤ b)) (λ _. ¬ IsSmall (a *ℤ b)) }
{
    match a.checked_mul(b) {
        Some(p) => small(p),
        None => Err(TooWide),
    }
}

// The greatest common divisor.
fn gcd(a: u128, b: u128) -> u128
    ensures { IsGcd a b result }
{
    let mut x = a;
    let mut y = b;
    while y != 0 {
        let rest = x % y;
        x = y;
        y = rest;
    }
    x
}

// The number of this sign and size.
fn with_sign(negative: bool, size: u128) -> i128
    requires { size ≤ 10 ^ 36 }
    ensures { result ≡ signed_of negative size }
{
    if negative {
        -(size as i128)
    } else {
        size as i128
    }
}

// A fraction of this sign and of these sizes, in lowest terms.
fn from_sizes(negative: bool, n: u128, d: u128) -> Frac
    requires positive { 0 < d }
    requires few_digits { n ≤ 10 ^ 36 }
    requires few_digits_below { d ≤ 10 ^ 36 }
    ensures { fraction_of_frac result ≡ reduced (record { num = signed_of negative n; den = d }) }
{
    let divisor = gcd(n, d);
    Frac {
        n: with_sign(negative, n / divisor),
        d: with_sign(false, d / divisor),
    }
}

// The sum, if it is small.
fn plus(a: i128, b: i128) -> Result<i128, TooWide>
    requires left { IsSmall a }
    requires right { IsSmall b }
    ensures { MatchResult result (λ p. (p ≡ a +ℤ b) × IsSmall (a +ℤ b)) (λ _. ¬ IsSmall (a +ℤ b)) }
{
    small(a + b)
}

impl Frac {
    /// The fraction `n / d`, in lowest terms.
    pub fn new(n: i128, d: i128) -> Frac
        requires positive { pos 0 <ℤ d }
        requires few_digits { unsigned_abs n ≤ 10 ^ 36 }
        requires few_digits_below { unsigned_abs d ≤ 10 ^ 36 }
        ensures { fraction_of_frac result ≡ reduced (record { num = n; den = unsigned_abs d }) }
    {
        from_sizes(n < 0, n.unsigned_abs(), d.unsigned_abs())
    }

    /// The opposite.
    pub fn neg(self) -> Frac
        ensures { fraction_of_frac result ≡ negated (fraction_of_frac self) }
    {
        Frac {
            n: -self.n,
            d: self.d,
        }
    }

    /// The sum, unless one of `a*d`, `c*b`, `a*d + c*b`, `b*d` exceeds 10^36 in size, for a/b and c/d.
    pub fn add(self, other: Frac) -> Result<Frac, TooWide>
        ensures { MatchResult result
            (λ r. IsTrue (sum_fits (fraction_of_frac self) (fraction_of_frac other)) ×
            (fraction_of_frac r ≡
            reduced (sum_of (fraction_of_frac self) (fraction_of_frac other))))
            (λ _. IsFalse (sum_fits (fraction_of_frac self) (fraction_of_frac other))) }
    {
        let left = times(self.n, other.d)?;
        let right = times(other.n, self.d)?;
        let total = plus(left, right)?;
        let below = times(self.d, other.d)?;
        Ok(Frac::new(total, below))
    }

    /// The product, unless one of `a*c`, `b*d` exceeds 10^36 in size, for a/b and c/d.
    pub fn mul(self, other: Frac) -> Result<Frac, TooWide>
        ensures { MatchResult result
            (λ r. IsTrue (product_fits (fraction_of_frac self) (fraction_of_frac other)) ×
            (fraction_of_frac r ≡
            reduced (product_of (fraction_of_frac self) (fraction_of_frac other))))
            (λ _. IsFalse (product_fits (fraction_of_frac self) (fraction_of_frac other))) }
    {
        let above = times(self.n, other.n)?;
        let below = times(self.d, other.d)?;
        Ok(Frac::new(above, below))
    }

    /// The quotient, unless one of `a*d`, `b*c` exceeds 10^36 in size, for a/b and c/d with c not 0.
    pub fn div(self, other: Frac) -> Result<Frac, TooWide>
        requires { other.n ≡ pos 0 → ⊥ }
        ensures { MatchResult result
            (λ r. IsTrue (quotient_fits (fraction_of_frac self) (fraction_of_frac other)) ×
            (fraction_of_frac r ≡
            reduced (quotient_of (fraction_of_frac self) (fraction_of_frac other))))
            (λ _. IsFalse (quotient_fits (fraction_of_frac self) (fraction_of_frac other))) }
    {
        let above = times(self.n, other.d)?;
        let below = times(self.d, other.n)?;
        Ok(from_sizes(
            (above < 0) != (below < 0),
            above.unsigned_abs(),
            below.unsigned_abs(),
        ))
    }
}
