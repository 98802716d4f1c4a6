// The order of fractions, without products of 240 bits.
ghost use Rattle.std.specs.Prelude.{◌≡◌, ℕ, ◌*◌, ◌<◌, ◌*ℤ◌};
ghost use Rattle.std.specs.Ordering.{nat_cmp, int_cmp};
ghost use Rattle.std.specs.Int.RustNames.{unsigned_abs};
ghost use Rattle.dyadic.specs.Fraction.{at_most};
ghost use Rattle.dyadic.specs.Calls.{order_of};
ghost use Rattle.dyadic.specs.Views.{fraction_of_frac};

use crate::frac::Frac;
use crate::quotient::has_minus;
use std::cmp::Ordering;

// The order of `n / d` and `m / e`, by their continued fractions.
#[tactic(auto, using(crate::proofs::Quotients::cmp_by_quotients, crate::proofs::Quotients::cmp_by_rests, crate::proofs::Quotients::cmp_turned))]
pub fn cmp_quotients(n: u128, d: u128, m: u128, e: u128) -> Ordering
    requires first { 0 < d }
    requires second { 0 < e }
    ensures { result ≡ nat_cmp (n * e) (m * d) }
{
    let (p, q) = (n / d, m / e);
    if p != q {
        return p.cmp(&q);
    }
    let (r, s) = (n % d, m % e);
    if r == 0 || s == 0 {
        return r.cmp(&s);
    }
    cmp_quotients(e, s, d, r)
}

// The order of the sizes of two fractions.
fn cmp_frac_sizes(a: Frac, b: Frac) -> Ordering
    ensures { result ≡
        nat_cmp (unsigned_abs a.n * unsigned_abs b.d) (unsigned_abs b.n * unsigned_abs a.d) }
{
    cmp_quotients(
        a.n.unsigned_abs(),
        a.d.unsigned_abs(),
        b.n.unsigned_abs(),
        b.d.unsigned_abs(),
    )
}

// The order of two fractions, by their crossed products.
#[tactic(auto, using(crate::proofs::Quotients::cmp_minus_plus, crate::proofs::Quotients::cmp_plus_minus, crate::proofs::Quotients::cmp_plus_plus, crate::proofs::Quotients::cmp_minus_minus))]
fn cmp_crossed(a: Frac, b: Frac) -> Ordering
    ensures { result ≡ int_cmp (a.n *ℤ b.d) (b.n *ℤ a.d) }
{
    match (has_minus(a), has_minus(b)) {
        (false, false) => cmp_frac_sizes(a, b),
        (false, true) => Ordering::Greater,
        (true, false) => Ordering::Less,
        (true, true) => cmp_frac_sizes(b, a),
    }
}

/// The order of two fractions.
pub fn cmp_frac(a: Frac, b: Frac) -> Ordering
    ensures { result ≡
        order_of
        (at_most (fraction_of_frac a) (fraction_of_frac b))
        (at_most (fraction_of_frac b) (fraction_of_frac a)) }
{
    cmp_crossed(a, b)
}
