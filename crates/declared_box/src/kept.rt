// Ends that are too wide.
ghost use Rattle.std.specs.Prelude.{◌≡◌};
ghost use Rattle.dyadic.specs.Views.{fraction_of_frac};
ghost use Rattle.script_model.specs.Declared.{is_kept, is_far, too_wide_end};
ghost use Rattle.poly_graph.specs.Problem.{size_of};

use crate::interval::whole;
use dyadic::{Frac, at_most, cmp_frac, down_frac, up_frac};

// Whether the fraction is one of the numbers that are kept: it is where it is rounded to the same either way.
fn is_kept(value: Frac) -> bool
    ensures { result ≡ is_kept (fraction_of_frac value) }
{
    at_most(up_frac(value), down_frac(value))
}

// The fraction without its sign.
fn size(value: Frac) -> Frac
    ensures { fraction_of_frac result ≡ size_of (fraction_of_frac value) }
{
    if value.n < 0 { value.neg() } else { value }
}

// Whether the fraction's size is above 2^32.
fn is_far(value: Frac) -> bool
    ensures { result ≡ is_far (fraction_of_frac value) }
{
    !cmp_frac(size(value), whole(1 << 32)).is_le()
}

/// Whether the fraction is no number that is kept, and its size is above 2^32.
pub fn is_too_wide(value: Frac) -> bool
    ensures { result ≡ too_wide_end (fraction_of_frac value) }
{
    !is_kept(value) && is_far(value)
}
