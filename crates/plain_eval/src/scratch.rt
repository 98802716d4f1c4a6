// Rows in which a mark says that there is an interval.
ghost use Rattle.std.specs.Prelude.{◌≡◌};
ghost use Rattle.cover_model.specs.Narrowed.{some_empty};
ghost use Rattle.ival.specs.Options.{options_of};

use ival::Rows;

/// Whether some interval is empty. Only marked places are looked at.
pub fn some_empty(scratch: &Rows) -> bool
    ensures { result ≡ some_empty (options_of scratch.now) }
{
    let mut place = scratch.len();
    while let Some(n) = scratch.next_marked_below(place) {
        if scratch.get(n).is_empty() {
            return true;
        }
        place = n;
    }
    false
}
