// What the end of a patch leaves of the state that it reached.
ghost use Rattle.std.specs.Prelude.{◌≡◌, IfOk, IfSome, IsSome, Some};
ghost use Rattle.cover_data.specs.Views.{end_line, end_of};
ghost use Rattle.cover_data.specs.Runs.{CanPart};
ghost use Rattle.cover_data.specs.declared.step.End.{End as Line};
ghost use Rattle.cover_book.specs.Ending.{IsEndingOf};
ghost use Rattle.cover_book.specs.declared.ending.Ending.TheVariants as ending;

use cover_data::{KeptPatch, State, StoredState};
use std::alloc::{AllocError, Global};

/// What an end leaves of a state: nothing, its two parts, as they are kept, or the state itself.
#[derive(Drop)]
pub enum Ending {
    Closed,
    Parted(StoredState, StoredState),
    Stuck(State),
}

// The two parts of a state. One that is kept may be like the first of them.
fn parted(
    alloc: Global,
    lower: &State,
    upper: &State,
    like: Option<&StoredState>,
) -> Result<Ending, AllocError>
    ensures { IfOk result (λ x. x ≡ ending.Parted lower.now upper.now) }
{
    let lower = StoredState::new(alloc, lower, like)?;
    let upper = StoredState::new(alloc, upper, Some(&lower))?;
    Ok(Ending::Parted(lower, upper))
}

/// What the end of the patch leaves of the state that it reached. One that is kept may be like its parts.
pub fn ending_of(
    alloc: Global,
    patch: &KeptPatch,
    like: Option<&StoredState>,
) -> Result<Ending, AllocError>
    requires ended { IsSome patch.now.end }
    requires parts { IfSome (end_of patch.now.end) (λ l. CanPart l patch.now.reached) }
    ensures { (e : Line) → patch.now.end ≡ Some e →
        IfOk result (IsEndingOf (end_line e) patch.now.reached) }
{
    match patch.kids(alloc)? {
        Some((lower, upper)) => parted(alloc, &lower, &upper, like),
        None => {
            if patch.has_closed() {
                Ok(Ending::Closed)
            } else {
                Ok(Ending::Stuck(patch.reached.try_clone(alloc)?))
            }
        }
    }
}
