// Facts that states and points keep. A proof here sees them only as what a call ensures, so each is shown by a call that
// does nothing else.
ghost use Rattle.cover_model.specs.Space.{IsGridSpace};

use cover_data::{Point, State};

/// Shows that the ends of a state's axes are numbers that are kept.
pub fn on_grid(state: &State)
    ensures { IsGridSpace state.now.space }
{
    state.space();
}

/// Shows that a point's coordinates are numbers that are kept.
pub fn point_on_grid(point: &Point)
    ensures { IsGridSpace point.now }
{
    point.space();
}
