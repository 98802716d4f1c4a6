// The seats of a shared object.
ghost use Rattle.std.specs.Prelude.{◌≡◌};
ghost use Rattle.book_lock.specs.Rest.{IsAtRest};

use crate::views::TableSeat;

/// What one thread knows of a shared object, and its leave to call it. It has no bytes.
#[derive(Drop)]
pub struct ObjectSeat<O, C, R> {
    pub place: TableSeat<O, C, R>,
    pub ghost resting: { IsAtRest place.me },
}

impl<O, C, R> ObjectSeat<O, C, R> {
    // A seat between two calls.
    pub(crate) fn at_rest(place: TableSeat<O, C, R>) -> ObjectSeat<O, C, R>
        requires { IsAtRest place.me }
        ensures { result.place ≡ place }
    {
        ObjectSeat { place }
    }
}
