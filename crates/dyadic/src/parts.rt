// Numbers as they are computed with.
ghost use Rattle.std.specs.Prelude.{◌≡◌, ℕ, ◌<◌, true};

use crate::size::Size;

/// A number by its sign and its size; 0 has no sign.
#[derive(Clone, Copy)]
pub struct Parts {
    pub negative: bool,
    pub size: Size,
    pub ghost one_zero: { negative ≡ true → 0 < size.odd },
}
