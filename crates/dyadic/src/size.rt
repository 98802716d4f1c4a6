// A representable size, in its one spelling.
ghost use Rattle.std.specs.Prelude.{◌≡◌, ℕ, ◌+◌, ◌*◌, ◌^◌, ◌<◌, ◌≤◌};
ghost use Rattle.dyadic.specs.Grid.{IsSpelling};

/// A representable size: `odd * 2^shift` units of 2^-120.
#[derive(Clone, Copy, PartialEq, Eq, Debug)]
pub struct Size {
    pub odd: u64,
    pub shift: u32,
    pub ghost spelled: { IsSpelling odd shift },
}
