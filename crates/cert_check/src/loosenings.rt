// The margin, the delta and the version of a header.
ghost use Rattle.std.specs.Prelude.{◌<◌, ◌≤◌};

/// The loosenings of pruning, 2 to the power of minus `margin`, and of points, 2 to the power of minus `delta`; and the
/// version of the format.
#[derive(Clone, Copy)]
pub struct Loosenings {
    pub margin: u32,
    pub delta: u32,
    pub version: u32,
    pub ghost some: { 1 ≤ delta },
    pub ghost fine: { delta < margin },
    pub ghost few: { margin ≤ 60 },
}
