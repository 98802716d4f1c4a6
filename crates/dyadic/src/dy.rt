// The numbers and the two infinities, as they are kept.
ghost use Rattle.std.specs.Prelude.{◌≡◌, ℕ, ℤ, ◌^◌, ◌<◌};
ghost use Rattle.dyadic.specs.Mantissa.{IsNormal, mantissa};

/// A number `m * 2^e` with `|m| <= 2^62` and `-120 <= e <= 60`, as a mantissa times `2^shift` units.
///
/// The mantissa is in two's complement, and its highest bit stands at one place unless the shift is 0, so equal numbers have
/// equal fields. It is kept in halves, so that a number takes 12 bytes and an end 16.
#[derive(Clone, Copy, PartialEq, Eq, Debug)]
pub struct Dy {
    pub low: u32,
    pub high: i32,
    pub shift: u32,
    pub ghost normal: { IsNormal (mantissa high low) shift },
    pub ghost one_low: { low < 2 ^ 32 },
}

/// A number, or one of the two infinities.
#[derive(Clone, Copy, PartialEq, Eq, Debug)]
pub enum Ext {
    NegInf,
    Fin(Dy),
    PosInf,
}
