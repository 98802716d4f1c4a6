/// Why a text is no number, or no number that is kept; the first of these that holds.
#[derive(Clone, Copy, PartialEq, Eq, Debug)]
pub enum DyText {
    /// Neither `0` nor of the form `mbe`.
    NotANumber,
    /// Of that form, but `m` is even, or a zero leads, or the exponent is `-0`.
    NotCanonical,
    /// The number is not kept.
    NotRepresentable,
}
