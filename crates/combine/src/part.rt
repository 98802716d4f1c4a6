// A variable's part of an expansion.
use ival::Ival;

/// The part of a variable: the coefficients of its difference to the centre and of that's square, with its ranges.
#[derive(Clone, Copy)]
pub struct Part {
    pub axis: u32,
    pub linear: Ival,
    pub square: Option<Ival>,
    /// What is left to the axis.
    pub own: Ival,
    /// The differences of what is left to the axis to its centre.
    pub apart: Ival,
    pub range: Ival,
    /// The range of all parts after this one.
    pub after: Ival,
}
