// What an accepted certificate says.
use cert_check::Verdict;
use dyadic::{Dy, Ext};

/// A lower bound of a goal, and where there is a point, an upper one.
#[derive(Clone, Copy, Debug, PartialEq, Eq)]
pub struct Least {
    /// The bits of the margin of the cover.
    pub margin: u32,
    /// The bits of the delta of the point.
    pub delta: u32,
    /// No point that meets the form at the margin has a lesser value of the goal; none for minus infinity.
    pub lower: Option<Dy>,
    /// The upper end of the goal's enclosure over the point.
    pub upper: Option<Ext>,
}

/// What an accepted certificate of a script with a goal says.
#[derive(Clone, Copy, Debug, PartialEq, Eq)]
pub enum GoalVerdict {
    /// Of its check.
    Check(Verdict),
    /// Of its least value.
    Least(Least),
}
