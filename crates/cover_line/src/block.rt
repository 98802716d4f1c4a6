// Blocks of squares.
use dyadic::Dy;

/// What the squares of a block are times.
#[derive(Clone, Copy, Debug, PartialEq, Eq)]
pub enum Factor {
    /// 1.
    One,
    /// `h - d^2`, where `d` is the difference of this axis to the centre, and `h` the greatest of `d^2`.
    BoundOf(u32),
}

/// Squares of polynomials in the differences of axes to the centre.
#[derive(Debug, Drop, PartialEq, Eq)]
pub struct Block {
    pub factor: Factor,
    /// Each has its axes, one for each factor.
    pub monomials: Vec<Vec<u32>>,
    /// Row k has the coefficients of polynomial k, of monomial k and those after it.
    pub rows: Vec<Vec<Dy>>,
}
