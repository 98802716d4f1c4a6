//! What is proved of the definitions: each function here does nothing, and its contract is a law.

ghost use Rattle.square_model.specs.Laws.{PolynomialsEnclose, RangesHold, SquaresAreNotNegative, PositiveIsSound};

/// At each point the polynomial of a term about a centre encloses the term's value.
pub fn polynomials_enclose()
    ensures { PolynomialsEnclose }
{}

/// The range of a polynomial over a space holds what the polynomial encloses at a point of the space.
pub fn ranges_hold()
    ensures { RangesHold }
{}

/// At each point of the space a block's polynomial encloses a number that is not negative.
pub fn squares_are_not_negative()
    ensures { SquaresAreNotNegative }
{}

/// Where the condition holds, the space has no point at which each atom's value lies in its range.
pub fn positive_is_sound()
    ensures { PositiveIsSound }
{}
