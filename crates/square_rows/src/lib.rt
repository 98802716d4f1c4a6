//! Worked rows of sums of squares: which lines are positive over a box, by hand, and of which boxes the search finds one. There
//! are tests alone, nothing to call.
#![tactic(auto)]

#[cfg(test)]
mod made;
#[cfg(test)]
mod of_square_search;
#[cfg(test)]
mod of_squares;
