//! Worked rows of numbers and intervals: results computed elsewhere with exact fractions.
#![tactic(auto)]

#[cfg(test)]
mod of_dyadic;
#[cfg(test)]
mod of_ival;
