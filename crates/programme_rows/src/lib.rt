//! Worked rows of semidefinite programmes: least values that were worked out by hand or are known from books. There are
//! tests alone, nothing to call; the crates that they try promise nothing.
#![tactic(auto)]

#[cfg(test)]
mod of_programmes;
#[cfg(test)]
mod table;
