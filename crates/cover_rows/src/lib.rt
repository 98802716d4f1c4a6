//! Worked rows from the text of a script to the text of a certificate: patches and their refusals, combinations, squares,
//! points, books, and the states that the checker keeps. There are tests alone, nothing to call.
#![tactic(auto)]

#[cfg(test)]
mod books;
#[cfg(test)]
mod cases;
#[cfg(test)]
mod ends_by_squares;
#[cfg(test)]
mod made;
#[cfg(test)]
mod many_atoms;
#[cfg(test)]
mod of_cert_check;
#[cfg(test)]
mod of_combine;
#[cfg(test)]
mod of_groups;
#[cfg(test)]
mod patches;
#[cfg(test)]
mod points;
#[cfg(test)]
mod reopened;
#[cfg(test)]
mod shared;
