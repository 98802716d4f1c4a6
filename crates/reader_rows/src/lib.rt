//! Worked rows of the reader: a text, its commands, sorts, bounds and problem, or its first fault.
#![tactic(auto)]

#[cfg(test)]
mod of_declared_box;
#[cfg(test)]
mod of_problem_build;
#[cfg(test)]
mod of_session;
#[cfg(test)]
mod of_smt_script;
#[cfg(test)]
mod of_smt_sexp;
#[cfg(test)]
mod of_sort_check;
#[cfg(test)]
mod of_term_build;
