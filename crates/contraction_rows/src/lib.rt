//! Worked rows of what contracts and chooses: the search's passes against the checker's own arithmetic, on small graphs,
//! and ends that were computed by hand; clauses and the trail over them; linear programmes whose answers were worked out by
//! hand, and points that a local search finds; least widths. There are tests alone, nothing to call; that the passes meet
//! their definitions is what their contracts say.
#![tactic(auto)]

#[cfg(test)]
mod bench;
#[cfg(test)]
mod graphs;
#[cfg(test)]
mod of_clause_search;
#[cfg(test)]
mod of_cnf_build;
#[cfg(test)]
mod of_form_truth;
#[cfg(test)]
mod of_hc4;
#[cfg(test)]
mod of_linear_program;
#[cfg(test)]
mod of_narrowing;
#[cfg(test)]
mod of_point_search;
#[cfg(test)]
mod of_poly_graph;
#[cfg(test)]
mod of_width_plan;
#[cfg(test)]
mod problems;
