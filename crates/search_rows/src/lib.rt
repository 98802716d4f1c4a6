//! Worked rows of the search: its verdicts, the calls of its gate, lemmas that go from worker to worker, and the work on
//! one box. There are tests alone, nothing to call.
#![tactic(auto)]

#[cfg(test)]
mod of_box_worker;
#[cfg(test)]
mod of_gate;
#[cfg(test)]
mod of_solve_core;
#[cfg(test)]
mod searched;
