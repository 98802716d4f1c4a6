// What is kept of a patch.
use crate::lemma::Lemma;
use crate::state::State;
use crate::step::{End, Step};
use std::alloc::Global;

/// A run of rules: where it begins, its steps, the lemmas that its lines quote, in their order, its end, and the
/// state that the steps reach.
#[derive(Drop)]
pub struct KeptPatch {
    pub first: State,
    pub steps: Vec<Step, Global>,
    pub quoted: Vec<Lemma, Global>,
    pub end: Option<End>,
    pub reached: State,
}
