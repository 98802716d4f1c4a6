//! Worked rows of what threads share: the book under its lock, the pool of hands, the shelf of
//! lemmas.
#![tactic(auto)]

#[cfg(test)]
mod made;
#[cfg(test)]
mod of_book_lock;
#[cfg(test)]
mod of_lemma_shelf;
#[cfg(test)]
mod of_steal_pool;
#[cfg(test)]
mod one_seat;
#[cfg(test)]
mod swapped;
