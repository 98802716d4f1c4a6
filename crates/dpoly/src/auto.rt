// `--workers auto`: as many workers as there are processors at hand. What is promised is promised of the number.
use std::alloc::{AllocError, Global};
use std::thread::{Threads, available_parallelism};

// The most workers that a run has.
const MOST_WORKERS: usize = 64;

// How many processors this process may use, by its affinity and its quota, and at most so many as a run has workers; 1
// where that is not known.
fn processors<R: Threads>(rt: &R) -> usize {
    match available_parallelism(rt) {
        Ok(count) => count.get().min(MOST_WORKERS),
        Err(_) => 1,
    }
}

/// Puts the number of processors at hand in the place of `auto` as the number of workers.
pub fn resolve_workers<R: Threads>(
    rt: &R,
    alloc: Global,
    words: &mut [String],
) -> Result<(), AllocError> {
    let mut is_due = false;
    for word in words.iter_mut() {
        if word.as_str() == "--" {
            return Ok(());
        }
        if is_due && word.as_str() == "auto" {
            *word = processors(rt).to_string(alloc)?;
        } else if word.as_str() == "--workers=auto" {
            let count = processors(rt);
            *word = format!(in alloc; "--workers={count}")?;
        }
        is_due = word.as_str() == "--workers";
    }
    Ok(())
}
