// How much of the first box of a search is done, as far as the numbers of its boxes tell, for people.
use crate::portion::{WHOLE, portion_at};
use std::alloc::{AllocError, Global};
use std::sync::atomic::{AtomicU8, AtomicU32, AtomicU64, Ordering};

/// At most so many branches are followed.
const MOST_BRANCHES: usize = 1_048_577;

/// At most so many workers are followed.
const MOST_WORKERS: usize = 64;

/// A search over a tree of boxes. The root is box 0, and the parts of a box that is split are the next two numbers: an odd
/// one, on which its worker goes on at once, and the even one behind it.
#[derive(Drop)]
pub struct Share {
    // How deep the parts with the numbers 2k - 1 and 2k are.
    depths: Vec<AtomicU8>,
    // Of each worker one more than the box that it ended last, until it begins another.
    ended: Vec<AtomicU32>,
    done: AtomicU64,
}

// The place of a box among the depths.
fn place_of(node: u32) -> usize {
    node.div_ceil(2) as usize
}

impl Share {
    /// No search has begun.
    pub fn new(alloc: Global) -> Result<Share, AllocError> {
        let mut depths = Vec::new(alloc);
        depths.push(AtomicU8::new(0))?;
        for _ in 1..MOST_BRANCHES {
            depths.push(AtomicU8::new(1))?;
        }
        let mut ended = Vec::new(alloc);
        for _ in 0..MOST_WORKERS {
            ended.push(AtomicU32::new(0))?;
        }
        Ok(Share {
            depths,
            ended,
            done: AtomicU64::new(0),
        })
    }

    fn depth_of(&self, node: u32) -> u8 {
        match self.depths.get(place_of(node)) {
            Some(depth) => depth.load(Ordering::SeqCst),
            None => u8::MAX,
        }
    }

    // Nothing of a search is done.
    fn reset(&self) {
        self.done.store(0, Ordering::SeqCst);
        for it in &self.ended {
            it.store(0, Ordering::SeqCst);
        }
    }

    // The worker goes on at this box behind the one that it ended.
    fn go_on(&self, before: u32, node: u32) {
        let depth = self.depth_of(before);
        if node % 2 == 0 {
            let portion = portion_at(u32::from(depth));
            self.done.fetch_add(portion, Ordering::SeqCst);
        } else if let Some(it) = self.depths.get(place_of(node)) {
            it.store(depth.saturating_add(1), Ordering::SeqCst);
        }
    }

    /// A worker begins with a box.
    pub fn begin(&self, worker: u32, node: u32) {
        if node == 0 {
            self.reset();
        } else if let Some(it) = self.ended.get(worker as usize) {
            let before = it.swap(0, Ordering::SeqCst);
            if before > 0 {
                self.go_on(before - 1, node);
            }
        }
    }

    /// A worker has ended work on a box.
    pub fn end(&self, worker: u32, node: u32) {
        if let Some(it) = self.ended.get(worker as usize) {
            it.store(node.saturating_add(1), Ordering::SeqCst);
        }
    }

    /// How much is done, but for boxes that were ended last.
    pub fn done(&self) -> u64 {
        self.done.load(Ordering::SeqCst).min(WHOLE)
    }
}
