// Nodes that are due, the last first.
use std::alloc::{AllocError, Global};

/// By bits, 64 a word, which nodes are due.
#[derive(Drop)]
pub struct DueNodes {
    words: Vec<u64, Global>,
}

impl DueNodes {
    /// None of so many.
    pub fn of(alloc: Global, count: usize) -> Result<DueNodes, AllocError> {
        Ok(DueNodes {
            words: vec![in alloc; 0; count / 64 + 1]?,
        })
    }

    /// The node is due.
    pub fn add(&mut self, n: u32) {
        let word = n as usize / 64;
        if word < self.words.len() {
            self.words[word] |= 1 << (n % 64);
        }
    }

    /// The last node among those of this word that are due, which it is no more.
    pub fn take(&mut self, word: usize) -> Option<usize> {
        if word >= self.words.len() || self.words[word] == 0 {
            return None;
        }
        let bit = 63_u32.saturating_sub(self.words[word].leading_zeros());
        self.words[word] ^= 1_u64.wrapping_shl(bit);
        Some(word.saturating_mul(64).saturating_add(bit as usize))
    }
}
