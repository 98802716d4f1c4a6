// What the covers of a certificate leave, for people.
use crate::portion::portion_at;
use cover_line::Word;
use std::alloc::AllocError;
use std::fs;
use std::io::{self, BufRead, BufReader};

/// How many boxes a cover leaves open or stuck, and how much of its first box is closed.
#[derive(Clone, Copy)]
pub struct Left {
    pub boxes: u64,
    pub closed: u64,
}

// A walk through the trees of a certificate, line by line.
#[derive(Drop)]
struct Walk {
    // The depths of the upper parts that wait.
    waiting: Vec<u32>,
    depth: u32,
    is_in_tree: bool,
    left: Left,
}

impl Walk {
    // Begins the main tree of a cover.
    fn begin(&mut self) {
        self.waiting.truncate(0);
        self.depth = 0;
        self.is_in_tree = true;
        self.left = Left {
            boxes: 0,
            closed: 0,
        };
    }

    fn branch(&mut self) -> Result<(), AllocError> {
        self.depth = self.depth.saturating_add(1);
        self.waiting.push(self.depth)?;
        Ok(())
    }

    // Goes on with the part that waits, behind a leaf.
    fn leave(&mut self) {
        self.depth = self.waiting.pop().unwrap_or(0);
    }

    fn close(&mut self) {
        self.left.closed = self.left.closed.saturating_add(portion_at(self.depth));
        self.leave();
    }

    fn take(&mut self, word: &str) -> Result<(), AllocError> {
        match Word::spelled(word.as_bytes()) {
            Some(Word::Cut | Word::Flip | Word::Case | Word::Either) => self.branch()?,
            Some(Word::Void(_) | Word::Squares | Word::False | Word::By | Word::Empty) =>
                self.close(),
            Some(Word::Open | Word::Stuck) => {
                self.left.boxes = self.left.boxes.saturating_add(1);
                self.leave();
            }
            Some(Word::Narrow(_) | Word::Unit | Word::Ban) => {}
            None if word == "over" => self.close(),
            None => {}
        }
        Ok(())
    }
}

// The first word of a line.
fn first_word(line: &str) -> &str {
    match line.split_once(' ') {
        Some((word, _)) => word,
        None => line,
    }
}

/// What the cover of the check with this number, from 0 on, leaves in a certificate's file; none where it is a point, or
/// where there is no such cover. The certificate is taken for one that a run has written.
pub fn left_in(rt: &HostRuntime, name: &str, check: usize) -> Result<Option<Left>, io::Error> {
    let mut walk = Walk {
        waiting: Vec::new(rt.alloc()),
        depth: 0,
        is_in_tree: false,
        left: Left {
            boxes: 0,
            closed: 0,
        },
    };
    let mut ended = 0usize;
    for line in BufReader::new(rt.alloc(), fs::open(rt, name)?)?.lines(rt.alloc()) {
        let line = line?;
        let word = first_word(&line);
        if word == "tree" {
            walk.begin();
        } else if word != "end" {
            walk.take(word)?;
        } else if ended == check {
            break;
        } else {
            walk.is_in_tree = false;
            ended = ended.saturating_add(1);
        }
    }
    Ok(if walk.is_in_tree {
        Some(walk.left)
    } else {
        None
    })
}
