// How long work is left out that gave nothing before: a heuristic that promises nothing.

/// How long something is left out: for 1, 2, 4 boxes and so on after one where it gave nothing, up to a greatest number.
#[derive(Clone, Copy)]
pub struct Patience {
    most: u32,
    left: u32,
    last: u32,
}

impl Patience {
    /// It is tried at once, and then left out for so many boxes in a row at most.
    pub fn new(most: u32) -> Patience {
        Patience {
            most,
            left: 0,
            last: 0,
        }
    }

    /// Whether it is tried at this box.
    pub fn is_due(&mut self) -> bool {
        if self.left > 0 {
            self.left -= 1;
            return false;
        }
        true
    }

    /// Notes whether it gave something.
    pub fn note(&mut self, has_gained: bool) {
        self.last = if has_gained {
            0
        } else if self.last == 0 {
            1
        } else {
            self.last.saturating_mul(2).min(self.most)
        };
        self.left = self.last;
    }
}
