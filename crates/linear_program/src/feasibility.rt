// Whether the rows can meet their bounds together.
use crate::lists::{at, number_at, set, size};
use crate::tableau::{LinearProgram, SMALLEST};
use std::alloc::{AllocError, Global};

/// After so many steps the least numbers are chosen, which ends all circles (Bland 1977).
const GREEDY_STEPS: u32 = 60;

/// At most so many steps are made.
const MOST_STEPS: u32 = 1000;

/// What is found of a programme.
#[derive(Drop, PartialEq, Debug)]
pub enum Feasibility {
    /// The present values meet all bounds.
    Feasible,
    /// The rows' sum with these multipliers cannot lie where their bounds ask for it.
    Infeasible(Vec<(usize, f64), Global>),
    /// The pivots are used up.
    Unknown,
}

// A basic variable beyond one of its bounds.
#[derive(Clone, Copy)]
struct Violation {
    row: usize,
    is_below: bool,
    by: f64,
}

impl LinearProgram {
    // By how much the variable of a row is beyond its bounds.
    fn violation(&self, row: usize) -> Option<Violation> {
        let variable = number_at(&self.basic, row);
        let value = at(&self.value, variable);
        let slack = SMALLEST * (1.0 + size(value));
        let low = at(&self.low, variable);
        let high = at(&self.high, variable);
        if value < low - slack {
            Some(Violation {
                row,
                is_below: true,
                by: low - value,
            })
        } else if value > high + slack {
            Some(Violation {
                row,
                is_below: false,
                by: value - high,
            })
        } else {
            None
        }
    }

    // Whether the first is to be repaired before the second: the greater one, later the one of the lesser variable.
    fn is_before(&self, first: Violation, second: Violation, greedy: bool) -> bool {
        if greedy {
            first.by > second.by
        } else {
            number_at(&self.basic, first.row) < number_at(&self.basic, second.row)
        }
    }

    // The violation to be repaired next.
    fn next_violation(&self, greedy: bool) -> Option<Violation> {
        let mut next: Option<Violation> = None;
        for row in 0..self.rows.len() {
            if let Some(found) = self.violation(row) {
                let is_next = match next {
                    None => true,
                    Some(other) => self.is_before(found, other, greedy),
                };
                if is_next {
                    next = Some(found);
                }
            }
        }
        next
    }

    // How far the variable of a column may move so that the violation gets less.
    fn room(&self, violation: Violation, c: usize) -> f64 {
        let coefficient = self.coefficient(violation.row, c);
        if size(coefficient) < SMALLEST {
            return 0.0;
        }
        let variable = number_at(&self.nonbasic, c);
        let value = at(&self.value, variable);
        if (coefficient > 0.0) == violation.is_below {
            at(&self.high, variable) - value
        } else {
            value - at(&self.low, variable)
        }
    }

    // The column whose variable repairs most, later that of the least variable; none where none can move.
    fn repairing_column(&self, violation: Violation, greedy: bool) -> Option<usize> {
        let mut best = 0.0;
        let mut chosen: Option<usize> = None;
        for c in 0..self.columns() {
            let room = self.room(violation, c);
            if room > 0.0 {
                let gain = size(self.coefficient(violation.row, c)) * room;
                let gain = if gain > 1e12 { 1e12 } else { gain };
                let is_better = match chosen {
                    None => true,
                    Some(other) if greedy => gain > best && other != c,
                    Some(other) => {
                        number_at(&self.nonbasic, c) < number_at(&self.nonbasic, other)
                    }
                };
                if is_better {
                    best = gain;
                    chosen = Some(c);
                }
            }
        }
        chosen
    }

    // Moves the variable of the column so that the violation ends, or as far as its bounds let it. The repaired variable
    // then stands exactly at its bound: a rest of rounding would leave it room for steps that gain nothing.
    fn repair(&mut self, violation: Violation, c: usize, greedy: bool) {
        let basic = number_at(&self.basic, violation.row);
        let goal = if violation.is_below {
            at(&self.low, basic)
        } else {
            at(&self.high, basic)
        };
        let variable = number_at(&self.nonbasic, c);
        let step = (goal - at(&self.value, basic)) / self.coefficient(violation.row, c);
        let wanted = at(&self.value, variable) + step;
        let low = at(&self.low, variable);
        let high = at(&self.high, variable);
        if greedy && wanted < low {
            self.shift(c, low);
        } else if greedy && wanted > high {
            self.shift(c, high);
        } else {
            self.shift(c, wanted);
            set(&mut self.value, basic, goal);
            self.pivot(violation.row, c);
        }
    }

    /// Looks for values that meet all bounds, from the present ones on.
    pub fn feasibility(&mut self, alloc: Global) -> Result<Feasibility, AllocError> {
        for step in 0..MOST_STEPS {
            let greedy = step < GREEDY_STEPS;
            let Some(violation) = self.next_violation(greedy) else {
                return Ok(Feasibility::Feasible);
            };
            let Some(c) = self.repairing_column(violation, greedy) else {
                let multipliers = self.multipliers(alloc, violation.row)?;
                return Ok(Feasibility::Infeasible(multipliers));
            };
            if !self.take_pivot() {
                return Ok(Feasibility::Unknown);
            }
            self.repair(violation, c, greedy);
        }
        Ok(Feasibility::Unknown)
    }
}
