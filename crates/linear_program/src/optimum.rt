// How far a variable can go.
use crate::lists::{at, number_at, size};
use crate::tableau::{LinearProgram, Place, SMALLEST};
use std::alloc::{AllocError, Global};

/// At most so many turns are made for one optimum.
const MOST_TURNS: u32 = 200;

/// After so many turns the first column that gains is chosen.
const GREEDY_TURNS: u32 = 50;

/// The end towards which a variable goes.
#[derive(Clone, Copy, PartialEq, Eq, Debug)]
pub enum Side {
    Least,
    Greatest,
}

/// How far a variable can go, and the rows' multipliers that show it.
#[derive(Drop, PartialEq, Debug)]
pub struct Optimum {
    pub value: f64,
    pub multipliers: Vec<(usize, f64), Global>,
}

// A move of a column's variable: up by 1.0 or down by -1.0.
#[derive(Clone, Copy)]
struct Move {
    column: usize,
    direction: f64,
}

// What bounds a move: how far it goes, and the row whose variable meets its bound first.
#[derive(Clone, Copy)]
struct Reach {
    room: f64,
    leaving: Option<usize>,
    coefficient: f64,
}

// What to do next for an optimum.
enum Turn {
    Go(Move),
    /// The variable of this row is at its optimum.
    Done(usize),
    /// Nothing is known.
    Stop,
}

impl LinearProgram {
    // Whether the variable is at the end that it goes to.
    fn is_at_end(&self, variable: usize, side: Side) -> bool {
        let end = match side {
            Side::Least => at(&self.low, variable),
            Side::Greatest => at(&self.high, variable),
        };
        size(at(&self.value, variable) - end) <= SMALLEST * (1.0 + size(end))
    }

    // By how much the variable of row r gains where that of the column moves, and in which direction it then moves.
    fn gain(&self, r: usize, c: usize, side: Side) -> (f64, f64) {
        let coefficient = match side {
            Side::Least => self.coefficient(r, c),
            Side::Greatest => -self.coefficient(r, c),
        };
        let variable = number_at(&self.nonbasic, c);
        let value = at(&self.value, variable);
        if coefficient > 0.0 && value > at(&self.low, variable) {
            (coefficient, -1.0)
        } else if coefficient < 0.0 && value < at(&self.high, variable) {
            (-coefficient, 1.0)
        } else {
            (0.0, 0.0)
        }
    }

    // The move by which the variable of row r gains most, or the first by which it gains.
    fn best_move(&self, r: usize, side: Side, greedy: bool) -> Option<Move> {
        let mut best = SMALLEST;
        let mut chosen = None;
        for column in 0..self.columns() {
            let (gain, direction) = self.gain(r, column, side);
            if gain > best && (greedy || chosen.is_none()) {
                best = gain;
                chosen = Some(Move { column, direction });
            }
        }
        chosen
    }

    // What to do next so that the variable goes on.
    fn turn(&self, variable: usize, side: Side, greedy: bool) -> Turn {
        match self.place(variable) {
            None => Turn::Stop,
            Some(Place::Column(_)) if self.is_at_end(variable, side) => Turn::Stop,
            Some(Place::Column(column)) => {
                let direction = match side {
                    Side::Least => -1.0,
                    Side::Greatest => 1.0,
                };
                Turn::Go(Move { column, direction })
            }
            Some(Place::Row(r)) => match self.best_move(r, side, greedy) {
                Some(found) => Turn::Go(found),
                None => Turn::Done(r),
            },
        }
    }

    // How far the basic variable of a row lets the move go.
    fn reach_of_row(&self, r: usize, rate: f64) -> f64 {
        let basic = number_at(&self.basic, r);
        let value = at(&self.value, basic);
        let far = if rate > 0.0 {
            (at(&self.high, basic) - value) / rate
        } else {
            (at(&self.low, basic) - value) / rate
        };
        if far > 0.0 { far } else { 0.0 }
    }

    // How far the move goes: to the bound of its own variable, or to the first bound of a basic one.
    fn reach(&self, step: Move) -> Reach {
        let variable = number_at(&self.nonbasic, step.column);
        let value = at(&self.value, variable);
        let room = if step.direction > 0.0 {
            at(&self.high, variable) - value
        } else {
            value - at(&self.low, variable)
        };
        let mut reach = Reach {
            room,
            leaving: None,
            coefficient: 0.0,
        };
        for r in 0..self.rows.len() {
            let rate = self.coefficient(r, step.column) * step.direction;
            if size(rate) >= SMALLEST {
                let far = self.reach_of_row(r, rate);
                let is_like = far <= reach.room + 1e-12 && reach.leaving.is_some();
                if far < reach.room - 1e-12 || (is_like && size(rate) > reach.coefficient) {
                    reach.room = if far < reach.room { far } else { reach.room };
                    reach.leaving = Some(r);
                    reach.coefficient = size(rate);
                }
            }
        }
        reach
    }

    // Makes a move; whether its length is known.
    fn go(&mut self, step: Move) -> bool {
        let reach = self.reach(step);
        if !(reach.room < 1e300) {
            return false;
        }
        let variable = number_at(&self.nonbasic, step.column);
        let to = at(&self.value, variable) + step.direction * reach.room;
        self.shift(step.column, to);
        if let Some(r) = reach.leaving {
            self.pivot(r, step.column);
        }
        true
    }

    /// How far the variable can go towards this side, from values that meet all bounds on; none where it is there already,
    /// or where nothing is found.
    pub fn optimum(
        &mut self,
        alloc: Global,
        variable: usize,
        side: Side,
    ) -> Result<Option<Optimum>, AllocError> {
        if self.is_at_end(variable, side) {
            return Ok(None);
        }
        for turn in 0..MOST_TURNS {
            match self.turn(variable, side, turn < GREEDY_TURNS) {
                Turn::Stop => return Ok(None),
                Turn::Done(r) => {
                    let multipliers = self.multipliers(alloc, r)?;
                    let value = at(&self.value, variable);
                    return Ok(Some(Optimum { value, multipliers }));
                }
                Turn::Go(step) => {
                    if !self.take_pivot() || !self.go(step) {
                        return Ok(None);
                    }
                }
            }
        }
        Ok(None)
    }

    /// Takes new bounds of the variable, where its present value lies between them.
    pub fn tighten(&mut self, variable: usize, low: f64, high: f64) {
        let value = at(&self.value, variable);
        if variable < self.low.len()
            && variable < self.high.len()
            && low <= value
            && value <= high
        {
            self.low[variable] = low;
            self.high[variable] = high;
        }
    }
}
