// Turns, until the objective is below a bound, or it is seen that it does not get there.
use crate::factor::factor;
use crate::matrix::{Matrix, zeros};
use crate::program::SemidefiniteProgram;
use crate::residuals::Residuals;
use std::alloc::{AllocError, Global};

/// At most so many turns are made in one run.
const MOST_TURNS: usize = 200;

/// What a row is off by may cost the objective so many times as much.
const REST_WEIGHT: f64 = 2.0;

/// Rows that are off by more together than this are not met.
const MOST_REST: f64 = 1.0;

/// The dual equations hold where none is off by more, and the dual objective is then known up to
/// this.
const DUAL_SLACK: f64 = 1e-6;

/// Below this the matrices are too near to singular ones to go on.
const LEAST_CENTRE: f64 = 1e-11;

/// Steps that are both shorter lead nowhere.
const SHORTEST_STEP: f64 = 1e-6;

/// The part of the way to the boundary that is gone.
const DAMPING: f64 = 0.95;

/// The bounds of the part of the present centre that is aimed at.
const LEAST_PART: f64 = 1e-4;

const MOST_PART: f64 = 0.8;

/// What a run ends with.
#[derive(Clone, Copy, PartialEq, Eq, Debug)]
pub enum Outcome {
    /// The objective is below the bound, by more than twice what the rows are off by together,
    /// which is less than 1.
    Below,
    /// The dual values show that it does not get there, up to rounding.
    NotBelow,
    /// The turns are used up, or rounding lets none go on.
    Unknown,
}

// What the turns of a run share: the complement and its factor, what is left of the rows, and the
// multipliers' step.
#[derive(Drop)]
struct Equations {
    schur: Matrix,
    line: Vec<f64, Global>,
    rests: Vec<f64, Global>,
    multipliers: Vec<f64, Global>,
}

impl Equations {
    // Those of so many rows.
    fn of(alloc: Global, rows: usize) -> Result<Equations, AllocError> {
        let schur = zeros(alloc, rows)?;
        let line = vec![in alloc; 0.0; rows]?;
        let rests = vec![in alloc; 0.0; rows]?;
        let multipliers = vec![in alloc; 0.0; rows]?;
        Ok(Equations {
            schur,
            line,
            rests,
            multipliers,
        })
    }
}

impl Residuals {
    // What is known with these, if it is enough.
    fn outcome(self, below: f64) -> Option<Outcome> {
        if self.rest < MOST_REST && self.objective + REST_WEIGHT * self.rest < below {
            Some(Outcome::Below)
        } else if self.dual_rest < DUAL_SLACK && self.dual_objective > below - DUAL_SLACK {
            Some(Outcome::NotBelow)
        } else if !(self.centre >= LEAST_CENTRE && self.centre < 1e300) {
            Some(Outcome::Unknown)
        } else {
            None
        }
    }
}

// The part of the present centre that is aimed at, by what a step without centre leaves (Mehrotra
// 1992).
fn part_aimed_at(left: f64) -> f64 {
    let part = left * left * left;
    if part > MOST_PART {
        MOST_PART
    } else if part > LEAST_PART {
        part
    } else {
        LEAST_PART
    }
}

impl SemidefiniteProgram {
    // Finds the direction of a turn in two steps: the first tells how much of the centre is kept,
    // and the corrector.
    fn find_corrected(&mut self, equations: &mut Equations, centre: f64) {
        self.begin_direction();
        self.find_direction(
            0.0,
            &equations.schur,
            &equations.rests,
            &mut equations.multipliers,
        );
        let reach = self.reach(1.0);
        let left = self.gap_after(reach) / self.degree() / centre;
        self.find_correctors();
        let aim = part_aimed_at(left) * centre;
        self.find_direction(
            aim,
            &equations.schur,
            &equations.rests,
            &mut equations.multipliers,
        );
    }

    // Makes one turn; what is known after it, if that ends the run.
    fn turn(&mut self, equations: &mut Equations, below: f64) -> Option<Outcome> {
        let residuals = self.find_residuals(&mut equations.rests);
        let outcome = residuals.outcome(below);
        if outcome.is_some() {
            return outcome;
        }
        if !self.invert_duals() {
            return Some(Outcome::Unknown);
        }
        self.find_schur(&mut equations.schur);
        if !factor(&mut equations.schur, &mut equations.line) {
            return Some(Outcome::Unknown);
        }
        self.find_corrected(equations, residuals.centre);
        let reach = self.reach(DAMPING);
        if reach.primal < SHORTEST_STEP && reach.dual < SHORTEST_STEP {
            return Some(Outcome::Unknown);
        }
        self.go(reach, &equations.multipliers);
        None
    }

    // Makes turns until one ends the run.
    fn run_in(&mut self, equations: &mut Equations, turns: usize, below: f64) -> Outcome {
        let turns = if turns < MOST_TURNS {
            turns
        } else {
            MOST_TURNS
        };
        for _ in 0..turns {
            if let Some(outcome) = self.turn(equations, below) {
                return outcome;
            }
            self.turns = self.turns.saturating_add(1);
        }
        Outcome::Unknown
    }

    /// Goes on from the present values for so many turns at most, until the objective is below
    /// the bound, while the rows are met but for a rest.
    pub fn run(&mut self, alloc: Global, turns: usize, below: f64) -> Result<Outcome, AllocError> {
        for block in self.blocks.iter_mut() {
            block.sort();
        }
        let mut equations = Equations::of(alloc, self.rights.len())?;
        Ok(self.run_in(&mut equations, turns, below))
    }
}
