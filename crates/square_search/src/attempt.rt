// A set of atoms, tried: turns of its programme, and what was found with few and with more bits.
use crate::expansion::Expanded;
use crate::rest::is_settled;
use crate::rounding::{Proposal, Rounded};
use crate::sides::Sides;
use crate::solution::Solution;
use crate::statement::Statement;
use semidefinite_program::Outcome;
use std::alloc::{AllocError, Global};

/// What is found is rounded to so many bits, one after the other.
const BITS: [i32; 4] = [12, 16, 24, 36];

/// At most so many turns are made.
const MOST_TURNS: usize = 40;

/// The objective is to be below this at first, and then below so many times what it was.
const FIRST_BOUND: f64 = -1e-9;

const FURTHER: f64 = 1.3;

/// A programme, what it found last, and how many of the counts of bits were tried with that.
#[derive(Drop)]
pub struct Attempt {
    statement: Statement,
    solution: Option<Solution>,
    tried: usize,
    bound: f64,
}

impl Attempt {
    /// The attempt with a set of atoms; none where it makes too large a programme.
    pub fn of(
        alloc: Global,
        atoms: &[Expanded],
        set: &[usize],
        sides: &Sides,
    ) -> Result<Option<Attempt>, AllocError> {
        match Statement::of(alloc, atoms, set, sides)? {
            None => Ok(None),
            Some(statement) => Ok(Some(Attempt {
                statement,
                solution: None,
                tried: 0,
                bound: FIRST_BOUND,
            })),
        }
    }

    /// The steps that it took.
    pub fn steps(&self) -> u64 {
        let turns = self.statement.programme.turns() as u64;
        turns.saturating_mul(self.statement.steps)
    }

    // What was found, with the next count of bits; none where that does not do.
    fn next_rounded(&mut self, alloc: Global) -> Result<Option<Proposal>, AllocError> {
        let tried = self.tried;
        self.tried = tried.saturating_add(1);
        match &self.solution {
            Some(solution) if tried < BITS.len() => {
                let rounded = Rounded::of(alloc, &self.statement, solution, BITS[tried])?;
                if is_settled(alloc, &self.statement, &rounded)? {
                    rounded.proposal(alloc, &self.statement)
                } else {
                    Ok(None)
                }
            }
            _ => Ok(None),
        }
    }

    // What was found, with those counts of bits that were not tried.
    fn settled(&mut self, alloc: Global) -> Result<Option<Proposal>, AllocError> {
        for _ in self.tried..BITS.len() {
            let proposal = self.next_rounded(alloc)?;
            if proposal.is_some() {
                return Ok(proposal);
            }
        }
        Ok(None)
    }

    // How many turns may still be made with so many steps.
    fn turns_left(&self, steps: u64) -> usize {
        let turns = MOST_TURNS.saturating_sub(self.statement.programme.turns());
        let affordable = if self.statement.steps > 0 {
            steps / self.statement.steps
        } else {
            steps
        };
        match usize::try_from(affordable) {
            Ok(affordable) => turns.min(affordable),
            Err(_) => turns,
        }
    }

    // Makes turns, with so many steps at most, until the objective is below the bound, and takes over what is found; whether
    // something was.
    fn go_on(&mut self, alloc: Global, steps: u64) -> Result<bool, AllocError> {
        self.solution = None;
        let turns = self.turns_left(steps);
        let outcome = self.statement.programme.run(alloc, turns, self.bound)?;
        if outcome != Outcome::Below {
            return Ok(false);
        }
        self.bound = FURTHER * self.statement.programme.objective();
        self.solution = Solution::of(alloc, &self.statement)?;
        self.tried = 0;
        Ok(true)
    }

    /// The next line to try, with so many steps in all turns; none where nothing more is found.
    pub fn next(&mut self, alloc: Global, most: u64) -> Result<Option<Proposal>, AllocError> {
        for _ in 0..=MOST_TURNS {
            if self.solution.is_some() {
                let proposal = self.settled(alloc)?;
                if proposal.is_some() {
                    return Ok(proposal);
                }
            }
            if !self.go_on(alloc, most.saturating_sub(self.steps()))? {
                return Ok(None);
            }
        }
        Ok(None)
    }
}
