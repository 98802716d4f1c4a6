// What a goal is worth, and what atoms miss, as one height: an augmented Lagrangian.
use crate::bounds::Bounds;
use crate::costs::excess_over;
use crate::matrix::add_multiple;
use crate::moves::gradient;
use floats::size;
use std::alloc::{AllocError, Global};

/// How stiff the hold of atoms is at first.
const SOFTEST: f64 = 10.0;

/// Atoms are held so many times as stiffly where they are not missed by half as much as before.
const STIFFER: f64 = 10.0;

// An atom that is to hold, what its term is multiplied by, and how it is pushed.
#[derive(Clone, Copy)]
struct Hold {
    atom: usize,
    scale: f64,
    push: f64,
}

/// The term of a goal, with what it costs to miss the atoms that are to hold.
#[derive(Drop)]
pub struct Lagrangian {
    goal: usize,
    scale: f64,
    least_fall: f64,
    holds: Vec<Hold, Global>,
    stiffness: f64,
}

/// By how much atoms are missed, or held more than they need: of the terms as they are scaled, and as they are.
#[derive(Clone, Copy)]
pub struct Slack {
    pub scaled: f64,
    pub plain: f64,
}

// What makes the steepest slope at most 1.
fn scale_of(slopes: &[f64]) -> f64 {
    let mut steepest = 1.0;
    for slope in slopes {
        if size(*slope) > steepest {
            steepest = size(*slope);
        }
    }
    1.0 / steepest
}

// The atoms that are to hold, scaled by their slopes.
fn holds_of(
    alloc: Global,
    bounds: &Bounds,
    values: &[f64],
    atoms: &[bool],
) -> Result<Vec<Hold, Global>, AllocError> {
    let mut holds = Vec::new(alloc);
    for atom in 0..atoms.len() {
        if atoms[atom] {
            let slopes = gradient(alloc, bounds, values, atom)?;
            holds.push(Hold {
                atom,
                scale: scale_of(&slopes),
                push: 0.0,
            })?;
        }
    }
    Ok(holds)
}

impl Lagrangian {
    /// That of a goal, the term of an atom, where the terms have these values and these atoms are to hold. A fall of the
    /// goal by less than `least_fall` counts as none.
    pub fn of(
        alloc: Global,
        bounds: &Bounds,
        values: &[f64],
        goal: usize,
        least_fall: f64,
        atoms: &[bool],
    ) -> Result<Lagrangian, AllocError> {
        let slopes = gradient(alloc, bounds, values, goal)?;
        let scale = scale_of(&slopes);
        Ok(Lagrangian {
            goal,
            scale,
            least_fall: scale * least_fall,
            holds: holds_of(alloc, bounds, values, atoms)?,
            stiffness: SOFTEST,
        })
    }

    /// How many atoms are to hold.
    pub fn len(&self) -> usize {
        self.holds.len()
    }

    /// A fall by less than this counts as none.
    pub fn least_fall(&self) -> f64 {
        self.least_fall
    }

    // How an atom is pushed where the terms have these values.
    fn push(&self, bounds: &Bounds, values: &[f64], hold: Hold) -> f64 {
        let value = hold.scale * bounds.term_value(values, hold.atom);
        excess_over(bounds, hold.atom, hold.push + self.stiffness * value)
    }

    /// The height where the terms have these values.
    pub fn height(&self, bounds: &Bounds, values: &[f64]) -> f64 {
        let mut squares = 0.0;
        for hold in &self.holds {
            let push = self.push(bounds, values, *hold);
            squares += push * push;
        }
        self.scale * bounds.term_value(values, self.goal) + squares / (2.0 * self.stiffness)
    }

    /// Its slopes along the axes.
    pub fn slopes(
        &self,
        alloc: Global,
        bounds: &Bounds,
        values: &[f64],
    ) -> Result<Vec<f64, Global>, AllocError> {
        let mut slopes = vec![in alloc; 0.0; bounds.sides.len()]?;
        let goal = gradient(alloc, bounds, values, self.goal)?;
        add_multiple(&mut slopes, self.scale, &goal);
        for hold in &self.holds {
            let push = self.push(bounds, values, *hold);
            if push != 0.0 {
                let atom = gradient(alloc, bounds, values, hold.atom)?;
                add_multiple(&mut slopes, push * hold.scale, &atom);
            }
        }
        Ok(slopes)
    }

    /// The greatest slack of an atom.
    pub fn slack(&self, bounds: &Bounds, values: &[f64]) -> Slack {
        let mut scaled = 0.0;
        let mut plain = 0.0;
        for hold in &self.holds {
            let own = size(self.push(bounds, values, *hold) - hold.push) / self.stiffness;
            if own > scaled {
                scaled = own;
            }
            if own / hold.scale > plain {
                plain = own / hold.scale;
            }
        }
        Slack { scaled, plain }
    }

    /// Pushes each atom as it is pushed where the terms have these values.
    pub fn learn(&mut self, bounds: &Bounds, values: &[f64]) {
        for k in 0..self.holds.len() {
            let hold = self.holds[k];
            let push = self.push(bounds, values, hold);
            self.holds[k] = Hold { push, ..hold };
        }
    }

    /// Holds the atoms more stiffly.
    pub fn stiffen(&mut self) {
        self.stiffness *= STIFFER;
    }
}
