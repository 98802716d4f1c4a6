// The search.
use crate::bounds::{Bounds, small};
use crate::descent::{Hill, Slide};
use crate::exact::space_at;
use crate::moves::step;
use crate::scatter::scattered;
use crate::stand::Stand;
use ival::Space;
use poly_graph::{Lits, Problem};
use std::alloc::{AllocError, Global};

/// So many steps are taken before one atom that is left is followed alone.
const STEPS_BEFORE_ALONE: u32 = 3;

/// At most so many axes are searched along.
pub const MOST_AXES: usize = 64;

/// At most so many nodes of terms are evaluated.
pub const MOST_NODES: usize = 1 << 14;

/// At most so many atoms may be missed.
const MOST_MISSED: usize = 512;

/// Where a search starts.
#[derive(Clone, Copy)]
pub enum Start {
    /// In the middle of the box.
    Middle,
    /// At the point of this number in a sequence that is scattered over the box.
    Scattered(u32),
}

/// What a search came to.
#[derive(Drop)]
pub struct Search {
    /// A point within the box at which the form may be sure.
    pub point: Option<Space>,
    /// The sum of the squares of what atoms are missed by where it ended.
    pub missed: f64,
    /// At how many points terms were evaluated; 0 where there was no search.
    pub points: u32,
}

// How long a search goes on, and whether its steps leave atoms that are nearly missed as they are.
#[derive(Clone, Copy)]
struct Manner {
    // at most so many steps are taken
    steps: u32,
    // at most so many of them in a row may take less than three tenths of what is missed; one that takes next to nothing
    // counts as four
    small_steps: u32,
    holds_near: bool,
}

impl Start {
    // Few steps from the middle; more from elsewhere, every other time past atoms that are nearly missed.
    fn manner(self) -> Manner {
        match self {
            Start::Middle => Manner {
                steps: 24,
                small_steps: 6,
                holds_near: false,
            },
            Start::Scattered(number) => Manner {
                steps: 150,
                small_steps: 25,
                holds_near: number % 2 == 0,
            },
        }
    }
}

// How the steps have gone.
#[derive(Clone, Copy)]
struct Pace {
    damping: f64,
    small_steps: u32,
}

impl Pace {
    // After a step that left this share of what was missed.
    fn forwards(self, share: f64) -> Pace {
        let damping = self.damping * 0.2;
        Pace {
            damping: if damping > 1e-9 { damping } else { 1e-9 },
            small_steps: if share < 0.7 {
                0
            } else if share < 0.98 {
                self.small_steps.saturating_add(1)
            } else {
                self.small_steps.saturating_add(4)
            },
        }
    }

    // After a step that led to no better point.
    fn backwards(self) -> Pace {
        Pace {
            damping: self.damping * 10.0,
            small_steps: self.small_steps.saturating_add(1),
        }
    }

    // Whether it is of no use to go on.
    fn is_lost(self, manner: Manner) -> bool {
        self.small_steps > manner.small_steps || self.damping > 1e6
    }
}

// Takes a step from here where it leads to a better point.
fn advance(
    alloc: Global,
    bounds: &Bounds,
    here: Stand,
    pace: Pace,
    manner: Manner,
) -> Result<(Stand, Pace), AllocError> {
    let Some(x) = step(alloc, bounds, &here, pace.damping, manner.holds_near)? else {
        return Ok((here, pace.backwards()));
    };
    let there = Stand::at(alloc, bounds, x)?;
    if there.total < here.total {
        let share = there.total / here.total;
        Ok((there, pace.forwards(share)))
    } else {
        Ok((here, pace.backwards()))
    }
}

// Goes down along the one atom that is missed, after so many points.
fn follow(
    alloc: Global,
    bounds: &Bounds,
    here: Stand,
    atom: usize,
    excess: f64,
    points: u32,
) -> Result<Search, AllocError> {
    let slide = Slide {
        bounds,
        hill: Hill::Term(atom, excess < 0.0),
    };
    let descent = slide.go(alloc, here.x)?;
    let missed = descent.height * descent.height;
    let points = points.saturating_add(descent.points);
    let point = if slide.is_low(descent.height) {
        let there = Stand::at(alloc, bounds, descent.x)?;
        Some(space_at(alloc, bounds, &there)?)
    } else {
        None
    };
    Ok(Search {
        point,
        missed,
        points,
    })
}

// The atom that alone is missed, and by how much.
fn missed_alone(here: &Stand) -> Option<(usize, f64)> {
    if here.missed.len() == 1 {
        Some(here.missed[0])
    } else {
        None
    }
}

// The search that ends here after so many points.
fn ended(alloc: Global, bounds: &Bounds, here: &Stand, points: u32) -> Result<Search, AllocError> {
    let point = if here.is_met(bounds) {
        Some(space_at(alloc, bounds, here)?)
    } else {
        None
    };
    Ok(Search {
        point,
        missed: here.total,
        points,
    })
}

// Takes steps from here on.
fn walk(
    alloc: Global,
    bounds: &Bounds,
    first: Stand,
    manner: Manner,
) -> Result<Search, AllocError> {
    let mut here = first;
    let mut pace = Pace {
        damping: 1e-3,
        small_steps: 0,
    };
    for turn in 0..manner.steps {
        let points = turn.saturating_add(1);
        if here.is_met(bounds) || pace.is_lost(manner) || here.missed.len() > MOST_MISSED {
            return ended(alloc, bounds, &here, points);
        }
        match missed_alone(&here) {
            Some((atom, excess)) if turn >= STEPS_BEFORE_ALONE => {
                return follow(alloc, bounds, here, atom, excess, points);
            }
            _ => {}
        }
        let (next, next_pace) = advance(alloc, bounds, here, pace, manner)?;
        here = next;
        pace = next_pace;
    }
    ended(alloc, bounds, &here, manner.steps)
}

// Nothing is searched.
fn none() -> Search {
    Search {
        point: None,
        missed: 0.0,
        points: 0,
    }
}

/// Searches a point within the box at which the form may be sure, if the atoms are loosened by 2 to the power of minus the
/// bits. Nothing is searched of many axes or terms, nor from a middle where no atom is missed, which leaves Bools alone to be
/// decided.
pub fn search_from(
    alloc: Global,
    problem: &Problem,
    delta_bits: u32,
    lits: &Lits,
    space: &Space,
    start: Start,
) -> Result<Search, AllocError> {
    if space.len() > MOST_AXES || problem.graph().len() > MOST_NODES {
        return Ok(none());
    }
    let bounds = Bounds::of(alloc, problem, lits, space, small(delta_bits))?;
    let x = match start {
        Start::Middle => bounds.middle(alloc)?,
        Start::Scattered(number) => scattered(alloc, &bounds, number)?,
    };
    let first = Stand::at(alloc, &bounds, x)?;
    if !first.is_of_numbers() || first.missed.is_empty() && matches!(start, Start::Middle) {
        return Ok(none());
    }
    walk(alloc, &bounds, first, start.manner())
}
