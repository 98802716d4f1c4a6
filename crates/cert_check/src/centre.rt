// The middle of a space, with what a combination needs there.
ghost use Rattle.std.specs.Prelude.{◌≡◌, ◌<◌, ◌≤◌, All, length, IfOk};
ghost use Rattle.cover_model.specs.Narrowed.{enclosures};
ghost use Rattle.plain_eval.specs.Calls.{IsCombined};
ghost use Rattle.plain_eval.specs.Rows.{AreEnclosures};
ghost use Rattle.plain_eval.specs.Upward.{IsUpward};
ghost use Rattle.ival.specs.RowViews.{rows_of};
ghost use Rattle.ival.specs.SpaceViews.{space_of};
ghost use Rattle.cert_check.specs.Serving.{IsCentre};

use dyadic::Dy;
use ival::{Domain, Narrowed, Rows, Space, Truths};
use plain_eval::{Room, Upward, combine_plain, follow};
use poly_graph::{Lits, Problem};
use std::alloc::{AllocError, Global};

/// A space with the enclosures over it, which is moved to the middle of another one, and room for combinations.
#[derive(Drop)]
pub struct Centre {
    pub space: Space,
    pub rows: Rows,
    pub room: Room,
}

// A space of so many axes.
fn blank(alloc: Global, count: usize) -> Result<Space, AllocError>
    ensures { IfOk result (λ s. length (space_of s) ≡ count) }
{
    let mut space = Space::with_capacity(alloc, count)?;
    while space.len() < count {
        space.push(Domain::Bool(Truths::Either));
    }
    Ok(space)
}

impl Centre {
    /// One for the problem, where these rows are the enclosures over some space.
    pub fn new(alloc: Global, problem: &Problem, rows: Rows) -> Result<Centre, AllocError>
        requires { AreEnclosures problem.now.nodes (rows_of rows) }
        ensures { IfOk result (IsCentre problem.now) }
    {
        let space = blank(alloc, problem.axes().len())?;
        let room = Room::new(alloc, problem.graph())?;
        Ok(Centre { space, rows, room })
    }

    /// Leaves of the space, over which the rows are the enclosures, what a combination of marked atoms leaves of it.
    pub fn combine(
        &mut self,
        problem: &Problem,
        upward: &Upward,
        margin: u32,
        lits: &Lits,
        multipliers: &[(u32, Dy)],
        rows: &Rows,
        space: &mut Space,
    ) -> Narrowed
        requires centre { IsCentre problem.now self.old }
        requires upward { IsUpward problem.now.nodes upward.now }
        requires margin { margin ≤ 120 }
        requires lits { length lits.now ≡ length problem.now.atoms }
        requires atoms { All (λ x. x.0 < length problem.now.atoms) multipliers.now }
        requires rows { rows_of rows.now ≡ enclosures (space_of space.old) problem.now.nodes }
        requires axes { length (space_of space.old) ≡ length problem.now.axes }
        ensures narrowed { IsCombined problem.now margin lits.now multipliers.now
            space.old space.new result }
        ensures centre { IsCentre problem.now self.new }
    {
        space.middle(&mut self.space);
        follow(problem.graph(), upward, &self.space, &mut self.rows);
        combine_plain(
            problem,
            margin,
            lits,
            multipliers,
            rows,
            &self.space,
            &self.rows,
            &mut self.room,
            space,
        )
    }
}
