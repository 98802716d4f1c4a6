// Room for work on states.
ghost use Rattle.std.specs.Prelude.{◌≡◌, length, vec_len, IfOk};
ghost use Rattle.cover_model.specs.Narrowed.{enclosures};
ghost use Rattle.ival.specs.RowViews.{rows_of};
ghost use Rattle.ival.specs.SpaceViews.{space_of};
ghost use Rattle.cover_rule.specs.Serves.{HasCentreRoom};

use crate::voiding::Voiding;
use combine::Room;
use form_truth::Marks;
use hc4::fill;
use ival::{Rows, Space};
use poly_graph::Problem;
use std::alloc::{AllocError, Global};

/// The middle of a space, and the enclosures over it.
#[derive(Drop)]
pub struct Centre {
    /// The middle of the present space, where it is known, or else perhaps that of an earlier one.
    pub middle: Space,
    /// The enclosures over it, where it is filled.
    pub rows: Rows,
    /// Whether the rows are the enclosures over it.
    pub filled: bool,
    /// Whether it is known.
    pub known: bool,
}

/// Rows, marks and spaces for work on the states of one problem. Made once, it serves one patch after another: its rows
/// follow from the space of one state to that of the next.
#[derive(Drop)]
pub struct Workspace {
    /// The enclosures over the space of the present state.
    pub rows: Rows,
    /// Rows for whatever else is enclosed.
    pub scratch: Rows,
    /// A truth value for each node of the form.
    pub marks: Marks,
    /// A copy of the present space, to be narrowed.
    pub spare: Space,
    /// The middle of the present space.
    pub centre: Centre,
    /// Room for combinations of atoms.
    pub room: Room,
    /// Of each atom whether narrowing by it is known to leave something of the present space.
    pub leaves: Vec<bool, Global>,
    /// Whether the form is known not to be sure at the middle of the present space.
    pub unsure: bool,
    /// A combination that is known to leave nothing of the present space.
    pub voiding: Voiding,
}

// Rows for the problem's terms, which are not filled yet.
fn empty_rows(alloc: Global, problem: &Problem) -> Result<Rows, AllocError>
    ensures { IfOk result (λ r. length (rows_of r) ≡ length problem.now.nodes) }
{
    Rows::new(alloc, problem.graph().len())
}

// The enclosures of the problem's terms over the space.
fn rows_over(alloc: Global, problem: &Problem, space: &Space) -> Result<Rows, AllocError>
    ensures { IfOk result (λ r. rows_of r ≡ enclosures (space_of space.now) problem.now.nodes) }
{
    let graph = problem.graph();
    let mut rows = Rows::new(alloc, graph.len())?;
    fill(graph, space, &mut rows);
    Ok(rows)
}

// A flag for each atom, none of them set.
fn no_flags(alloc: Global, problem: &Problem) -> Result<Vec<bool, Global>, AllocError>
    ensures { IfOk result (λ v. vec_len v ≡ length problem.now.atoms) }
{
    Ok(vec![in alloc; false; problem.atoms().len()]?)
}

// Room for the middle of a space of the problem, which is not filled yet.
fn room_for_centre(alloc: Global, problem: &Problem, space: &Space) -> Result<Centre, AllocError>
    requires { length (space_of space.now) ≡ length problem.now.axes }
    ensures { IfOk result (HasCentreRoom problem.now) }
{
    let middle = space.try_clone(alloc)?;
    let rows = empty_rows(alloc, problem)?;
    Ok(Centre {
        middle,
        rows,
        filled: false,
        known: false,
    })
}

impl Workspace {
    ghost use Rattle.cover_rule.specs.Serves.{IsFilled};

    /// Room for the problem, filled over a space of it.
    pub fn new(alloc: Global, problem: &Problem, space: &Space) -> Result<Workspace, AllocError>
        requires { length (space_of space.now) ≡ length problem.now.axes }
        ensures { IfOk result (IsFilled problem.now) }
    {
        let rows = rows_over(alloc, problem, space)?;
        let scratch = empty_rows(alloc, problem)?;
        let marks = Marks::new(alloc, problem)?;
        let spare = space.try_clone(alloc)?;
        let centre = room_for_centre(alloc, problem, space)?;
        let room = Room::new(alloc, problem)?;
        let leaves = no_flags(alloc, problem)?;
        Ok(Workspace {
            rows,
            scratch,
            marks,
            spare,
            centre,
            room,
            leaves,
            unsure: false,
            voiding: Voiding::new(alloc),
        })
    }
}
