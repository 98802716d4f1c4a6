// The parts of variables.
ghost use Rattle.std.specs.Prelude.{◌≡◌, ◌<◌, length};
ghost use Rattle.cover_model.specs.Combination.{apart_range};
ghost use Rattle.ival.specs.Views.{interval_of};
ghost use Rattle.ival.specs.SpaceViews.{space_of};
ghost use Rattle.plain_eval.specs.Calls.{IsPartOfNode, part_left_of, part_range_of};
ghost use Rattle.plain_eval.specs.Suits.{AreFor, AreUnder};

use crate::give::entry;
use crate::quadratic::{left, less, range};
use crate::room::Coefficients;
use ival::{Ival, Space};
use poly_graph::{Graph, Node};

/// A variable's part: the coefficients of its difference to the centre and of that's square.
#[derive(Clone, Copy)]
pub struct Part {
    pub axis: u32,
    pub linear: Ival,
    pub square: Option<Ival>,
}

// By how much the axis may differ from its centre.
fn apart(axis: u32, space: &Space, centre: &Space) -> Ival
    ensures { interval_of result ≡ apart_range (space_of space.now) (space_of centre.now) axis }
{
    less(space.interval(axis), centre.interval(axis))
}

impl Part {
    /// The range of the part.
    pub fn range(self, space: &Space, centre: &Space) -> Ival
        ensures { interval_of result ≡ part_range_of space.now centre.now self }
    {
        range(self.linear, self.square, apart(self.axis, space, centre))
    }

    /// What is left to the variable, where the others have this range.
    pub fn left(self, allowed: Ival, others: Ival, space: &Space, centre: &Space) -> Ival
        ensures { interval_of result ≡ part_left_of space.now centre.now allowed others self }
    {
        let apart = apart(self.axis, space, centre);
        let moved = left(less(allowed, others), self.linear, self.square, apart);
        space
            .interval(self.axis)
            .meet(centre.interval(self.axis).add(moved))
    }
}

/// The part of node n, if it is a variable with a coefficient.
pub fn part_at(n: usize, graph: &Graph, coefficients: &Coefficients) -> Option<Part>
    requires node { n < length graph.now }
    requires count { AreFor graph.now coefficients.now }
    requires under { AreUnder coefficients.now }
    ensures { IsPartOfNode graph.now coefficients.now n result }
{
    prove!(n < graph.len());
    let Node::Var(axis) = graph.node(n as u32) else {
        return None;
    };
    let linear = entry(&coefficients.linear, n)?;
    let square = entry(&coefficients.square, n);
    Some(Part {
        axis,
        linear,
        square,
    })
}
