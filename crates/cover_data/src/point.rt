// Points at which the form is sure.
ghost use Rattle.std.specs.Prelude.{◌≡◌, IfOk};
ghost use Rattle.poly_graph.specs.ProblemViews.{problem_of};
ghost use Rattle.cover_model.specs.Fits.{IsShownAt};
ghost use Rattle.ival.specs.SpaceViews.{space_of};
ghost use Rattle.cover_data.specs.Margins.{loosenings_of};

use crate::margins::Margins;
use ival::Space;
use poly_graph::Problem;
use std::alloc::{AllocError, Global};
use std::marker::Model;

/// A space of one point: the middle of a space, where the form was found to be sure.
#[derive(Drop)]
pub struct Point {
    space: Space,
}

impl Model for Point {
    ghost use Rattle.interval_model.specs.Space as domains;
    ghost use Rattle.ival.specs.SpaceViews.{space_of};

    ghost Value = { domains.Space };

    ghost view = { λ p. space_of p.space };
}

impl Point {
    /// The point of a space at which the form was found to be sure at delta. Problem and margins say of which form.
    pub fn shown(_problem: &Problem, _margins: &Margins, space: Space) -> Point
        requires { IsShownAt (problem_of _problem.now) (loosenings_of _margins.now)
            (space_of space) }
        ensures space { result ≡ space_of space }
        ensures shown { IsShownAt (problem_of _problem.now) (loosenings_of _margins.now) result }
    {
        Point { space }
    }

    /// The space, with one value left to each axis.
    pub fn space(&self) -> &Space
        ensures { space_of result.now ≡ self.now }
    {
        &self.space
    }

    /// The same point in memory of its own.
    pub fn try_clone(&self, alloc: Global) -> Result<Point, AllocError>
        ensures { IfOk result (λ p. p ≡ self.now) }
    {
        let space = self.space.try_clone(alloc)?;
        Ok(Point { space })
    }
}
