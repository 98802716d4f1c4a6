// Points at which the form is sure.
ghost use Rattle.std.specs.Prelude.{IfOk, IfSome};
ghost use Rattle.poly_graph.specs.ProblemViews.{problem_of};
ghost use Rattle.cover_model.specs.Fits.{IsShownAt};
ghost use Rattle.ival.specs.SpaceViews.{space_of};
ghost use Rattle.cover_data.specs.Margins.{AreMargins, loosenings_of};
ghost use Rattle.cover_rule.specs.Middle.{LiesInRoot, IsMiddlePoint};

use crate::truth::midpoint_sure;
use cover_data::{Margins, Point};
use form_truth::Marks;
use ival::{Rows, Space};
use poly_graph::Problem;
use std::alloc::{AllocError, Global};

/// Points that are the middle of a space.
pub trait MiddlePoint: Sized {
    /// The middle of a space that lies within the root space; none exactly where the form is not sure there at
    /// delta. It then lies within delta of the declared box.
    fn of_middle(
        alloc: Global,
        problem: &Problem,
        margins: &Margins,
        space: &Space,
    ) -> Result<Option<Self>, AllocError>
        requires margins { AreMargins margins.now }
        requires space { LiesInRoot (problem_of problem.now) (space_of space.now) };
}

impl MiddlePoint for Point {
    fn of_middle(
        alloc: Global,
        problem: &Problem,
        margins: &Margins,
        space: &Space,
    ) -> Result<Option<Point>, AllocError>
        requires margins { AreMargins margins.now }
        requires space { LiesInRoot (problem_of problem.now) (space_of space.now) }
        ensures middle { let p = problem_of problem.now in
            let s = loosenings_of margins.now in
            IfOk result (λ o. IsMiddlePoint p s (space_of space.now) o) }
        ensures shown { let p = problem_of problem.now in
            let s = loosenings_of margins.now in
            IfOk result (λ o. IfSome o (λ x. IsShownAt p s x)) }
    {
        let nodes = problem.graph().len();
        let mut rows = Rows::new(alloc, nodes)?;
        let mut marks = Marks::new(alloc, problem)?;
        let mut middle = space.try_clone(alloc)?;
        if midpoint_sure(
            problem,
            space,
            margins.delta_bits,
            &mut middle,
            &mut rows,
            &mut marks,
        ) {
            Ok(Some(Point::shown(problem, margins, middle)))
        } else {
            Ok(None)
        }
    }
}
