// The root space of a problem without axes, and the truth of its form there.
ghost use Rattle.std.specs.Prelude.{◌≡◌, []};

use form_truth::*;
use ival::{Rows, Space};
use poly_graph::{Lits, Problem};
use sample_problems::smallest;
use std::alloc::Global;

// Whether the form may hold, and whether it surely does.
#[tactic(auto, using(crate::proofs::Smallest::no_rows, crate::proofs::Smallest::no_marks))]
fn truths(alloc: Global, problem: &Problem, space: &Space) -> Option<(bool, bool)>
    requires nodes { problem.now.nodes ≡ [] }
    requires atoms { problem.now.atoms ≡ [] }
{
    let rows = Rows::new(alloc, 0).ok()?;
    let lits = Lits::new(alloc, 0).ok()?;
    let mut marks = Marks::new(alloc, problem).ok()?;
    let maybe = may(problem, &rows, space, &lits, 20, &mut marks);
    let surely = sure(problem, &rows, space, 20, &mut marks);
    Some((maybe, surely))
}

// The truths in the root space, which is to have no axes.
fn in_root_space(alloc: Global) -> Option<(bool, bool)> {
    let problem = smallest(alloc).ok()?;
    match root_space(alloc, &problem) {
        Ok(Root::Space(space)) if space.len() == 0 => truths(alloc, &problem, &space),
        _ => None,
    }
}

#[test]
fn a_true_form_holds_in_the_root_space(rt: HostRuntime) {
    assert_eq!(rt; in_root_space(rt.alloc()), Some((true, true)));
}
