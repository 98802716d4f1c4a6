// The work on a problem without axes and atoms, whose form is true.
ghost use Rattle.std.specs.Prelude.{◌≡◌, []};

use box_worker::*;
use cover_data::State;
use ival::Space;
use poly_graph::{Lits, Problem};
use sample_problems::{USUAL, smallest};
use std::alloc::{AllocError, Global};
use std::test::Fail;

// The work on its one state.
fn work(alloc: Global, problem: &Problem) -> Result<Worked, AllocError>
    requires axes { problem.now.axes ≡ [] }
    requires atoms { problem.now.atoms ≡ [] }
{
    let space = Space::with_capacity(alloc, 0)?;
    let lits = Lits::new(alloc, 0)?;
    let mut room = Room::new(problem);
    work_in(alloc, &mut room, &USUAL, State::new(space, lits), &[])
}

// Whether it finds the point of no axes.
fn is_sure(worked: &Worked) -> bool {
    match worked {
        Worked::Point(point) => point.space().len() == 0,
        Worked::Patch(_) | Worked::Closed(_, _) => false,
    }
}

#[test]
fn a_true_form_is_sure_at_once(rt: HostRuntime) -> Result<(), Fail> {
    let problem = smallest(rt.alloc())?;
    let worked = work(rt.alloc(), &problem)?;
    assert!(rt; is_sure(&worked));
    Ok(())
}
