// What a builder made, as a change of the problem before.
ghost use Rattle.std.specs.Prelude.{◌≤◌, IfOk};
ghost use Rattle.problem_build.specs.Changes.{IsSince, IsWithin};

use crate::script::Ending;
use problem_session::{Change, Kept};
use std::alloc::{AllocError, Global};
use term_build::Builder;

/// What a builder has made since so much of it was there.
pub(crate) fn made_since(
    alloc: Global,
    builder: &Builder,
    kept: Kept,
    end: Ending,
) -> Result<Change, AllocError>
    requires { IsWithin kept builder.now }
    ensures { IfOk result (λ c. IsSince kept builder.now end c) }
{
    let nodes = Vec::from_slice(alloc, &builder.nodes()[kept.nodes..])?;
    let atoms = Vec::from_slice(alloc, &builder.atoms()[kept.atoms..])?;
    let forms = Vec::from_clones(alloc, &builder.forms()[kept.forms..])?;
    Ok(Change::new(kept, nodes, atoms, forms, end.axes, end.root))
}
