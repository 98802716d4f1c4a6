// The forms of assertions.
ghost use Rattle.std.specs.Prelude.{◌≡◌, ◌<◌, [], length};
ghost use Rattle.term_build.specs.Calls.{drawn};
ghost use Rattle.term_build.specs.Sketch.{IsSketch};
ghost use Rattle.value_build.specs.Claiming.{ClaimsBool, ClaimsReal};

use crate::operate::{give_up, no_bounds};
use declared_box::BoundTable;
use poly_graph::FormNode;
use std::alloc::Global;
use term_build::{Builder, SketchNode, Stop, make_form};

/// The form of a Bool assertion, whose truth is this node of the sketch: its node, with the number of its list.
pub(crate) fn claim_bool(
    alloc: Global,
    builder: &mut Builder,
    sketch: &mut Vec<SketchNode>,
    truth: u32,
    list: u32,
) -> Result<(u32, u32), Stop>
    requires sketched { IsSketch builder.old (drawn sketch.old) }
    requires truth { truth < length sketch.old.items }
    ensures does { ClaimsBool builder.old builder.new (drawn sketch.old) truth list result }
    ensures empty { drawn sketch.new ≡ [] }
    ensures sorts { builder.new.sorts ≡ builder.old.sorts }
{
    let made = make_form(alloc, builder, sketch, truth);
    give_up(sketch);
    match made {
        Ok(form) => Ok((form, list)),
        Err(stop) => Err(stop),
    }
}

/// That of a Real one, which no script has: it does not hold, and gives no bounds.
pub(crate) fn claim_real(
    alloc: Global,
    builder: &mut Builder,
    bounds: &mut BoundTable,
) -> Result<(u32, u32), Stop>
    ensures does { ClaimsReal builder.old builder.new bounds.old bounds.new result }
    ensures sorts { builder.new.sorts ≡ builder.old.sorts }
{
    let form = builder.form(FormNode::False)?;
    let list = no_bounds(alloc, bounds)?;
    Ok((form, list))
}
