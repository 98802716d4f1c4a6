// The declared constants of a script.
ghost use Rattle.std.specs.Prelude.{◌≡◌, [], map, IfOk};
ghost use Rattle.script_model.specs.Script.{constants_of};
ghost use Rattle.script_roots.specs.TreeBounds.{axes_from};
ghost use Rattle.smt_script.specs.Views.{commands_in};
ghost use Rattle.root_rewriting.specs.Constants.{constant_of};
ghost use Rattle.root_rewriting.specs.Shapes.{KnowsAxes};

use crate::range::shapes::{Shape, constant_shape};
use script_fault::{Name, Place};
use smt_script::{Command, Script, Sort};
use std::alloc::{AllocError, Global};
use std::collections::HashMap;

/// A declared constant, with the place of the command that declares it.
#[derive(Clone, Copy, Debug)]
pub(crate) struct Constant<'a> {
    pub(crate) place: Place,
    pub(crate) name: &'a Name,
    pub(crate) sort: Sort,
}

/// The declared constants of a script, in order.
pub(crate) fn constants<'a>(
    alloc: Global,
    script: &Script<'a>,
) -> Result<Vec<Constant<'a>>, AllocError>
    ensures { IfOk result (λ cs.
        map constant_of cs.items ≡ constants_of (commands_in script.now)) }
{
    let commands = script.commands.as_slice();
    let mut constants = Vec::new(alloc);
    for command in commands {
        if let Command::Declare(place, name, sort) = command {
            constants.push(Constant {
                place: *place,
                name: *name,
                sort: *sort,
            })?;
        }
    }
    Ok(constants)
}

/// The shapes of constants, by name.
pub(crate) fn axes<'a>(
    alloc: Global,
    constants: &[Constant<'a>],
) -> Result<HashMap<&'a [u8], Shape>, AllocError>
    ensures { IfOk result (λ m.
        KnowsAxes m (axes_from 0 [] (map constant_of constants.now))) }
{
    let mut axes = HashMap::new(alloc);
    for (axis, constant) in constants.iter().enumerate() {
        axes.insert(
            constant.name.as_slice(),
            constant_shape(axis, constant.sort),
        )?;
    }
    Ok(axes)
}
