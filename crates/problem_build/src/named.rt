// The names of the top that the first commands of a script bind.
ghost use Rattle.std.specs.Prelude.{◌≡◌, ◌≤◌, ◌∷◌, [], ◌++◌, List, None, IfOk, OnOk, length, take};
ghost use Rattle.script_model.specs.Script as model;
ghost use Rattle.smt_script.specs.Views.{command_of, commands_in};
ghost use Rattle.smt_sexp.specs.declared.sexps.Sexps as arena;
ghost use Rattle.sort_check.specs.Sorts.{sort_fault};
ghost use Rattle.problem_build.specs.Standing.{IsNamed};

use crate::top::{Known, Top, TopTable};
use smt_script::{Command, Script};
use std::alloc::{AllocError, Global};

/// The names of the top, and how many constants are among them.
#[derive(Drop)]
pub(crate) struct Named<'p, 'a> {
    pub(crate) top: TopTable<'p, 'a>,
    pub(crate) axis: u32,
}

impl<'p, 'a> Named<'p, 'a> {
    // No command binds a name.
    fn new(alloc: Global) -> Self
        ensures { (s : arena.Sexps) → IsNamed s [] result.top result.axis }
    {
        Named {
            top: TopTable::new(alloc),
            axis: 0,
        }
    }

    /// Adds the name that a command binds.
    pub(crate) fn add(&mut self, command: &'p Command<'a>) -> Result<(), AllocError>
        requires few { self.old.axis ≤ 1024 }
        ensures { (s : arena.Sexps) (script : List model.Command) →
            IsNamed s script self.old.top self.old.axis →
            OnOk result (IsNamed s (script ++ (command_of s command.now ∷ []))
            self.new.top self.new.axis) }
    {
        match command {
            Command::Declare(_, name, sort) => {
                self.top.push(Top {
                    name: *name,
                    known: Known::Constant(self.axis, *sort),
                })?;
                self.axis += 1;
                Ok(())
            }
            Command::Define(_, name, parameters, _, body) => {
                self.top.push(Top {
                    name: *name,
                    known: Known::Function(parameters.as_slice(), *body),
                })?;
                Ok(())
            }
            Command::Assert(_, _) => Ok(()),
            Command::Minimize(_, _) => Ok(()),
            Command::Check(_) => Ok(()),
            Command::Ineffective(_) => Ok(()),
        }
    }
}

/// The names that the first commands of a script bind, so many.
pub(crate) fn first_names<'p, 'a>(
    alloc: Global,
    script: &'p Script<'a>,
    count: usize,
) -> Result<Named<'p, 'a>, AllocError>
    requires within { count ≤ length script.now.commands.items }
    requires sorted { sort_fault (commands_in script.now) ≡ None }
    ensures { IfOk result (λ named. IsNamed script.now.sexps.now
        (take count (commands_in script.now)) named.top named.axis) }
{
    let mut named = Named::new(alloc);
    let mut rest = &script.commands[..count];
    while let [command, later @ ..] = rest {
        named.add(command)?;
        rest = later;
    }
    Ok(named)
}
