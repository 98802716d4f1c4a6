// The script that is made.
ghost use Rattle.std.specs.Prelude.{◌≡◌, ◌++◌, IfOk, OnOk, map};
ghost use Rattle.root_rewriting.specs.Placing.{placed_command};
ghost use Rattle.root_rewriting.specs.Rewriting.{commands_of, declared_command, introduced_command};
ghost use Rattle.smt_script.specs.Views.{command_of, commands_in};
ghost use Rattle.smt_sexp.specs.declared.sexps.Sexps as arena;

use crate::placed::Placed;
use script_fault::{Name, Place};
use smt_script::{Command, Script, Sort};
use smt_sexp::Sexps;
use std::alloc::{AllocError, Global};

// A constant that a script declares.
#[derive(Clone, Copy, Debug)]
pub(crate) struct Declared<'a> {
    pub(crate) place: Place,
    pub(crate) name: &'a Name,
    pub(crate) sort: Sort,
}

// A constant that stands for a root or a quotient.
#[derive(Debug, Drop)]
pub(crate) struct Introduced {
    pub(crate) place: Place,
    pub(crate) name: Name,
}

/// A script in which constants stand for the roots and quotients of another, with its own expressions. The names that the
/// other declares are borrowed.
#[derive(Debug, Drop)]
pub struct Rewriting<'a> {
    pub(crate) sexps: Sexps,
    pub(crate) declared: Vec<Declared<'a>>,
    pub(crate) introduced: Vec<Introduced>,
    pub(crate) placed: Vec<Placed>,
}

impl Rewriting<'_> {
    /// The script that was made. It fails for want of memory alone.
    pub fn script(&self, alloc: Global) -> Result<Script<'_>, AllocError>
        ensures { IfOk result (λ script. commands_in script ≡ commands_of self.now) }
    {
        let mut commands = Vec::new(alloc);
        push_declared(&mut commands, self.declared.as_slice())?;
        push_introduced(&mut commands, self.introduced.as_slice())?;
        push_placed(&mut commands, self.placed.as_slice())?;
        Ok(Script {
            sexps: &self.sexps,
            commands,
        })
    }
}

// Adds the declarations of a script's own constants.
fn push_declared<'s>(
    commands: &mut Vec<Command<'s>>,
    declared: &[Declared<'s>],
) -> Result<(), AllocError>
    ensures { (s : arena.Sexps) → OnOk result (map (command_of s) commands.new.items ≡
        map (command_of s) commands.old.items ++ map declared_command declared.now) }
{
    for constant in declared {
        commands.push(Command::Declare(constant.place, constant.name, constant.sort))?;
    }
    Ok(())
}

// Adds the declarations of the constants that stand for roots and quotients.
fn push_introduced<'s>(
    commands: &mut Vec<Command<'s>>,
    introduced: &'s [Introduced],
) -> Result<(), AllocError>
    ensures { (s : arena.Sexps) → OnOk result (map (command_of s) commands.new.items ≡
        map (command_of s) commands.old.items ++ map introduced_command introduced.now) }
{
    for constant in introduced {
        commands.push(Command::Declare(constant.place, &constant.name, Sort::Real))?;
    }
    Ok(())
}

// The command of an assertion or a goal.
fn command_of<'s>(placed: Placed) -> Command<'s>
    ensures { (s : arena.Sexps) → command_of s result ≡ placed_command s placed }
{
    if placed.is_goal {
        Command::Minimize(placed.place, placed.at)
    } else {
        Command::Assert(placed.place, placed.at)
    }
}

// Adds assertions and goals.
fn push_placed(commands: &mut Vec<Command<'_>>, placed: &[Placed]) -> Result<(), AllocError>
    ensures { (s : arena.Sexps) → OnOk result (map (command_of s) commands.new.items ≡
        map (command_of s) commands.old.items ++ map (placed_command s) placed.now) }
{
    for assertion in placed {
        commands.push(command_of(*assertion))?;
    }
    Ok(())
}
