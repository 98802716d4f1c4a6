// What is in force while the steps of a script are taken.
ghost use Rattle.std.specs.Prelude.{◌≡◌, List, length, OnOk};
ghost use Rattle.smt_script.specs.Levels.{closed, opened};
ghost use Rattle.smt_script.specs.declared.command.Command as code;
ghost use Rattle.sort_check.specs.Single.{Closes, Holds, IsNothing, Opens, Takes};

use crate::scope::stays;
use smt_script::{Command, Script, Step};
use smt_sexp::Sexps;
use std::alloc::{AllocError, Global};

/// What is in force behind steps of a script, and how much of it was there before each open level.
#[derive(Debug, Drop)]
pub struct Force<'a> {
    pub script: Script<'a>,
    pub marks: Vec<usize>,
}

// Opens levels, before each of which so many commands are in force.
fn open(marks: &mut Vec<usize>, count: usize, before: usize) -> Result<(), AllocError>
    ensures { (force : List code.Command) → before ≡ length force → OnOk result (Opens force marks.old.items marks.new.items (opened count)) }
{
    for _level in 0..count {
        marks.push(before)?;
    }
    Ok(())
}

// Closes levels, where so many are open.
fn close<'a>(force: &mut Vec<Command<'a>>, marks: &mut Vec<usize>, count: usize)
    ensures { Closes force.old.items marks.old.items force.new.items marks.new.items (closed count) }
{
    for _level in 0..count {
        if let Some(before) = marks.pop() {
            force.truncate(before);
        }
    }
}

// Adds a command, where it holds until its level is closed.
fn hold<'a>(force: &mut Vec<Command<'a>>, command: Command<'a>) -> Result<(), AllocError>
    ensures { OnOk result (Holds force.old.items force.new.items command.entry) }
{
    if !stays(&command) {
        return Ok(());
    }
    force.push(command)?;
    Ok(())
}

impl<'a> Force<'a> {
    /// Nothing is in force, and no level is open.
    pub fn new(alloc: Global, sexps: &'a Sexps) -> Self
        ensures nothing { IsNothing result }
        ensures sexps { result.script.sexps.now ≡ sexps.now }
    {
        Force {
            script: Script {
                sexps,
                commands: Vec::new(alloc),
            },
            marks: Vec::new(alloc),
        }
    }

    /// Takes a step.
    pub fn take(&mut self, step: Step<'a>) -> Result<(), AllocError>
        ensures takes { OnOk result (Takes self.old self.new step.entry) }
        ensures sexps { self.new.script.sexps.now ≡ self.old.script.sexps.now }
    {
        match step {
            Step::Command(command) => hold(&mut self.script.commands, command),
            Step::Push(_, count) => {
                let before = self.script.commands.len();
                open(&mut self.marks, count, before)
            }
            Step::Pop(_, count) => {
                close(&mut self.script.commands, &mut self.marks, count);
                Ok(())
            }
            Step::Reset(_) => {
                self.script.commands.clear();
                self.marks.clear();
                Ok(())
            }
            Step::Values(_, _) => Ok(()),
        }
    }
}
