// What is in force, as far as names and sorts go.
ghost use Rattle.std.specs.Prelude.{◌≡◌, ◌-◌, length, option_map, IfOk, OnOk};
ghost use Rattle.smt_script.specs.Levels.{closed, opened};
ghost use Rattle.smt_script.specs.Views.{command_of};
ghost use Rattle.smt_sexp.specs.declared.sexps.Sexps.{Sexps};
ghost use Rattle.sort_check.specs.Scopes.{Begins, Forgets, Passes, command_name, name_bytes, stays};
ghost use Rattle.sort_check.specs.Views.{Knows, theory_names};

use crate::names::Known;
use script_fault::Name;
use smt_script::Command;
use std::alloc::{AllocError, Global};
use std::collections::HashMap;

/// What is known before the first command: the symbols of Core and Reals, or those and `sqrt`.
#[derive(Clone, Copy, Debug)]
pub(crate) enum Theory {
    Reals,
    Roots,
}

/// How much was in force before a level was opened.
#[derive(Clone, Copy, Debug)]
pub(crate) struct Mark {
    pub(crate) commands: usize,
    pub(crate) constants: usize,
}

/// What is in force: its names with what they stand for, how many constants it declares, its commands, and how much of it
/// was there before each open level.
#[derive(Drop)]
pub(crate) struct Scope<'p, 'a> {
    pub(crate) top: HashMap<&'a [u8], Known<'p, 'a>>,
    pub(crate) constants: usize,
    pub(crate) force: Vec<&'p Command<'a>>,
    pub(crate) marks: Vec<Mark>,
}

// The name that a command declares or defines.
fn name_of<'a>(command: &Command<'a>) -> Option<&'a Name>
    ensures { (s : Sexps) → option_map name_bytes result ≡ command_name (command_of s command.now) }
{
    match command {
        Command::Declare(_, name, _) => Some(*name),
        Command::Define(_, name, _, _, _) => Some(*name),
        _ => None,
    }
}

/// Whether a command holds until its level is closed.
pub(crate) fn stays(command: &Command<'_>) -> bool
    ensures { (s : Sexps) → result ≡ stays (command_of s command.now) }
{
    match command {
        Command::Check(_) => false,
        Command::Ineffective(_) => false,
        _ => true,
    }
}

/// The names that a theory knows, by their bytes.
pub(crate) fn theory_top<'p, 'a>(
    alloc: Global,
    theory: Theory,
) -> Result<HashMap<&'a [u8], Known<'p, 'a>>, AllocError>
    ensures { IfOk result (λ top. Knows top (theory_names theory)) }
{
    match theory {
        Theory::Reals => Ok(HashMap::new(alloc)),
        Theory::Roots => {
            let mut top: HashMap<&'a [u8], Known<'p, 'a>> = HashMap::new(alloc);
            top.insert(b"sqrt".as_slice(), Known::Root)?;
            Ok(top)
        }
    }
}

impl<'p, 'a> Scope<'p, 'a> {
    /// Nothing is in force, and the names of the theory are known.
    pub(crate) fn new(alloc: Global, theory: Theory) -> Result<Self, AllocError>
        ensures { IfOk result (Begins (theory_names theory)) }
    {
        let top = theory_top(alloc, theory)?;
        Ok(Scope {
            top,
            constants: 0,
            force: Vec::new(alloc),
            marks: Vec::new(alloc),
        })
    }

    /// Opens so many levels.
    pub(crate) fn open(&mut self, count: usize) -> Result<(), AllocError>
        ensures { OnOk result (Passes self.old self.new (opened count)) }
    {
        for _level in 0..count {
            self.marks.push(Mark {
                commands: self.force.len(),
                constants: self.constants,
            })?;
        }
        Ok(())
    }

    /// Closes so many levels, where so many are open.
    pub(crate) fn close(&mut self, count: usize)
        ensures { Passes self.old self.new (closed count) }
    {
        for _level in 0..count {
            self.close_one();
        }
    }

    // Closes the innermost level, where one is open.
    fn close_one(&mut self)
        ensures { Passes self.old self.new (closed 1) }
    {
        if let Some(mark) = self.marks.pop() {
            self.forget_to(mark.commands);
            self.constants = mark.constants;
        }
    }

    // Forgets the last commands, until so many are left.
    fn forget_to(&mut self, commands: usize)
        ensures { Forgets self.old self.new commands }
    {
        while self.force.len() > commands {
            self.forget();
        }
    }

    // Forgets the last command.
    fn forget(&mut self)
        ensures { Forgets self.old self.new (length self.old.force.items - 1) }
    {
        let Some(command) = self.force.pop() else {
            return;
        };
        if let Some(name) = name_of(command) {
            self.top.remove(name.as_slice());
        }
    }
}
