// The trees of a script's assertions and goals.
ghost use Rattle.std.specs.Prelude.{◌≡◌, ◌∷◌, [], ◌++◌, List, None, IfErr, IfOk, OnOk};
ghost use Rattle.script_model.specs.Script as model;
ghost use Rattle.script_roots.specs.Fresh.{Asserted, asserted};
ghost use Rattle.smt_script.specs.Views.{command_of, commands_in};
ghost use Rattle.smt_sexp.specs.Views.{place_of};
ghost use Rattle.smt_sexp.specs.declared.sexps.Sexps as arena;
ghost use Rattle.root_rewriting.specs.Ahead.{reached_here};
ghost use Rattle.root_rewriting.specs.Asserted.{AreAsserted, ClaimCounts, IsAt, IsAtFirst, IsRefusal};
ghost use Rattle.root_rewriting.specs.TreeNames.{tree_here};
ghost use Rattle.root_rewriting.specs.Nodes.{trees_in};
ghost use Rattle.script_roots.specs.Reached.{too_many};

use crate::unfold::frames::Source;
use crate::unfold::stop::Stop;
use crate::unfold::top::{Known, Top, TopTable};
use crate::unfold::trees::Trees;
use crate::unfold::walk::{Unfolded, tree};
use script_fault::{FaultKind, Limit, Place, ReadError};
use smt_script::{Command, Script};
use smt_sexp::Sexps;
use std::alloc::Global;

/// An assertion or a goal, with its command's place and the place of its tree.
#[derive(Clone, Copy, Debug)]
pub struct Assertion {
    pub place: Place,
    pub is_goal: bool,
    pub tree: usize,
}

/// The trees of a script's assertions and goals, in order.
#[derive(Debug, Drop)]
pub struct AssertedTrees<'a> {
    pub trees: Trees<'a>,
    pub assertions: Vec<Assertion>,
}

// What the first commands of a script bind and assert.
#[derive(Drop)]
pub(crate) struct Progress<'p, 'a> {
    pub(crate) top: TopTable<'p, 'a>,
    pub(crate) unfolded: Unfolded<'a>,
    pub(crate) assertions: Vec<Assertion>,
}

impl<'p, 'a> Progress<'p, 'a> {
    // No command is done.
    fn new(alloc: Global) -> Self
        ensures { (s : arena.Sexps) (script : List model.Command) → IsAt s script script result }
    {
        Progress {
            top: TopTable::new(alloc),
            unfolded: Unfolded {
                trees: Trees::new(alloc),
                reached: 0,
            },
            assertions: Vec::new(alloc),
        }
    }

    // Adds an assertion or a goal.
    fn claim(
        &mut self,
        alloc: Global,
        sexps: &'a Sexps,
        place: Place,
        is_goal: bool,
        body: usize,
    ) -> Result<(), ReadError>
        ensures top { self.new.top ≡ self.old.top }
        ensures refuses { IfErr result (λ e. IsRefusal e) }
        ensures asserts { (done : List Asserted) →
            AreAsserted (trees_in self.old.unfolded.trees) self.old.assertions.items done →
            OnOk result (AreAsserted (trees_in self.new.unfolded.trees) self.new.assertions.items
            (done ++ (record {
              at = place_of place;
              is_goal = is_goal;
              tree = tree_here sexps.now self.old.top body;
            } ∷ []))) }
        ensures counts { ClaimCounts place self.old.unfolded.reached self.new.unfolded.reached
            (reached_here sexps.now self.old.top body) result }
    {
        let source = Source {
            alloc,
            sexps,
            top: &self.top,
        };
        match tree(&source, &mut self.unfolded, body) {
            Ok(tree) => {
                self.assertions.push(Assertion {
                    place,
                    is_goal,
                    tree,
                })?;
                Ok(())
            }
            Err(Stop::TooLarge) => Err(ReadError::at(place, FaultKind::TooMany(Limit::Size))),
            Err(Stop::Memory) => Err(ReadError::Memory),
        }
    }

    // Adds what a command binds or asserts.
    fn add(
        &mut self,
        alloc: Global,
        sexps: &'a Sexps,
        command: &'p Command<'a>,
    ) -> Result<(), ReadError>
        ensures refuses { IfErr result (λ e. IsRefusal e) }
        ensures goes { (script left : List model.Command) →
            IsAt sexps.now script (command_of sexps.now command.now ∷ left) self.old →
            OnOk result (IsAt sexps.now script left self.new) }
        ensures place { (script left : List model.Command) →
            IsAt sexps.now script (command_of sexps.now command.now ∷ left) self.old →
            IfErr result (λ e. IsAtFirst (too_many script) e) }
    {
        match command {
            Command::Declare(place, name, _) => {
                self.top.push(Top {
                    name: *name,
                    known: Known::Constant(*place, *name),
                })?;
                Ok(())
            }
            Command::Define(_, name, parameters, _, body) => {
                self.top.push(Top {
                    name: *name,
                    known: Known::Function(parameters.as_slice(), *body),
                })?;
                Ok(())
            }
            Command::Assert(place, body) => self.claim(alloc, sexps, *place, false, *body),
            Command::Minimize(place, body) => self.claim(alloc, sexps, *place, true, *body),
            Command::Check(_) => Ok(()),
            Command::Ineffective(_) => Ok(()),
        }
    }
}

/// The trees of a script's assertions and goals, in order.
///
/// # Errors
///
/// Too many expressions, at the first assertion or goal with which more than `MOST_SIZE` are reached.
pub fn asserted<'a>(alloc: Global, script: &Script<'a>) -> Result<AssertedTrees<'a>, ReadError>
    ensures refuses { IfErr result (λ e. IsRefusal e) }
    ensures place { IfErr result (λ e. IsAtFirst (too_many (commands_in script.now)) e) }
    ensures within { IfOk result (λ _. too_many (commands_in script.now) ≡ None) }
    ensures reads { IfOk result (λ a.
        AreAsserted (trees_in a.trees) a.assertions.items (asserted (commands_in script.now))) }
{
    let mut progress = Progress::new(alloc);
    let mut rest = script.commands.as_slice();
    while let [command, later @ ..] = rest {
        progress.add(alloc, script.sexps, command)?;
        rest = later;
    }
    Ok(AssertedTrees {
        trees: progress.unfolded.trees,
        assertions: progress.assertions,
    })
}
