// What is built of commands, one after the other, so that it can go back to any number of them.
ghost use Rattle.std.specs.Prelude.{◌≡◌, ◌≤◌, ◌∷◌, [], ◌++◌, List, None, All, IfOk, OnOk, length, take};
ghost use Rattle.script_model.specs.Script as model;
ghost use Rattle.smt_script.specs.Views.{command_of, commands_in};
ghost use Rattle.sort_check.specs.Sorts.{sort_fault};
ghost use Rattle.script_reading.specs.Built.{AreLowest, IsInWalkOrder};
ghost use Rattle.problem_build.specs.BuildAnswers.{IsBuildAnswer, IsLean};
ghost use Rattle.poly_graph.specs.ProblemViews.{Parts};
ghost use Rattle.problem_session.specs.Changes.{no_parts};
ghost use Rattle.problem_build.specs.Changes.{IsChangeAnswer, IsEnded, IsExtent, IsWithin, Starts};
ghost use Rattle.problem_build.specs.Names.{TopFits};
ghost use Rattle.problem_build.specs.Progress.{BuildsAll, BuildsOne, IsBegun, IsBegunWith, IsBuiltBy};
ghost use Rattle.problem_build.specs.Standing.{IsTopOf};

use crate::assembly::assemble;
use crate::change::made_since;
use crate::commands::make;
use crate::named::{Named, first_names};
use crate::script::conclude;
use crate::top::TopTable;
use poly_graph::Problem;
use problem_session::{Change, Kept};
use script_fault::ReadError;
use smt_script::{Command, Script};
use smt_sexp::Sexps;
use std::alloc::Global;
use value_build::{Maker, Mark};

/// What stood before a command: what was made, and of how many assertions.
#[derive(Clone, Copy, Debug)]
pub(crate) struct Before {
    mark: Mark,
    claims: usize,
}

/// What is built of commands: what is made, the form and the list of bounds of each assertion, and what stood before each
/// command.
#[derive(Drop)]
pub(crate) struct Progress {
    maker: Maker,
    claims: Vec<(u32, u32)>,
    before: Vec<Before>,
}

impl Progress {
    /// Nothing is built.
    pub(crate) fn new(alloc: Global) -> Self
        ensures built { IsBuiltBy [] result }
        ensures starts { Starts no_parts result.maker.made }
    {
        let maker = Maker::new(alloc, Vec::new(alloc));
        // Its type keeps that this may be made.
        let _ = maker.mark();
        Progress {
            maker,
            claims: Vec::new(alloc),
            before: Vec::new(alloc),
        }
    }

    /// Only so many commands stay built, the first ones. It takes the time of what is taken back.
    pub(crate) fn back_to(&mut self, count: usize)
        requires { (script : List model.Command) × IsBuiltBy script self.old }
        ensures built { (script : List model.Command) → IsBuiltBy script self.old →
            count ≤ length script → IsBuiltBy (take count script) self.new }
        ensures starts { (p : Parts) → Starts p self.old.maker.made → Starts p self.new.maker.made }
    {
        while self.before.len() > count {
            let Some(before) = self.before.pop() else {
                return;
            };
            self.maker.undo(before.mark);
            self.claims.truncate(before.claims);
        }
    }

    // Builds one command more, where these names are bound before it.
    fn add<'p, 'a>(
        &mut self,
        alloc: Global,
        sexps: &'a Sexps,
        top: &TopTable<'p, 'a>,
        command: &Command<'a>,
    ) -> Result<(), ReadError>
        requires { TopFits self.old.maker.made.sorts top.now }
        ensures { (script : List model.Command) → IsTopOf sexps.now script top.now →
            IsBuiltBy script self.old →
            BuildsOne script (command_of sexps.now command.now) self.old self.new result }
    {
        self.before.push(Before {
            mark: self.maker.mark(),
            claims: self.claims.len(),
        })?;
        make(
            alloc,
            sexps,
            top,
            &mut self.maker,
            &mut self.claims,
            command,
        )?;
        // Its type keeps that this may be made.
        let _ = self.maker.mark();
        Ok(())
    }

    // Builds the commands of a script behind those that are built, which bind these names.
    fn add_rest<'p, 'a>(
        &mut self,
        alloc: Global,
        script: &'p Script<'a>,
        named: &mut Named<'p, 'a>,
    ) -> Result<(), ReadError>
        requires begun { IsBegunWith (commands_in script.now)
            script.now.sexps.now self.old named.old.top named.old.axis }
        requires within { length self.old.before.items ≤ length script.now.commands.items }
        requires sorted { sort_fault (commands_in script.now) ≡ None }
        ensures { BuildsAll (commands_in script.now) self.old self.new result }
    {
        let mut rest = &script.commands[self.before.len()..];
        while let [command, later @ ..] = rest {
            self.add(alloc, script.sexps, &named.top, command)?;
            named.add(command)?;
            rest = later;
        }
        Ok(())
    }

    // Builds what is left of a script.
    fn go_on(&mut self, alloc: Global, script: &Script<'_>) -> Result<(), ReadError>
        requires begun { IsBegun (commands_in script.now) self.old }
        requires sorted { sort_fault (commands_in script.now) ≡ None }
        ensures { BuildsAll (commands_in script.now) self.old self.new result }
    {
        let mut named = first_names(alloc, script, self.before.len())?;
        self.add_rest(alloc, script, &mut named)
    }

    // The problem of a script that is built. What its form adds is taken back.
    fn problem(
        &mut self,
        alloc: Global,
        script: &Script<'_>,
        bound: Option<u32>,
    ) -> Result<Problem, ReadError>
        requires built { IsBuiltBy (commands_in script.now) self.old }
        requires sorted { sort_fault (commands_in script.now) ≡ None }
        ensures stays { OnOk result (IsBuiltBy (commands_in script.now) self.new) }
        ensures builds { IsBuildAnswer bound (commands_in script.now) result }
        ensures lean { IfOk result (λ p. IsLean p) }
        ensures order { IfOk result (λ p. IsInWalkOrder (commands_in script.now) p.nodes) }
        ensures ends { IfOk result (λ p. All (λ a. AreLowest a.declared) p.axes) }
    {
        let mark = self.maker.mark();
        let end = conclude(
            alloc,
            script,
            &mut self.maker,
            self.claims.as_slice(),
            bound,
        )?;
        let problem = assemble(alloc, end.axes, self.maker.builder(), end.root)?;
        self.maker.undo(mark);
        Ok(problem)
    }

    /// Builds what is left of a well-sorted script, and its problem.
    pub(crate) fn build(
        &mut self,
        alloc: Global,
        script: &Script<'_>,
        bound: Option<u32>,
    ) -> Result<Problem, ReadError>
        requires begun { IsBegun (commands_in script.now) self.old }
        requires sorted { sort_fault (commands_in script.now) ≡ None }
        ensures stays { OnOk result (IsBuiltBy (commands_in script.now) self.new) }
        ensures builds { IsBuildAnswer bound (commands_in script.now) result }
        ensures lean { IfOk result (λ p. IsLean p) }
        ensures order { IfOk result (λ p. IsInWalkOrder (commands_in script.now) p.nodes) }
        ensures ends { IfOk result (λ p. All (λ a. AreLowest a.declared) p.axes) }
    {
        self.go_on(alloc, script)?;
        self.problem(alloc, script, bound)
    }

    // How much is made.
    fn extent(&self) -> Kept
        ensures { IsExtent result self.now.maker.made }
    {
        let builder = self.maker.builder();
        Kept {
            nodes: builder.nodes().len(),
            atoms: builder.atoms().len(),
            forms: builder.forms().len(),
        }
    }

    // What a script that is built adds to so much. What its form adds is taken back.
    fn change_since(
        &mut self,
        alloc: Global,
        script: &Script<'_>,
        kept: Kept,
        bound: Option<u32>,
    ) -> Result<Change, ReadError>
        requires built { IsBuiltBy (commands_in script.now) self.old }
        requires sorted { sort_fault (commands_in script.now) ≡ None }
        requires within { IsWithin kept self.old.maker.made }
        ensures stays { OnOk result (IsBuiltBy (commands_in script.now) self.new) }
        ensures same { OnOk result (self.new.maker ≡ self.old.maker) }
        ensures changes { IsEnded bound (commands_in script.now)
            kept self.old.maker.made result }
    {
        let mark = self.maker.mark();
        let end = conclude(
            alloc,
            script,
            &mut self.maker,
            self.claims.as_slice(),
            bound,
        )?;
        let change = made_since(alloc, self.maker.builder(), kept, end)?;
        self.maker.undo(mark);
        Ok(change)
    }

    /// Builds what is left of a well-sorted script: what is new beside the problem before.
    pub(crate) fn change(
        &mut self,
        alloc: Global,
        script: &Script<'_>,
        bound: Option<u32>,
    ) -> Result<Change, ReadError>
        requires begun { IsBegun (commands_in script.now) self.old }
        requires sorted { sort_fault (commands_in script.now) ≡ None }
        ensures stays { OnOk result (IsBuiltBy (commands_in script.now) self.new) }
        ensures changes { (p : Parts) → Starts p self.old.maker.made →
            IsChangeAnswer bound (commands_in script.now) p self.new.maker.made result }
    {
        let kept = self.extent();
        self.go_on(alloc, script)?;
        self.change_since(alloc, script, kept, bound)
    }
}
