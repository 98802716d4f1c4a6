// The problem of a well-sorted script.
ghost use Rattle.std.specs.Prelude.{◌≡◌, ◌∷◌, [], All, IfOk, None, length, map};
ghost use Rattle.script_model.specs.Script.{constants_of};
ghost use Rattle.script_forms.specs.Walk.{claim_places, last_place, nowhere};
ghost use Rattle.smt_script.specs.Views.{command_of, commands_in};
ghost use Rattle.smt_sexp.specs.Views.{place_of};
ghost use Rattle.smt_sexp.specs.declared.sexps.Sexps as arena;
ghost use Rattle.sort_check.specs.Sorts.{sort_fault};
ghost use Rattle.declared_box.specs.Axes.{constant_of};
ghost use Rattle.declared_box.specs.Table.{AreBefore};
ghost use Rattle.problem_build.specs.Goal.{places_seen};
ghost use Rattle.problem_build.specs.Progress.{AreAxesOf, Concludes, IsState, MakesRoot};
ghost use Rattle.script_reading.specs.Built.{AreLowest, IsInWalkOrder};
ghost use Rattle.problem_build.specs.BuildAnswers.{IsBuildAnswer, IsLean};

use crate::assembly::root_form;
use crate::fault::building_error;
use crate::progress::Progress;
use declared_box::{Constant, declare};
use poly_graph::{Axis, Problem};
use script_fault::{Place, ReadError};
use smt_script::{Command, Script};
use sort_check::Typed;
use std::alloc::{AllocError, Global};
use value_build::Maker;

/// The axes of a script, and the node of its form.
#[derive(Drop)]
pub(crate) struct Ending {
    pub(crate) axes: Vec<Axis>,
    pub(crate) root: u32,
}

// The constants that commands declare, in order.
fn constants<'a>(alloc: Global, commands: &[Command<'a>]) -> Result<Vec<Constant<'a>>, AllocError>
    ensures { IfOk result (λ constants. (s : arena.Sexps) →
        map constant_of constants.items ≡ constants_of (map (command_of s) commands.now)) }
{
    let mut constants = Vec::new(alloc);
    let mut rest = commands;
    while let [command, later @ ..] = rest {
        if let Command::Declare(place, name, sort) = command {
            constants.push(Constant {
                place: *place,
                name: *name,
                sort: *sort,
            })?;
        }
        rest = later;
    }
    Ok(constants)
}

// The place of an assertion or of a goal.
fn claim_place(command: &Command<'_>) -> Option<Place>
    ensures { (s : arena.Sexps) →
        places_seen result ≡ claim_places (command_of s command.now ∷ []) }
{
    match command {
        Command::Assert(place, _) => Some(*place),
        Command::Minimize(place, _) => Some(*place),
        Command::Declare(_, _, _) => None,
        Command::Define(_, _, _, _, _) => None,
        Command::Check(_) => None,
        Command::Ineffective(_) => None,
    }
}

// The place of the last assertion or goal among commands.
fn last_claim(commands: &[Command<'_>]) -> Place
    ensures { (s : arena.Sexps) →
        place_of result ≡ last_place nowhere (claim_places (map (command_of s) commands.now)) }
{
    let mut last = Place { line: 0, column: 0 };
    let mut rest = commands;
    while let [command, later @ ..] = rest {
        if let Some(place) = claim_place(command) {
            last = place;
        }
        rest = later;
    }
    last
}

// The first numbers of pairs.
fn firsts(alloc: Global, pairs: &[(u32, u32)]) -> Result<Vec<u32>, AllocError>
    ensures { IfOk result (λ firsts. firsts.items ≡ map (λ p. p.0) pairs.now) }
{
    pairs.iter().map(|p| p.0).collect(alloc)
}

// The second numbers of pairs.
fn seconds(alloc: Global, pairs: &[(u32, u32)]) -> Result<Vec<u32>, AllocError>
    ensures { IfOk result (λ seconds. seconds.items ≡ map (λ p. p.1) pairs.now) }
{
    pairs.iter().map(|p| p.1).collect(alloc)
}

// The form of a script whose assertions are all done, as the last node.
fn make_root(
    alloc: Global,
    script: &Script<'_>,
    maker: &mut Maker,
    made: &[(u32, u32)],
) -> Result<u32, ReadError>
    requires { IsState (commands_in script.now) maker.old made.now }
    ensures { MakesRoot (commands_in script.now) maker.old maker.new made.now result }
{
    let forms = firsts(alloc, made)?;
    match root_form(maker, forms) {
        Ok(root) => {
            // Its type keeps that this may be made.
            let _ = maker.mark();
            Ok(root)
        }
        Err(stop) => Err(building_error(last_claim(script.commands.as_slice()), stop)),
    }
}

// The axes of a script whose form is made.
fn axes_of(
    alloc: Global,
    script: &Script<'_>,
    maker: &Maker,
    made: &[(u32, u32)],
    bound: Option<u32>,
) -> Result<Vec<Axis>, ReadError>
    requires within { AreBefore (length maker.now.bounds) (map (λ p. p.1) made.now) }
    ensures { AreAxesOf bound (commands_in script.now) maker.now.bounds
        (map (λ p. p.1) made.now) result }
{
    let constants = constants(alloc, script.commands.as_slice())?;
    let lists = seconds(alloc, made)?;
    declare(
        alloc,
        maker.table(),
        lists.as_slice(),
        bound,
        constants.as_slice(),
    )
}

/// Ends a script whose assertions are all done: makes its whole form, and answers its axes and that form's node.
pub(crate) fn conclude(
    alloc: Global,
    script: &Script<'_>,
    maker: &mut Maker,
    made: &[(u32, u32)],
    bound: Option<u32>,
) -> Result<Ending, ReadError>
    requires done { IsState (commands_in script.now) maker.old made.now }
    requires sorted { sort_fault (commands_in script.now) ≡ None }
    ensures { Concludes bound (commands_in script.now) maker.old maker.new made.now result }
{
    let root = make_root(alloc, script, maker, made)?;
    let axes = axes_of(alloc, script, maker, made, bound)?;
    Ok(Ending { axes, root })
}

/// The problem of a well-sorted script.
pub(crate) fn build_script(
    alloc: Global,
    script: &Script<'_>,
    bound: Option<u32>,
) -> Result<Problem, ReadError>
    requires sorted { sort_fault (commands_in script.now) ≡ None }
    ensures builds { IsBuildAnswer bound (commands_in script.now) result }
    ensures lean { IfOk result (λ p. IsLean p) }
    ensures order { IfOk result (λ p. IsInWalkOrder (commands_in script.now) p.nodes) }
    ensures ends { IfOk result (λ p. All (λ a. AreLowest a.declared) p.axes) }
{
    let mut progress = Progress::new(alloc);
    progress.build(alloc, script, bound)
}

/// The problem of a well-sorted script, where the words give this bound of its constants.
///
/// # Errors
///
/// The first fault of its building: of the walk over its assertions, in order, then of the bounds, axis by axis.
pub fn build(alloc: Global, typed: Typed<'_>, bound: Option<u32>) -> Result<Problem, ReadError>
    ensures builds { IsBuildAnswer bound (commands_in typed.entry.script) result }
    ensures lean { IfOk result (λ p. IsLean p) }
    ensures order { IfOk result (λ p. IsInWalkOrder (commands_in typed.entry.script) p.nodes) }
    ensures ends { IfOk result (λ p. All (λ a. AreLowest a.declared) p.axes) }
{
    build_script(alloc, &typed.script, bound)
}
