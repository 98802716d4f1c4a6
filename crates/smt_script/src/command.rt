// Commands of a script, over its expressions.

use script_fault::{Name, Place};
use smt_sexp::Sexps;

/// The sort of a constant or of a definition.
#[derive(Clone, Copy, Debug, PartialEq, Eq)]
pub enum Sort {
    Real,
    Bool,
}

/// A parameter of a definition.
#[derive(Clone, Copy, Debug)]
pub struct Parameter<'a> {
    pub place: Place,
    pub name: &'a Name,
    pub sort: Sort,
}

/// A command, with its place. A term is named by its place among the script's expressions.
#[derive(Debug, Drop)]
pub enum Command<'a> {
    Declare(Place, &'a Name, Sort),
    Define(Place, &'a Name, Vec<Parameter<'a>>, Sort, usize),
    Assert(Place, usize),
    /// `minimize`: its term is the goal.
    Minimize(Place, usize),
    Check(Place),
    /// A command without effect: of the logic, an information, an option, a model or the end.
    Ineffective(Place),
}

/// A script with one check.
#[derive(Debug, Drop)]
pub struct Script<'a> {
    pub sexps: &'a Sexps,
    pub commands: Vec<Command<'a>>,
}

/// What a script does, one after the other.
#[derive(Debug, Drop)]
pub enum Step<'a> {
    Command(Command<'a>),
    /// `push`, with how many levels it opens.
    Push(Place, usize),
    /// `pop`, with how many levels it closes.
    Pop(Place, usize),
    /// `reset` or `reset-assertions`: nothing is in force, and no level is open.
    Reset(Place),
    /// `get-value`, with the place of the first of its terms.
    Values(Place, usize),
}

/// The steps of a text, up to `(exit)`. An assumption is a level of its own.
#[derive(Debug, Drop)]
pub struct Course<'a> {
    pub sexps: &'a Sexps,
    pub steps: Vec<Step<'a>>,
}
