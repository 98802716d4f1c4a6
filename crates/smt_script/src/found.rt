// What is found at a command, and what came before it.
use crate::command::Step;

/// What came before a command.
#[derive(Clone, Copy, Debug)]
pub(crate) struct Before {
    pub(crate) logic: bool,
    pub(crate) goal: bool,
    pub(crate) checks: u32,
    /// How many levels are open.
    pub(crate) levels: u32,
    pub(crate) ended: bool,
}

/// What a command does.
#[derive(Debug, Drop)]
pub(crate) enum Found<'a> {
    One(Step<'a>),
    /// A check under assumptions, with the place of the first of them.
    Assumed(usize),
}
