// The limits of a script. Those of nodes, atoms and forms are numbers of the graph that keeps them.

/// What a script has too much of.
#[derive(Clone, Copy, Debug, PartialEq, Eq)]
pub enum Limit {
    /// Bytes of its text: at most `MOST_BYTES`.
    Bytes,
    /// Parentheses in one another: at most `MOST_DEPTH`.
    Depth,
    /// Constants: at most `MOST_AXES`.
    Axes,
    /// Expressions of the unfolded assertions: at most `MOST_SIZE`.
    Size,
    /// Terms, each counted once: at most 1,048,576.
    Nodes,
    /// Atoms, each counted once: at most 65,536.
    Atoms,
    /// Nodes of the form, each counted once: at most 1,048,576.
    Forms,
    /// Levels that `push` opened: at most `MOST_LEVELS`.
    Levels,
    /// Checks: at most `MOST_CHECKS`.
    Checks,
}

/// How many bytes a script may have.
pub const MOST_BYTES: usize = 67_108_864;

/// How deep parentheses may stand in one another.
pub const MOST_DEPTH: usize = 256;

/// How many constants a script may declare.
pub const MOST_AXES: usize = 1_024;

/// How many levels may be open.
pub const MOST_LEVELS: usize = 1_024;

/// How many checks a script may have.
pub const MOST_CHECKS: usize = 1_024;

/// How many expressions the unfolded assertions may have.
pub const MOST_SIZE: u32 = 1_048_576;
