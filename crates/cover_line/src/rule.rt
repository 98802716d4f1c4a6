// The rules of a cover by shape, with their operands.
ghost use Rattle.std.specs.Prelude.{◌≡◌};
ghost use Rattle.cover_line.specs.Views.{ending_of, line_of, narrowing_of, rule_word};
ghost use Rattle.cover_line.specs.Words.{ending_word, narrowing_word, voiding_word, word_of};
ghost use Rattle.cover_line.specs.declared.word.Word.TheVariants as word;

use crate::block::Block;
use crate::word::{NarrowingKind, Word};
use dyadic::Dy;

/// What makes the box smaller. Numbers are those of atoms.
#[derive(Debug, Drop, PartialEq, Eq)]
pub enum Narrowing {
    /// The range of an atom that holds.
    Pull(u32),
    /// The off-range of an atom that fails.
    Push(u32),
    /// A combination of atoms, each with its multiplier.
    Combine(Vec<(u32, Dy)>),
}

impl Narrowing {
    /// What it narrows by.
    pub fn kind(&self) -> NarrowingKind
        ensures narrows { rule_word (word.Narrow result) ≡ narrowing_word (narrowing_of self.now) }
        ensures voids { rule_word (word.Void result) ≡ voiding_word (narrowing_of self.now) }
    {
        match self {
            Narrowing::Pull(_) => NarrowingKind::Pull,
            Narrowing::Push(_) => NarrowingKind::Push,
            Narrowing::Combine(_) => NarrowingKind::Combine,
        }
    }
}

/// What closes the state.
#[derive(Debug, Drop, PartialEq, Eq)]
pub enum Ending {
    /// The narrowing leaves nothing.
    Void(Narrowing),
    /// The combination of these atoms, each with its multiplier, less these squares is above what the atoms allow.
    Squares(Vec<(u32, Dy)>, Vec<Block>),
    /// The form may not hold.
    False,
    /// The lemma of this number covers the state.
    By(u32),
}

impl Ending {
    // The first word of its line.
    fn word(&self) -> Word
        ensures { rule_word result ≡ ending_word (ending_of self.now) }
    {
        match self {
            Ending::Void(narrowing) => Word::Void(narrowing.kind()),
            Ending::Squares(_, _) => Word::Squares,
            Ending::False => Word::False,
            Ending::By(_) => Word::By,
        }
    }
}

/// What marks an atom.
#[derive(Clone, Copy, Debug, PartialEq, Eq)]
pub enum Marking {
    /// The atom has to hold.
    Unit(u32),
    /// The atom may not hold, by the lemma of the second number.
    Ban(u32, u32),
}

/// What parts the state in two.
#[derive(Debug, Drop, PartialEq, Eq)]
pub enum Branching {
    /// A Real axis at a place.
    Cut(u32, Dy),
    /// A Bool axis.
    Flip(u32),
    /// An atom.
    Case(u32),
    /// Two groups of atoms, of which one holds as a whole.
    Either(Vec<u32>, Vec<u32>),
}

/// What leaves the state as it is.
#[derive(Clone, Copy, Debug, PartialEq, Eq)]
pub enum Staying {
    Open,
    /// With the atom that is not decided.
    Stuck(u32),
}

/// A line of a tree, but the one for crossed bounds: its rule and the operands.
#[derive(Debug, Drop, PartialEq, Eq)]
pub enum Rule {
    /// Leaves one state, with a smaller box.
    Narrow(Narrowing),
    /// Leaves none.
    End(Ending),
    /// Leaves one state, with a mark more.
    Mark(Marking),
    /// Leaves two states.
    Branch(Branching),
    /// Leaves the state itself.
    Stay(Staying),
}

impl Rule {
    /// The first word of the rule's line.
    pub fn word(&self) -> Word
        ensures { rule_word result ≡ word_of (line_of self.now) }
    {
        match self {
            Rule::Narrow(narrowing) => Word::Narrow(narrowing.kind()),
            Rule::End(ending) => ending.word(),
            Rule::Mark(Marking::Unit(_)) => Word::Unit,
            Rule::Mark(Marking::Ban(_, _)) => Word::Ban,
            Rule::Branch(Branching::Cut(_, _)) => Word::Cut,
            Rule::Branch(Branching::Flip(_)) => Word::Flip,
            Rule::Branch(Branching::Case(_)) => Word::Case,
            Rule::Branch(Branching::Either(_, _)) => Word::Either,
            Rule::Stay(Staying::Open) => Word::Open,
            Rule::Stay(Staying::Stuck(_)) => Word::Stuck,
        }
    }
}
