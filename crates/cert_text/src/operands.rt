// What stands behind the first word of a tree's line.
ghost use Rattle.std.specs.Prelude.{◌≡◌};
ghost use Rattle.cover_line.specs.Views.{blocks_of, branching_of, kind_word, line_of, multipliers_of, narrowing_of, rule_word, voiding_kind_word};
ghost use Rattle.cover_line.specs.Words.{branching_operands, branching_word, narrowing_operands, narrowing_word, of_squares, operands_of, voiding_word};
ghost use Rattle.cover_data.specs.Views as kept;
ghost use Rattle.cert_text.specs.Ruled.{HasFewPairs, operands_in};

use cover_data::{Narrowing as Kept, Squares};
use cover_line::{
    Block, Branching, Ending, Marking, Narrowing, NarrowingKind, Rule, Staying, Word,
};
use dyadic::Dy;

/// What stands behind the first word of a tree's line. Numbers are those of atoms, lemmas and axes.
#[derive(Clone, Copy)]
pub(crate) enum Operands<'a> {
    Nothing,
    Atom(u32),
    Lemma(u32),
    AtomLemma(u32, u32),
    Axis(u32),
    AxisPlace(u32, Dy),
    /// Atoms, each with its multiplier.
    Multipliers(&'a [(u32, Dy)]),
    /// Atoms, each with its multiplier, and blocks of squares.
    Squares(&'a [(u32, Dy)], &'a [Block]),
    /// Two groups of atoms.
    Groups(&'a [u32], &'a [u32]),
}

fn of_narrowing(narrowing: &Narrowing) -> Operands<'_>
    ensures { operands_in result ≡ narrowing_operands (narrowing_of narrowing.now) }
{
    match narrowing {
        Narrowing::Pull(atom) => Operands::Atom(*atom),
        Narrowing::Push(atom) => Operands::Atom(*atom),
        Narrowing::Combine(pairs) => Operands::Multipliers(pairs),
    }
}

/// Those of a branch.
pub(crate) fn of_branching(branching: &Branching) -> Operands<'_>
    ensures { operands_in result ≡ branching_operands (branching_of branching.now) }
{
    match branching {
        Branching::Cut(axis, at) => Operands::AxisPlace(*axis, *at),
        Branching::Flip(axis) => Operands::Axis(*axis),
        Branching::Case(atom) => Operands::Atom(*atom),
        Branching::Either(first, second) => Operands::Groups(first, second),
    }
}

/// Those of a rule.
pub(crate) fn of_rule(rule: &Rule) -> Operands<'_>
    ensures { operands_in result ≡ operands_of (line_of rule.now) }
{
    match rule {
        Rule::Narrow(narrowing) => of_narrowing(narrowing),
        Rule::End(Ending::Void(narrowing)) => of_narrowing(narrowing),
        Rule::End(Ending::Squares(pairs, blocks)) => Operands::Squares(pairs, blocks),
        Rule::End(Ending::False) => Operands::Nothing,
        Rule::End(Ending::By(lemma)) => Operands::Lemma(*lemma),
        Rule::Mark(Marking::Unit(atom)) => Operands::Atom(*atom),
        Rule::Mark(Marking::Ban(atom, lemma)) => Operands::AtomLemma(*atom, *lemma),
        Rule::Branch(branching) => of_branching(branching),
        Rule::Stay(Staying::Open) => Operands::Nothing,
        Rule::Stay(Staying::Stuck(atom)) => Operands::Atom(*atom),
    }
}

/// Those of a narrowing that a book keeps.
pub(crate) fn of_kept(narrowing: &Kept) -> Operands<'_>
    ensures operands { operands_in result
        ≡ narrowing_operands (kept.narrowing_of narrowing.now) }
    ensures few { HasFewPairs (operands_in result) }
{
    match narrowing {
        Kept::Pull(atom) => Operands::Atom(*atom),
        Kept::Push(atom) => Operands::Atom(*atom),
        Kept::Combine(combination) => Operands::Multipliers(&combination.pairs),
    }
}

/// Those of squares that a book keeps.
pub(crate) fn of_kept_squares(squares: &Squares) -> Operands<'_>
    ensures operands { operands_in result
        ≡ of_squares (multipliers_of squares.now.pairs.items) (blocks_of squares.now.blocks.items) }
    ensures few { HasFewPairs (operands_in result) }
{
    Operands::Squares(&squares.pairs, &squares.blocks)
}

/// The first word of a branch's line.
pub(crate) fn branch_word(branching: &Branching) -> Word
    ensures { rule_word result ≡ branching_word (branching_of branching.now) }
{
    match branching {
        Branching::Cut(_, _) => Word::Cut,
        Branching::Flip(_) => Word::Flip,
        Branching::Case(_) => Word::Case,
        Branching::Either(_, _) => Word::Either,
    }
}

/// What it narrows by.
pub(crate) fn kind_of(narrowing: &Kept) -> NarrowingKind
    ensures narrows { kind_word result ≡ narrowing_word (kept.narrowing_of narrowing.now) }
    ensures voids { voiding_kind_word result ≡ voiding_word (kept.narrowing_of narrowing.now) }
{
    match narrowing {
        Kept::Pull(_) => NarrowingKind::Pull,
        Kept::Push(_) => NarrowingKind::Push,
        Kept::Combine(_) => NarrowingKind::Combine,
    }
}
