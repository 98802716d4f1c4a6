// The lines of a certificate that have no number, and the first words of those that have one plain number.
ghost use Rattle.std.specs.Prelude.{◌≡◌};
ghost use Rattle.cert_text.specs.Lines.{counted_word, plain_text};

use cover_line::Word;

/// A line without a number.
#[derive(Clone, Copy, Debug, PartialEq, Eq)]
pub enum Plain {
    BoundNone,
    LowerNone,
    Point,
    Tree,
    End,
    BoolFalse,
    BoolTrue,
    BoolBoth,
    Over,
}

/// The first word of a line with one plain number.
#[derive(Clone, Copy, Debug, PartialEq, Eq)]
pub enum Counted {
    Version,
    Margin,
    Delta,
    Bound,
    Goal,
    Checks,
    Cover,
    Keep,
    Lemma,
    Empty,
}

/// The bytes of the line.
pub(crate) fn plain_bytes(line: Plain) -> &'static str
    ensures { result.now ≡ plain_text line }
{
    match line {
        Plain::BoundNone => "bound none",
        Plain::LowerNone => "lower none",
        Plain::Point => "point",
        Plain::Tree => "tree",
        Plain::End => "end",
        Plain::BoolFalse => "bool false",
        Plain::BoolTrue => "bool true",
        Plain::BoolBoth => "bool both",
        Plain::Over => "over",
    }
}

/// The bytes of the word.
pub(crate) fn counted_bytes(word: Counted) -> &'static str
    ensures { result.now ≡ counted_word word }
{
    match word {
        Counted::Version => "dpoly",
        Counted::Margin => "margin",
        Counted::Delta => "delta",
        Counted::Bound => "bound",
        Counted::Goal => "goal",
        Counted::Checks => "checks",
        Counted::Cover => "cover",
        Counted::Keep => "keep",
        Counted::Lemma => "lemma",
        Counted::Empty => Word::Empty.text(),
    }
}
