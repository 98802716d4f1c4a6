// The first words of a tree's lines.
ghost use Rattle.std.specs.Prelude.{◌≡◌, IsTrue, ◌↔◌};
ghost use Rattle.cover_line.specs.Answers.{IsWordIn};
ghost use Rattle.cover_line.specs.Views.{rule_word};
ghost use Rattle.cover_line.specs.Words.{word_text};

/// What a line narrows by; a word for each says that it leaves a smaller box, and one that it leaves nothing.
#[derive(Clone, Copy, Debug, PartialEq, Eq)]
pub enum NarrowingKind {
    Pull,
    Push,
    Combine,
}

/// The first word of a line of a tree.
#[derive(Clone, Copy, Debug, PartialEq, Eq)]
pub enum Word {
    Narrow(NarrowingKind),
    Void(NarrowingKind),
    Squares,
    False,
    By,
    Unit,
    Ban,
    Cut,
    Flip,
    Case,
    Either,
    Open,
    Stuck,
    /// Of the line for crossed bounds.
    Empty,
}

// Each word once.
const WORDS: [Word; 18] = [
    Word::Narrow(NarrowingKind::Pull),
    Word::Narrow(NarrowingKind::Push),
    Word::Narrow(NarrowingKind::Combine),
    Word::Void(NarrowingKind::Pull),
    Word::Void(NarrowingKind::Push),
    Word::Void(NarrowingKind::Combine),
    Word::Squares,
    Word::False,
    Word::By,
    Word::Unit,
    Word::Ban,
    Word::Cut,
    Word::Flip,
    Word::Case,
    Word::Either,
    Word::Open,
    Word::Stuck,
    Word::Empty,
];

impl Word {
    /// Its one spelling.
    pub fn text(self) -> &'static str
        ensures { result.now ≡ word_text (rule_word self) }
    {
        match self {
            Word::Narrow(NarrowingKind::Pull) => "pull",
            Word::Narrow(NarrowingKind::Push) => "push",
            Word::Narrow(NarrowingKind::Combine) => "comb",
            Word::Void(NarrowingKind::Pull) => "void",
            Word::Void(NarrowingKind::Push) => "voidno",
            Word::Void(NarrowingKind::Combine) => "voidcomb",
            Word::Squares => "voidpos",
            Word::False => "false",
            Word::By => "by",
            Word::Unit => "unit",
            Word::Ban => "ban",
            Word::Cut => "cut",
            Word::Flip => "flip",
            Word::Case => "case",
            Word::Either => "either",
            Word::Open => "open",
            Word::Stuck => "stuck",
            Word::Empty => "empty",
        }
    }

    // Whether the bytes spell it.
    fn is_spelled(self, bytes: &[u8]) -> bool
        ensures { IsTrue result ↔ (bytes.now ≡ word_text (rule_word self)) }
    {
        bytes == self.text().as_bytes()
    }

    /// The word that these bytes spell; none where they spell none.
    pub fn spelled(bytes: &[u8]) -> Option<Word>
        ensures { IsWordIn bytes.now result }
    {
        for word in WORDS {
            if word.is_spelled(bytes) {
                return Some(word);
            }
        }
        None
    }
}
