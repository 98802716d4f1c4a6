// The first words of lines.
ghost use Rattle.std.specs.Prelude.{◌≡◌};
ghost use Rattle.cert_read.specs.Keywords.{header_keyword_of, IsKeywordIn};

use cover_line::Word;

/// The first word of a line.
#[derive(Clone, Copy, Debug, PartialEq, Eq)]
pub(crate) enum Keyword {
    Version,
    Margin,
    Delta,
    Bound,
    Lower,
    Goal,
    Checks,
    Cover,
    Keep,
    Point,
    Tree,
    End,
    Lemma,
    Real,
    Bool,
    Yes,
    No,
    Over,
    /// The word of a line of a tree.
    Rule(Word),
}

// The first word outside trees that these bytes are.
fn header_keyword_in(word: &[u8]) -> Option<Keyword>
    ensures { result ≡ header_keyword_of word.now }
{
    if word == b"dpoly".as_slice() {
        return Some(Keyword::Version);
    }
    if word == b"margin".as_slice() {
        return Some(Keyword::Margin);
    }
    if word == b"delta".as_slice() {
        return Some(Keyword::Delta);
    }
    if word == b"bound".as_slice() {
        return Some(Keyword::Bound);
    }
    if word == b"lower".as_slice() {
        return Some(Keyword::Lower);
    }
    if word == b"goal".as_slice() {
        return Some(Keyword::Goal);
    }
    if word == b"checks".as_slice() {
        return Some(Keyword::Checks);
    }
    if word == b"cover".as_slice() {
        return Some(Keyword::Cover);
    }
    if word == b"keep".as_slice() {
        return Some(Keyword::Keep);
    }
    if word == b"point".as_slice() {
        return Some(Keyword::Point);
    }
    if word == b"tree".as_slice() {
        return Some(Keyword::Tree);
    }
    if word == b"end".as_slice() {
        return Some(Keyword::End);
    }
    if word == b"lemma".as_slice() {
        return Some(Keyword::Lemma);
    }
    if word == b"real".as_slice() {
        return Some(Keyword::Real);
    }
    if word == b"bool".as_slice() {
        return Some(Keyword::Bool);
    }
    if word == b"yes".as_slice() {
        return Some(Keyword::Yes);
    }
    if word == b"no".as_slice() {
        return Some(Keyword::No);
    }
    if word == b"over".as_slice() {
        return Some(Keyword::Over);
    }
    None
}

/// The first word that these bytes are; none where no line begins with them.
pub(crate) fn keyword_in(word: &[u8]) -> Option<Keyword>
    ensures { IsKeywordIn word.now result }
{
    match header_keyword_in(word) {
        Some(keyword) => Some(keyword),
        None => match Word::spelled(word) {
            Some(word) => Some(Keyword::Rule(word)),
            None => None,
        },
    }
}
