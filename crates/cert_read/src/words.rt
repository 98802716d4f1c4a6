// The words behind the first one.
ghost use Rattle.std.specs.Prelude.{option_copied};
ghost use Rattle.cert_read.specs.Words.{AreWords, words_behind};

use crate::place::cut;

/// The words of a line behind its first one, where they are at most two.
#[derive(Clone, Copy)]
pub(crate) enum Words<'a> {
    Nothing,
    One(&'a [u8]),
    Two(&'a [u8], &'a [u8]),
    More,
}

/// The words of what stands behind a space, where there is one.
pub(crate) fn words_behind(rest: Option<&[u8]>) -> Words
    ensures { AreWords result (words_behind (option_copied rest.entry)) }
{
    let Some(text) = rest else {
        return Words::Nothing;
    };
    let (first, rest) = cut(text);
    let Some(text) = rest else {
        return Words::One(first);
    };
    let (second, rest) = cut(text);
    match rest {
        None => Words::Two(first, second),
        Some(_) => Words::More,
    }
}
