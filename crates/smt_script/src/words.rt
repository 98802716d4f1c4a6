// The words that begin commands, and those of logics and sorts.
ghost use Rattle.std.specs.Prelude.{◌≡◌, Option, option_map};
ghost use Rattle.script_model.specs.Reading.{found};
ghost use Rattle.smt_script.specs.Commands.{command_words, is_logic, known_sort, logics, sort_words};
ghost use Rattle.smt_script.specs.Views.{form_of, word_of};
ghost use Rattle.smt_script.specs.Words.{assertion_words, level_words, out_words};

use crate::Sort;

/// The word that begins a command.
#[derive(Clone, Copy, Debug)]
pub(crate) enum Word {
    SetsLogic,
    /// Of any form, and without effect.
    Informs,
    Echoes,
    GetsModel,
    GetsValues,
    Declares,
    DeclaresFunction,
    Defines,
    Asserts,
    Minimizes,
    Checks,
    Exits,
    Pushes,
    Pops,
    Assumes,
    /// Drops what is in force.
    Drops,
    /// Drops what is in force, and the logic.
    Restarts,
    /// Known, and left out of the language in every form.
    StaysOut,
}

/// What stands in the place of a sort.
#[derive(Clone, Copy, Debug)]
pub(crate) enum SortForm {
    NoSort,
    Other,
    One(Sort),
}

/// The word of this name.
pub(crate) fn word_named(name: &[u8]) -> Option<Word>
    ensures { option_map word_of result ≡ found name.now command_words }
{
    if name == b"set-logic".as_slice() {
        return Some(Word::SetsLogic);
    }
    if name == b"set-info".as_slice() {
        return Some(Word::Informs);
    }
    if name == b"set-option".as_slice() {
        return Some(Word::Informs);
    }
    if name == b"get-model".as_slice() {
        return Some(Word::GetsModel);
    }
    word_of_levels(name)
}

// The same of the words that tell, ask and change what is in force.
fn word_of_levels(name: &[u8]) -> Option<Word>
    ensures { option_map word_of result ≡ found name.now level_words }
{
    if name == b"get-info".as_slice() {
        return Some(Word::Informs);
    }
    if name == b"echo".as_slice() {
        return Some(Word::Echoes);
    }
    if name == b"get-value".as_slice() {
        return Some(Word::GetsValues);
    }
    if name == b"push".as_slice() {
        return Some(Word::Pushes);
    }
    if name == b"pop".as_slice() {
        return Some(Word::Pops);
    }
    if name == b"check-sat-assuming".as_slice() {
        return Some(Word::Assumes);
    }
    if name == b"reset-assertions".as_slice() {
        return Some(Word::Drops);
    }
    if name == b"reset".as_slice() {
        return Some(Word::Restarts);
    }
    word_of_assertions(name)
}

// The same of the words that declare, define, assert, minimize and check.
fn word_of_assertions(name: &[u8]) -> Option<Word>
    ensures { option_map word_of result ≡ found name.now assertion_words }
{
    if name == b"declare-const".as_slice() {
        return Some(Word::Declares);
    }
    if name == b"declare-fun".as_slice() {
        return Some(Word::DeclaresFunction);
    }
    if name == b"define-fun".as_slice() {
        return Some(Word::Defines);
    }
    if name == b"assert".as_slice() {
        return Some(Word::Asserts);
    }
    if name == b"minimize".as_slice() {
        return Some(Word::Minimizes);
    }
    if name == b"check-sat".as_slice() {
        return Some(Word::Checks);
    }
    if name == b"exit".as_slice() {
        return Some(Word::Exits);
    }
    word_left_out(name)
}

// The same of the words that stay out.
fn word_left_out(name: &[u8]) -> Option<Word>
    ensures { option_map word_of result ≡ found name.now out_words }
{
    if name == b"get-unsat-core".as_slice() {
        return Some(Word::StaysOut);
    }
    if name == b"get-proof".as_slice() {
        return Some(Word::StaysOut);
    }
    if name == b"define-const".as_slice() {
        return Some(Word::StaysOut);
    }
    if name == b"define-sort".as_slice() {
        return Some(Word::StaysOut);
    }
    if name == b"define-fun-rec".as_slice() {
        return Some(Word::StaysOut);
    }
    if name == b"define-funs-rec".as_slice() {
        return Some(Word::StaysOut);
    }
    if name == b"declare-datatype".as_slice() {
        return Some(Word::StaysOut);
    }
    if name == b"declare-datatypes".as_slice() {
        return Some(Word::StaysOut);
    }
    None
}

/// Whether this logic is read.
pub(crate) fn is_logic(name: &[u8]) -> bool
    ensures { result ≡ is_logic (found name.now logics) }
{
    name == b"QF_NRA".as_slice() || name == b"QF_LRA".as_slice()
}

/// The sort of this name.
pub(crate) fn sort_named(name: &[u8]) -> SortForm
    ensures { form_of result ≡ known_sort (found name.now sort_words) }
{
    if name == b"Real".as_slice() {
        return SortForm::One(Sort::Real);
    }
    if name == b"Bool".as_slice() {
        return SortForm::One(Sort::Bool);
    }
    SortForm::Other
}
