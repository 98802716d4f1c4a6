// Names as SMT-LIB 2.6, section 3.1, writes them: in bars, unless they are simple symbols that are not reserved. The names
// of constants that stand for roots and quotients are no symbols.
ghost use Rattle.std.specs.Prelude.{◌≡◌, ◌++◌, OnOk, is_some};
ghost use Rattle.std.specs.List.{list_all};
ghost use Rattle.script_model.specs.Reading.{found};
ghost use Rattle.script_model.specs.Symbol.{is_simple_symbol, is_symbol_byte, reserved_words};
ghost use Rattle.cert_model.specs.AnswerText.{name_text, symbol_text};

use std::alloc::AllocError;

// Appends a name that is a symbol.
fn append_symbol(text: &mut Vec<u8>, name: &[u8]) -> Result<(), AllocError>
    ensures { OnOk result (text.new.items ≡ text.old.items ++ symbol_text name.now) }
{
    if is_simple_symbol(name) {
        return text.extend_from_slice(name);
    }
    text.extend_from_slice(b"|")?;
    text.extend_from_slice(name)?;
    text.extend_from_slice(b"|")
}

/// Appends the name.
pub(crate) fn append_name(text: &mut Vec<u8>, name: &[u8]) -> Result<(), AllocError>
    ensures { OnOk result (text.new.items ≡ text.old.items ++ name_text name.now) }
{
    match name {
        [b'|', rest @ ..] => text.extend_from_slice(rest),
        _ => append_symbol(text, name),
    }
}

// Whether the name needs no bars.
#[tactic(auto, using(crate::proofs::Symbols::are_symbol_bytes_from_all))]
fn is_simple_symbol(name: &[u8]) -> bool
    ensures { result ≡ is_simple_symbol name.now }
{
    match name {
        [] => false,
        [first, ..] => !first.is_ascii_digit() && are_symbol_bytes(name) && !is_reserved(name),
    }
}

fn are_symbol_bytes(name: &[u8]) -> bool
    ensures { result ≡ list_all is_symbol_byte name.now }
{
    name.iter().all(|b| is_symbol_byte(*b))
}

fn is_symbol_byte(b: u8) -> bool
    ensures { result ≡ is_symbol_byte b }
{
    matches!(b, b'a'..=b'z' | b'A'..=b'Z' | b'0'..=b'9'
        | b'~' | b'!' | b'@' | b'$' | b'%' | b'^' | b'&' | b'*' | b'_' | b'-'
        | b'+' | b'=' | b'<' | b'>' | b'.' | b'?' | b'/')
}

fn is_reserved(name: &[u8]) -> bool
    ensures { result ≡ is_some (found name.now reserved_words) }
{
    name == b"!".as_slice()
        || name == b"_".as_slice()
        || name == b"as".as_slice()
        || name == b"let".as_slice()
        || name == b"exists".as_slice()
        || name == b"forall".as_slice()
        || name == b"match".as_slice()
        || name == b"par".as_slice()
}
