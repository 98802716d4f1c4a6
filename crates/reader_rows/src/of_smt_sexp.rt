use script_fault::{FaultKind, Limit, Name, Place, ReadError};
use smt_sexp::*;
use std::alloc::{AllocError, Global};
use std::test::Fail;

// The first fault of a text, with its line and column.
#[derive(Clone, Copy, Debug, PartialEq, Eq)]
enum Refused {
    BadByte(u32, u32),
    OpenToken(u32, u32),
    Unbalanced(u32, u32),
    TooWide(u32, u32),
    TooDeep(u32, u32),
    Other,
}

fn refusal_of(error: &ReadError) -> Refused {
    let ReadError::Fault(fault) = error else {
        return Refused::Other;
    };
    let Place { line, column } = fault.at;
    match &fault.kind {
        FaultKind::BadByte => Refused::BadByte(line, column),
        FaultKind::OpenToken => Refused::OpenToken(line, column),
        FaultKind::Unbalanced => Refused::Unbalanced(line, column),
        FaultKind::NumberTooWide => Refused::TooWide(line, column),
        FaultKind::TooMany(Limit::Depth) => Refused::TooDeep(line, column),
        _ => Refused::Other,
    }
}

// How many places a text has, or its first fault.
fn places(alloc: Global, text: &[u8]) -> Result<usize, Refused> {
    match read(alloc, text) {
        Ok(sexps) => Ok(sexps.len()),
        Err(error) => Err(refusal_of(&error)),
    }
}

fn bad_byte(line: u32, column: u32) -> Result<usize, Refused> {
    Err(Refused::BadByte(line, column))
}

fn open_token(line: u32, column: u32) -> Result<usize, Refused> {
    Err(Refused::OpenToken(line, column))
}

fn unbalanced(line: u32, column: u32) -> Result<usize, Refused> {
    Err(Refused::Unbalanced(line, column))
}

fn too_wide(line: u32, column: u32) -> Result<usize, Refused> {
    Err(Refused::TooWide(line, column))
}

#[test]
fn reads_tokens(rt: HostRuntime) {
    let rows = [
        ("", Ok(0)),
        ("(check-sat)", Ok(3)),
        ("007", bad_byte(1, 2)),
        ("1x", bad_byte(1, 2)),
        ("|a", open_token(1, 1)),
        ("\"a\"\"", open_token(1, 1)),
        ("\"a\"\"b\"", Ok(1)),
        ("; c\r)", unbalanced(1, 5)),
        ("\n\r\n)", unbalanced(3, 1)),
        ("1\"a\"", Ok(2)),
        ("1(", unbalanced(1, 2)),
        ("2.", Ok(1)),
        ("1..2", bad_byte(1, 3)),
        (":", bad_byte(1, 1)),
        (":a", Ok(1)),
        ("a\\", bad_byte(1, 2)),
        ("|a\\b|", bad_byte(1, 3)),
        ("#x1", bad_byte(1, 1)),
    ];
    for (text, expected) in rows {
        assert_eq!(rt; places(rt.alloc(), text.as_bytes()), expected, "{text}");
    }
}

#[test]
fn reads_parentheses(rt: HostRuntime) {
    let rows = [
        ("(assert true", unbalanced(1, 1)),
        ("(check-sat))", unbalanced(1, 12)),
        ("((exit)", unbalanced(1, 1)),
        ("(exit)\n((", Ok(3)),
        ("(|exit|) )", Ok(3)),
        ("((exit)) (exit 1)", Ok(9)),
        ("( |a", open_token(1, 3)),
        ("|a (", open_token(1, 1)),
        ("( \n\"a", open_token(2, 1)),
    ];
    for (text, expected) in rows {
        assert_eq!(rt; places(rt.alloc(), text.as_bytes()), expected, "{text}");
    }
}

#[test]
fn counts_depth(rt: HostRuntime) -> Result<(), Fail> {
    let alloc = rt.alloc();
    let deepest = vec![in alloc; b'('; 256]?;
    assert_eq!(rt; places(alloc, &deepest), unbalanced(1, 256));
    let deeper = vec![in alloc; b'('; 257]?;
    assert_eq!(rt; places(alloc, &deeper), Err(Refused::TooDeep(1, 257)));
    Ok(())
}

#[test]
fn measures_numbers(rt: HostRuntime) {
    let rows = [
        ("1000000000000000000000000000000000000", Ok(1)),
        ("1000000000000000000000000000000000001", too_wide(1, 1)),
        ("99999999999999999999999999999999999999x", too_wide(1, 1)),
        ("0.000000000000000000000000000000000001", Ok(1)),
        ("\n 0.0000000000000000000000000000000000001", too_wide(2, 2)),
        ("10000000000.00000000000000000000000000", Ok(1)),
        ("10000000000.000000000000000000000000010", too_wide(1, 1)),
    ];
    for (text, expected) in rows {
        assert_eq!(rt; places(rt.alloc(), text.as_bytes()), expected, "{text}");
    }
}

// A place among expressions, in words.
fn shown(alloc: Global, sexps: &Sexps, at: usize) -> Result<String, AllocError> {
    match sexps.look(at) {
        Seen::End => format!(in alloc; "end"),
        Seen::Leaf(place, leaf, _) => {
            let Place { line, column } = place;
            format!(in alloc; "{line}:{column} {leaf:?}")
        }
        Seen::Group(place, inside, after) => {
            let Place { line, column } = place;
            format!(in alloc; "{line}:{column} group {inside} {after}")
        }
    }
}

#[test]
fn tells_leaves(rt: HostRuntime) -> Result<(), Fail> {
    let alloc = rt.alloc();
    let sexps = read(alloc, b"(let |let|\n 2.5 \"a\"\"b\" :k) 7")?;
    assert_eq!(rt; sexps.len(), 8);
    let rows = [
        (0, "1:1 group 1 7"),
        (1, "1:2 Reserved(Let)"),
        (2, "1:6 Symbol(Name { bytes: [108, 101, 116] })"),
        (3, "2:2 Decimal(Name { bytes: [50] }, Name { bytes: [53] })"),
        (4, "2:6 String(Name { bytes: [97, 34, 98] })"),
        (5, "2:13 Keyword(Name { bytes: [107] })"),
        (6, "end"),
        (7, "2:17 Numeral(Name { bytes: [55] })"),
        (8, "end"),
    ];
    for (at, expected) in rows {
        let text = shown(alloc, &sexps, at)?;
        assert_eq!(rt; text.as_str(), expected);
    }
    let name = Name::from_slice(alloc, b"x")?;
    assert_eq!(rt; name.as_slice(), b"x".as_slice());
    let bytes = name.into_bytes();
    assert_eq!(rt; Name::new(bytes).as_slice().len(), 1);
    Ok(())
}
