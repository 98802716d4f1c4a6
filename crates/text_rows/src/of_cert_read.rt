// Lines and what they say, there and back, long lines, and a text cut at every place.
use cert_read::*;
use cert_text::append_line;
use cover_line::{Block, Branching, Ending, Factor, Marking, Narrowing, Rule, Staying};
use dyadic::{Dy, read_dy};
use std::alloc::{AllocError, Global};

// ---- what lines say

// What a line says that has no list and no number of the grid.
#[derive(Clone, Copy, PartialEq)]
enum Plain {
    Version(u32),
    Margin(u32),
    Delta(u32),
    Bound(Option<u32>),
    Cover(u32),
    Point,
    Tree,
    End,
    Lemma(u32),
    Bool(BoolSet),
    Pull(u32),
    Unit(u32),
    Void(u32),
    Push(u32),
    VoidNo(u32),
    Case(u32),
    Stuck(u32),
    By(u32),
    Ban(u32, u32),
    Flip(u32),
    False,
    Open,
    Empty(u32),
}

// A block, with numbers by their texts.
struct SaidBlock {
    factor: Factor,
    monomials: &'static [&'static [u32]],
    rows: &'static [&'static [&'static str]],
}

// What a line says, with numbers by their texts.
enum Said {
    Plain(Plain),
    Interval(&'static str, &'static str),
    Value(&'static str),
    Cut(u32, &'static str),
    Yes(&'static [u32]),
    No(&'static [u32]),
    Combine(&'static [(u32, &'static str)]),
    VoidCombine(&'static [(u32, &'static str)]),
    Squares(&'static [(u32, &'static str)], &'static [SaidBlock]),
    Either(&'static [u32], &'static [u32]),
}

fn plain_of(line: &Line) -> Option<Plain> {
    match line {
        Line::Version(n) => Some(Plain::Version(*n)),
        Line::Margin(n) => Some(Plain::Margin(*n)),
        Line::Delta(n) => Some(Plain::Delta(*n)),
        Line::Bound(n) => Some(Plain::Bound(*n)),
        Line::Cover(n) => Some(Plain::Cover(*n)),
        Line::Point => Some(Plain::Point),
        Line::Tree => Some(Plain::Tree),
        Line::End => Some(Plain::End),
        Line::Lemma(n) => Some(Plain::Lemma(*n)),
        Line::Bool(n) => Some(Plain::Bool(*n)),
        Line::Rule(Rule::Narrow(Narrowing::Pull(n))) => Some(Plain::Pull(*n)),
        Line::Rule(Rule::Mark(Marking::Unit(n))) => Some(Plain::Unit(*n)),
        Line::Rule(Rule::End(Ending::Void(Narrowing::Pull(n)))) => Some(Plain::Void(*n)),
        Line::Rule(Rule::Narrow(Narrowing::Push(n))) => Some(Plain::Push(*n)),
        Line::Rule(Rule::End(Ending::Void(Narrowing::Push(n)))) => Some(Plain::VoidNo(*n)),
        Line::Rule(Rule::Branch(Branching::Case(n))) => Some(Plain::Case(*n)),
        Line::Rule(Rule::Stay(Staying::Stuck(n))) => Some(Plain::Stuck(*n)),
        Line::Rule(Rule::End(Ending::By(n))) => Some(Plain::By(*n)),
        Line::Rule(Rule::Mark(Marking::Ban(a, b))) => Some(Plain::Ban(*a, *b)),
        Line::Rule(Rule::Branch(Branching::Flip(n))) => Some(Plain::Flip(*n)),
        Line::Rule(Rule::End(Ending::False)) => Some(Plain::False),
        Line::Rule(Rule::Stay(Staying::Open)) => Some(Plain::Open),
        Line::Empty(n) => Some(Plain::Empty(*n)),
        _ => None,
    }
}

fn is_number(value: Dy, text: &str) -> bool {
    read_dy(text.as_bytes()).is_ok_and(|number| number == value)
}

fn are_pairs(pairs: &[(u32, Dy)], said: &[(u32, &'static str)]) -> bool {
    if pairs.len() != said.len() {
        return false;
    }
    for i in 0..said.len() {
        if pairs[i].0 != said[i].0 || !is_number(pairs[i].1, said[i].1) {
            return false;
        }
    }
    true
}

fn are_monomials(monomials: &[Vec<u32>], said: &[&[u32]]) -> bool {
    if monomials.len() != said.len() {
        return false;
    }
    for i in 0..said.len() {
        if monomials[i].as_slice() != said[i] {
            return false;
        }
    }
    true
}

fn is_row(row: &[Dy], said: &[&str]) -> bool {
    if row.len() != said.len() {
        return false;
    }
    for i in 0..said.len() {
        if !is_number(row[i], said[i]) {
            return false;
        }
    }
    true
}

fn are_rows(rows: &[Vec<Dy>], said: &[&[&str]]) -> bool {
    if rows.len() != said.len() {
        return false;
    }
    for i in 0..said.len() {
        if !is_row(&rows[i], said[i]) {
            return false;
        }
    }
    true
}

fn are_blocks(blocks: &[Block], said: &[SaidBlock]) -> bool {
    if blocks.len() != said.len() {
        return false;
    }
    for i in 0..said.len() {
        if blocks[i].factor != said[i].factor
            || !are_monomials(&blocks[i].monomials, said[i].monomials)
            || !are_rows(&blocks[i].rows, said[i].rows)
        {
            return false;
        }
    }
    true
}

fn is_said(line: &Line, said: &Said) -> bool {
    match (line, said) {
        (Line::RealInterval(low, high), Said::Interval(least, most)) => {
            is_number(*low, least) && is_number(*high, most)
        }
        (Line::RealValue(value), Said::Value(text)) => is_number(*value, text),
        (Line::Rule(Rule::Branch(Branching::Cut(axis, place))), Said::Cut(of, text)) => *axis == *of
            && is_number(*place, text),
        (Line::Yes(atoms), Said::Yes(wanted)) => atoms.as_slice() == *wanted,
        (Line::No(atoms), Said::No(wanted)) => atoms.as_slice() == *wanted,
        (Line::Rule(Rule::Narrow(Narrowing::Combine(pairs))), Said::Combine(wanted)) => are_pairs(
            pairs, wanted,
        ),
        (
            Line::Rule(Rule::End(Ending::Void(Narrowing::Combine(pairs)))),
            Said::VoidCombine(wanted),
        ) => are_pairs(pairs, wanted),
        (Line::Rule(Rule::End(Ending::Squares(pairs, blocks))), Said::Squares(wanted, said)) => {
            are_pairs(pairs, wanted) && are_blocks(blocks, said)
        }
        (Line::Rule(Rule::Branch(Branching::Either(first, second))), Said::Either(ones, others)) =>
            { first.as_slice() == *ones && second.as_slice() == *others }
        (line, Said::Plain(wanted)) => plain_of(line) == Some(*wanted),
        _ => false,
    }
}

// What the first line of an input says.
fn first(alloc: Global, text: &[u8]) -> Result<Option<Line>, LineFault> {
    let mut reader = LineReader::new(alloc);
    reader.feed(text)?;
    reader.end();
    reader.next_line()
}

const LINES: &[(&str, Said)] = &[
    ("dpoly 1", Said::Plain(Plain::Version(1))),
    ("margin 20", Said::Plain(Plain::Margin(20))),
    ("delta 10\n", Said::Plain(Plain::Delta(10))),
    ("bound none", Said::Plain(Plain::Bound(None))),
    ("bound 7", Said::Plain(Plain::Bound(Some(7)))),
    ("cover 4294967295", Said::Plain(Plain::Cover(4_294_967_295))),
    ("point", Said::Plain(Plain::Point)),
    ("tree\n\n", Said::Plain(Plain::Tree)),
    ("end", Said::Plain(Plain::End)),
    ("lemma 0", Said::Plain(Plain::Lemma(0))),
    ("bool both", Said::Plain(Plain::Bool(BoolSet::Both))),
    ("bool true", Said::Plain(Plain::Bool(BoolSet::True))),
    ("bool false", Said::Plain(Plain::Bool(BoolSet::False))),
    ("pull 4", Said::Plain(Plain::Pull(4))),
    ("unit 5", Said::Plain(Plain::Unit(5))),
    ("void 6", Said::Plain(Plain::Void(6))),
    ("push 10", Said::Plain(Plain::Push(10))),
    ("voidno 11", Said::Plain(Plain::VoidNo(11))),
    ("case 7", Said::Plain(Plain::Case(7))),
    ("stuck 8", Said::Plain(Plain::Stuck(8))),
    ("by 9", Said::Plain(Plain::By(9))),
    ("ban 1 2", Said::Plain(Plain::Ban(1, 2))),
    ("flip 2", Said::Plain(Plain::Flip(2))),
    ("false", Said::Plain(Plain::False)),
    ("open", Said::Plain(Plain::Open)),
    ("empty 3", Said::Plain(Plain::Empty(3))),
    ("real 0 1b0", Said::Interval("0", "1b0")),
    ("real -3b-2", Said::Value("-3b-2")),
    ("cut 1 1b-1", Said::Cut(1, "1b-1")),
    ("yes", Said::Yes(&[])),
    ("yes 4 0 12", Said::Yes(&[4, 0, 12])),
    ("no 3", Said::No(&[3])),
    ("comb 3 1b0", Said::Combine(&[(3, "1b0")])),
    (
        "comb 3 1b0 4 -3b-2",
        Said::Combine(&[(3, "1b0"), (4, "-3b-2")]),
    ),
    ("voidcomb 0 -1b0", Said::VoidCombine(&[(0, "-1b0")])),
    ("voidcomb 2 0 2 0", Said::VoidCombine(&[(2, "0"), (2, "0")])),
    ("either 0", Said::Either(&[], &[])),
    ("either 0 4", Said::Either(&[], &[4])),
    ("either 1 4", Said::Either(&[4], &[])),
    ("either 1 4 5", Said::Either(&[4], &[5])),
    ("either 2 0 1 2 3", Said::Either(&[0, 1], &[2, 3])),
    ("either 1 2 2 0", Said::Either(&[2], &[2, 0])),
    (
        "either 3 7 8 4294967295 9\n",
        Said::Either(&[7, 8, 4_294_967_295], &[9]),
    ),
    ("voidpos 0", Said::Squares(&[], &[])),
    ("voidpos 1 4 1b0", Said::Squares(&[(4, "1b0")], &[])),
    (
        "voidpos 1 4 1b0 0 1 0 -3b-2",
        Said::Squares(
            &[(4, "1b0")],
            &[SaidBlock {
                factor: Factor::One,
                monomials: &[&[]],
                rows: &[&["-3b-2"]],
            }],
        ),
    ),
    (
        "voidpos 2 4 1b0 7 -3b-2 0 2 1 8 1 9 1b0 -1b0 0 1 6 3 0 1 5 2 5 6 1b0 3b0 5b0 7b0 9b0 11b0",
        Said::Squares(
            &[(4, "1b0"), (7, "-3b-2")],
            &[
                SaidBlock {
                    factor: Factor::One,
                    monomials: &[&[8], &[9]],
                    rows: &[&["1b0", "-1b0"], &["0"]],
                },
                SaidBlock {
                    factor: Factor::BoundOf(6),
                    monomials: &[&[], &[5], &[5, 6]],
                    rows: &[&["1b0", "3b0", "5b0"], &["7b0", "9b0"], &["11b0"]],
                },
            ],
        ),
    ),
    (
        "voidpos 0 0 0 1 3 0",
        Said::Squares(
            &[],
            &[
                SaidBlock {
                    factor: Factor::One,
                    monomials: &[],
                    rows: &[],
                },
                SaidBlock {
                    factor: Factor::BoundOf(3),
                    monomials: &[],
                    rows: &[],
                },
            ],
        ),
    ),
];

// Whether the text's first line says this.
fn says(alloc: Global, text: &str, said: &Said) -> bool {
    match first(alloc, text.as_bytes()) {
        Ok(Some(line)) => is_said(&line, said),
        _ => false,
    }
}

#[test]
fn tells_lines(rt: HostRuntime) {
    for (text, said) in LINES {
        assert!(rt; says(rt.alloc(), text, said), "{text}");
    }
}

// Whether what the text's one line says is written as that line again.
fn is_written_back(alloc: Global, text: &str) -> bool {
    let Ok(Some(line)) = first(alloc, text.as_bytes()) else {
        return false;
    };
    let mut written = Vec::new(alloc);
    append_line(&mut written, &line).is_ok()
        && written.strip_suffix(b"\n") == Some(text.trim_end().as_bytes())
}

#[test]
fn lines_are_written_back(rt: HostRuntime) {
    for (text, _) in LINES {
        assert!(rt; is_written_back(rt.alloc(), text), "{text}");
    }
}

const FAULTS: [(&str, LineFault); 52] = [
    ("\n", LineFault::BadLine),
    ("shove 4", LineFault::BadLine),
    ("pull", LineFault::BadLine),
    ("pull 4 5", LineFault::BadLine),
    ("pull  4", LineFault::BadLine),
    (" pull 4", LineFault::BadLine),
    ("pull 4 ", LineFault::BadLine),
    ("pull 4\r", LineFault::BadNumber),
    ("tree 1", LineFault::BadLine),
    ("real 0 0 0", LineFault::BadLine),
    ("bool x", LineFault::BadLine),
    ("yes  1", LineFault::BadLine),
    ("comb", LineFault::BadLine),
    ("comb 3", LineFault::BadLine),
    ("comb 3 1b0 4", LineFault::BadLine),
    ("comb 3  1b0", LineFault::BadLine),
    ("voidcomb", LineFault::BadLine),
    ("ÿ", LineFault::BadLine),
    ("Pull 4", LineFault::BadLine),
    ("pull 04", LineFault::BadNumber),
    ("pull -4", LineFault::BadNumber),
    ("pull +4", LineFault::BadNumber),
    ("pull 4294967296", LineFault::BadNumber),
    ("pull 99999999999999999999999999", LineFault::BadNumber),
    ("bound some", LineFault::BadNumber),
    ("real 2b-1 0", LineFault::BadNumber),
    ("real 0 1b123", LineFault::BadNumber),
    ("cut 1b0 1b0", LineFault::BadNumber),
    ("no 1 x", LineFault::BadNumber),
    ("comb 3 2b0", LineFault::BadNumber),
    ("comb 03 1b0", LineFault::BadNumber),
    ("voidcomb 3 1b0 4 1b123", LineFault::BadNumber),
    ("either", LineFault::BadLine),
    ("either 2 4", LineFault::BadLine),
    ("either 4294967295 4 5", LineFault::BadLine),
    ("either 1  4", LineFault::BadLine),
    ("either 4294967296 4", LineFault::BadNumber),
    ("either 2 4 x", LineFault::BadNumber),
    ("either 1 4 05", LineFault::BadNumber),
    ("either 1 4 5 1b0", LineFault::BadNumber),
    ("voidpos", LineFault::BadLine),
    ("voidpos 2 4 1b0", LineFault::BadLine),
    ("voidpos 4294967295 4 1b0", LineFault::BadLine),
    ("voidpos 1 4 1b0 2 1 0 1b0", LineFault::BadLine),
    ("voidpos 1 4 1b0 1", LineFault::BadLine),
    ("voidpos 1 4 1b0 0 4294967295 0", LineFault::BadLine),
    ("voidpos 1 4 1b0 0 2 0 0 1b0 1b0", LineFault::BadLine),
    ("voidpos 4294967296 4 1b0", LineFault::BadNumber),
    ("voidpos 1 4 2b0 2", LineFault::BadNumber),
    ("voidpos 2 4 1b0 x", LineFault::BadNumber),
    ("voidpos 1 4 1b0 0 1 1 1b0 1b0", LineFault::BadNumber),
    ("voidpos 1 4 1b0 0 1 0 2b0", LineFault::BadNumber),
];

// Whether the text's first line is refused so.
fn is_refused(alloc: Global, text: &str, fault: LineFault) -> bool {
    match first(alloc, text.as_bytes()) {
        Ok(_) => false,
        Err(told) => told == fault,
    }
}

#[test]
fn tells_faults(rt: HostRuntime) {
    for (text, fault) in &FAULTS {
        assert!(rt; is_refused(rt.alloc(), text, *fault), "{text}");
    }
}

// ---- long lines

const LONGEST: usize = 524_288;

fn next_is(reader: &mut LineReader, fault: LineFault) -> bool {
    matches!(reader.next_line(), Err(told) if told == fault)
}

// Whether the longest line that may be is held until it ends.
fn is_held(reader: &mut LineReader, longest: &[u8]) -> bool {
    reader.feed(longest).is_ok()
        && matches!(reader.next_line(), Ok(None))
        && reader.held() == LONGEST
        && reader.feed(b"\n").is_ok()
        && next_is(reader, LineFault::BadLine)
}

// Whether a longer one is refused at once, and stays refused.
fn is_too_long(reader: &mut LineReader, longer: &[u8]) -> bool {
    reader.feed(longer).is_ok()
        && next_is(reader, LineFault::LineTooLong)
        && reader.feed(b"\n").is_ok()
        && next_is(reader, LineFault::LineTooLong)
}

fn holds_longest(alloc: Global) -> Result<bool, AllocError> {
    let longest = vec![in alloc; b'x'; LONGEST]?;
    let mut reader = LineReader::new(alloc);
    Ok(is_held(&mut reader, &longest))
}

fn refuses_longer(alloc: Global) -> Result<bool, AllocError> {
    let longer = vec![in alloc; b'x'; LONGEST + 1]?;
    let mut reader = LineReader::new(alloc);
    Ok(is_too_long(&mut reader, &longer))
}

#[test]
fn tells_long_lines(rt: HostRuntime) {
    assert_eq!(rt; holds_longest(rt.alloc()), Ok(true));
    assert_eq!(rt; refuses_longer(rt.alloc()), Ok(true));
}

// ---- cuts

const TEXT: &[u8] = b"dpoly 1\nyes 1 22 3\nreal 0 1b0\nfalse\ncut 1 -1b-1\nend";

// What the lines of the text say.
const SAID: &[Said] = &[
    Said::Plain(Plain::Version(1)),
    Said::Yes(&[1, 22, 3]),
    Said::Interval("0", "1b0"),
    Said::Plain(Plain::False),
    Said::Cut(1, "-1b-1"),
    Said::Plain(Plain::End),
];

// Whether the next lines in what was fed are those of the text from this one on, which moves past them.
fn follows(reader: &mut LineReader, at: &mut usize) -> bool {
    for _ in 0..100 {
        match reader.next_line() {
            Ok(None) => return true,
            Ok(Some(line)) if *at < SAID.len() && is_said(&line, &SAID[*at]) => *at += 1,
            _ => return false,
        }
    }
    false
}

// Whether the last line is told once the text has ended, and nothing behind it.
fn ends(reader: &mut LineReader, at: &mut usize) -> bool {
    reader.end();
    reader.feed(b"tree\n").is_ok() && follows(reader, at) && reader.held() == 0 && *at == SAID.len()
}

// Whether the lines are told from two pieces, of which the second ends in three letters of a line that is not over.
fn is_told(reader: &mut LineReader, front: &[u8], back: &[u8]) -> bool {
    let mut at = 0;
    reader.feed(front).is_ok()
        && follows(reader, &mut at)
        && reader.feed(back).is_ok()
        && follows(reader, &mut at)
        && reader.held() == 3
        && ends(reader, &mut at)
}

fn is_told_in_pieces(alloc: Global, cut: usize) -> bool {
    if cut > TEXT.len() {
        return false;
    }
    let (front, back) = TEXT.split_at(cut);
    let mut reader = LineReader::new(alloc);
    is_told(&mut reader, front, back)
}

#[test]
fn cuts_do_not_matter(rt: HostRuntime) {
    for cut in 0..=TEXT.len() {
        assert!(rt; is_told_in_pieces(rt.alloc(), cut), "{cut}");
    }
}
