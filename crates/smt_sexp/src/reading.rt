// The expressions of a text, or its first fault (SMT-LIB 2.6, sections 3.1 and 3.2).
ghost use Rattle.std.specs.Prelude.{◌≡◌, ℕ, ◌+◌, ◌^◌, ◌<◌, ◌≤◌, List, MatchResult, OnOk, IfErr, IfOk, drop, length, take, vec_len};
ghost use Rattle.script_model.specs.Sexp as sexp;
ghost use Rattle.smt_sexp.specs.Building.{Stands};
ghost use Rattle.smt_sexp.specs.FrontOf.{IsFrontOf, front_of};
ghost use Rattle.smt_sexp.specs.Lexicon.{TextRead, Unclosed, place_after, read};
ghost use Rattle.script_fault.specs.Answers.{IsFaultOrMemory};
ghost use Rattle.smt_sexp.specs.TextAnswers.{HasExpressions, IsTextAnswer, bytes_fault, most_bytes, text_fault};
ghost use Rattle.smt_sexp.specs.Step.{GoesOn, IsRead, IsReading};
ghost use Rattle.smt_sexp.specs.Views.{place_of};

use crate::Sexps;
use crate::building::Building;
use crate::tokens::{Lexeme, Piece, front};
use script_fault::{FaultKind, Limit, MOST_BYTES, MOST_DEPTH, Place, ReadError};
use std::alloc::Global;

/// All expressions of a text up to a top-level `(exit)`.
///
/// # Errors
///
/// That there are more than `MOST_BYTES` bytes, at 0:0, else the first fault of the text.
pub fn read(alloc: Global, bytes: &[u8]) -> Result<Sexps, ReadError>
    ensures { MatchResult result
        (λ s. HasExpressions bytes.now s)
        (λ e. IsFaultOrMemory e (bytes_fault bytes.now)) }
{
    if bytes.len() > MOST_BYTES {
        let nowhere = Place { line: 0, column: 0 };
        return Err(ReadError::at(nowhere, FaultKind::TooMany(Limit::Bytes)));
    }
    read_text(alloc, bytes)
}

// The same of bytes that are not too many.
fn read_text(alloc: Global, bytes: &[u8]) -> Result<Sexps, ReadError>
    requires { length bytes.now ≤ most_bytes }
    ensures { IsTextAnswer result (read bytes.now) }
{
    let mut building = Building::new(alloc);
    let mut place = Place { line: 1, column: 1 };
    let mut at = 0;
    while at < bytes.len() {
        let (_, rest) = bytes.split_at(at);
        let found = front(alloc, rest)?;
        let size = found.size;
        if step(&mut building, place, rest, found)? {
            return finish(building);
        }
        let (text, _) = rest.split_at(size);
        place = after(place, text);
        at += size;
    }
    finish(building)
}

// Takes what stands at the front of the text, and says whether the text ends with it.
fn step(
    building: &mut Building,
    place: Place,
    rest: &[u8],
    found: Lexeme,
) -> Result<bool, ReadError>
    requires some { 0 < length rest.now }
    requires found { IsFrontOf rest.now (front_of rest.now) found }
    requires line { place.line + length rest.now < 2 ^ 32 }
    requires column { place.column + length rest.now < 2 ^ 32 }
    requires few { vec_len building.old.nodes < 2 ^ 32 }
    requires stands { (us : List Unclosed) × (tops : List sexp.Sexp) × Stands building.old us tops }
    ensures ok { (all : TextRead) → IsReading building.old (place_of place) rest.now all →
        IfOk result (GoesOn building.new
        (place_after (place_of place) (take found.size rest.now))
        (drop found.size rest.now) all) }
    ensures err { (all : TextRead) → IsReading building.old (place_of place) rest.now all →
        IfErr result (λ e. IsFaultOrMemory e (text_fault all)) }
    ensures count { OnOk result (vec_len building.new.nodes ≤ vec_len building.old.nodes + 1) }
{
    match found.piece {
        Piece::Blank => Ok(false),
        Piece::Opening => {
            if building.open.len() >= MOST_DEPTH {
                return Err(ReadError::at(place, FaultKind::TooMany(Limit::Depth)));
            }
            building.open(place)?;
            Ok(false)
        }
        Piece::Closing => {
            if building.open.is_empty() {
                return Err(ReadError::at(place, FaultKind::Unbalanced));
            }
            let ends = building.close()?;
            Ok(ends)
        }
        Piece::Word(leaf) => {
            building.leaf(place, leaf)?;
            Ok(false)
        }
        Piece::BadByte(distance) => {
            let (text, _) = rest.split_at(distance);
            Err(ReadError::at(after(place, text), FaultKind::BadByte))
        }
        Piece::TooWide => Err(ReadError::at(place, FaultKind::NumberTooWide)),
        Piece::Unended => Err(ReadError::at(place, FaultKind::OpenToken)),
    }
}

// The place behind these bytes.
fn after(place: Place, bytes: &[u8]) -> Place
    requires line { place.line + length bytes.now < 2 ^ 32 }
    requires column { place.column + length bytes.now < 2 ^ 32 }
    ensures value { place_of result ≡ place_after (place_of place) bytes.now }
    ensures line { result.line ≤ place.line + length bytes.now }
    ensures column { result.column ≤ place.column + length bytes.now }
{
    let Place {
        mut line,
        mut column,
    } = place;
    for b in bytes {
        if *b == b'\n' {
            line += 1;
            column = 1;
        } else {
            column += 1;
        }
    }
    Place { line, column }
}

// What was read, where each parenthesis is closed.
fn finish(building: Building) -> Result<Sexps, ReadError>
    ensures { (all : TextRead) → IsRead building all → IsTextAnswer result all }
{
    match building.open.last() {
        Some(opened) => Err(ReadError::at(opened.place, FaultKind::Unbalanced)),
        None => Ok(Sexps {
            nodes: building.nodes,
        }),
    }
}
