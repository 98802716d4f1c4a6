//! Reads operations on intervals, one a line, and writes what each gives, to be compared with exact fractions elsewhere.
//!
//! A line is the operation's name and the ends of its two operands, as `add 1b0 3b-1 -inf 5b2`; the answer is the result's
//! ends, `empty`, or `-` for a line that is none.
#![tactic(auto)]

mod operations;

use dyadic::{Dy, Ext, write_dy};
use ival::{Ends, Ival};
use operations::computed;
use std::io::{self, BufRead, BufReader, BufWriter, Write};

// Writes an end.
fn write_end<W: Write + Drop>(out: &mut W, end: Ext) -> io::Result<()> {
    match end {
        Ext::NegInf => out.write_all(b"-inf"),
        Ext::Fin(number) => write_number(out, number),
        Ext::PosInf => out.write_all(b"inf"),
    }
}

// Writes a number.
fn write_number<W: Write + Drop>(out: &mut W, number: Dy) -> io::Result<()> {
    let mut text = [0; 64];
    let length = write_dy(&number, &mut text);
    out.write_all(&text[..length])
}

// Writes the ends of an interval.
fn write_ends<W: Write + Drop>(out: &mut W, ends: Ends) -> io::Result<()> {
    write_end(out, ends.low)?;
    out.write_all(b" ")?;
    write_end(out, ends.high)?;
    out.write_all(b"\n")
}

// Writes an answer.
fn write_answer<W: Write + Drop>(out: &mut W, answer: Option<Ival>) -> io::Result<()> {
    match answer {
        Some(Ival::Between(ends)) => write_ends(out, ends),
        Some(Ival::Empty) => out.write_all(b"empty\n"),
        None => out.write_all(b"-\n"),
    }
}

fn main(rt: HostRuntime) -> io::Result<()> {
    let mut out = BufWriter::new(rt.alloc(), io::writer(&rt))?;
    for line in BufReader::new(rt.alloc(), rt.reader())?.lines(rt.alloc()) {
        write_answer(&mut out, computed(line?.as_str()))?;
    }
    out.flush()
}
