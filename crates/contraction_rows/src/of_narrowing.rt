// Atoms that narrow boxes, by the search's sweep and by the checker's plain way, which are to agree; what is left was
// computed by hand.
ghost use Rattle.std.specs.Prelude.{◌≡◌, ◌<◌, length};
ghost use Rattle.cover_model.specs.Narrowed.{enclosures};
ghost use Rattle.ival.specs.RowViews.{rows_of};
ghost use Rattle.ival.specs.SpaceViews.{space_of};

use crate::bench::{Bench, Left, Span, Term, bench_of, is_left, same_space};
use crate::graphs::{GRAPHS, SQUARE_AND_ONE};
use crate::of_hc4::last_row;
use hc4::{fill, narrow, narrow_off};
use ival::{Narrowed, Rows, Space};
use plain_eval::{enclose, narrow_enclosed, narrow_off_enclosed};
use poly_graph::{Atom, Graph, Kind};
use std::alloc::Global;

// Whether a box is narrowed by an atom that holds, or by one that fails.
#[derive(Clone, Copy)]
enum By {
    Atom(u32, Kind),
    Failing(u32, Kind),
}

// Puts the checker's enclosures of all terms over the space into the rows.
fn enclose_all(graph: &Graph, space: &Space, rows: &mut Rows)
    requires graph { 0 < length graph.now }
    requires rows { length (rows_of rows.old) ≡ length graph.now }
    ensures { rows_of rows.new ≡ enclosures (space_of space.now) graph.now }
{
    let last = graph.len() - 1;
    let _ = enclose(graph, last as u32, space, rows);
}

// What the checker's way leaves of the space.
fn by_plain(
    graph: &Graph,
    by: By,
    bits: u32,
    rows: &mut Rows,
    scratch: &mut Rows,
    space: &mut Space,
) -> Option<Narrowed> {
    let count = graph.len();
    if bits > 120 || count == 0 || rows.len() != count || scratch.len() != count {
        return None;
    }
    enclose_all(graph, space, rows);
    match by {
        By::Atom(term, kind) if (term as usize) < graph.len() => {
            Some(narrow_enclosed(graph, &Atom { term, kind }, bits, rows, scratch, space))
        }
        By::Failing(term, kind) if (term as usize) < graph.len() => {
            Some(narrow_off_enclosed(graph, &Atom { term, kind }, bits, rows, scratch, space))
        }
        _ => None,
    }
}

// What the search's way leaves of it.
fn by_sweep(
    graph: &Graph,
    by: By,
    bits: u32,
    rows: &mut Rows,
    scratch: &mut Rows,
    space: &mut Space,
) -> Option<Narrowed> {
    if bits > 120 || rows.len() != graph.len() || scratch.len() != graph.len() {
        return None;
    }
    fill(graph, space, rows);
    match by {
        By::Atom(term, kind) if (term as usize) < graph.len() => {
            Some(narrow(graph, &Atom { term, kind }, bits, rows, scratch, space))
        }
        By::Failing(term, kind) if (term as usize) < graph.len() => {
            Some(narrow_off(graph, &Atom { term, kind }, bits, rows, scratch, space))
        }
        _ => None,
    }
}

// What both ways answer; none where they do not answer or leave the same.
fn narrowed(bench: &mut Bench, by: By, bits: u32) -> Option<Narrowed> {
    let plain = by_plain(
        &bench.graph,
        by,
        bits,
        &mut bench.rows,
        &mut bench.others,
        &mut bench.copy,
    );
    let swept = by_sweep(
        &bench.graph,
        by,
        bits,
        &mut bench.rows,
        &mut bench.others,
        &mut bench.space,
    );
    if swept == plain && same_space(&bench.space, &bench.copy) {
        swept
    } else {
        None
    }
}

// ---- what is left

// A graph, the ends of both axes, the bits by which atoms are loosened, what narrows, each with its answer, and what is
// left in the end.
struct Row {
    terms: &'static [Term],
    axes: Span,
    bits: u32,
    steps: &'static [(By, Narrowed)],
    left: &'static [Left],
}

const ROWS: [Row; 6] = [
    // it is at least 1 everywhere
    Row {
        terms: &SQUARE_AND_ONE,
        axes: ("0", "1b0"),
        bits: 120,
        steps: &[
            (By::Atom(3, Kind::Eq), Narrowed::Empty),
            (By::Atom(3, Kind::Ge), Narrowed::Same),
        ],
        left: &[Left {
            axis: 0,
            low: ("0", "0"),
            high: ("1b0", "1b0"),
        }],
    },
    // x + y is at most 1, but for 2^-120, and each is at least 1/4: each is at most 3/4 and a little more
    Row {
        terms: &[
            Term::Var(0),
            Term::Var(1),
            Term::Add(0, 1),
            Term::Whole(-1),
            Term::Add(2, 3),
        ],
        axes: ("1b-2", "1b2"),
        bits: 120,
        steps: &[
            (By::Atom(4, Kind::Le), Narrowed::Less),
            (By::Atom(4, Kind::Le), Narrowed::Same),
        ],
        left: &[
            Left {
                axis: 0,
                low: ("1b-2", "1b-2"),
                high: ("1b-1", "1b0"),
            },
            Left {
                axis: 1,
                low: ("1b-2", "1b-2"),
                high: ("1b-1", "1b0"),
            },
        ],
    },
    // x * y = 1 leaves a corner, which x^2 + y^2 = 1 does not meet
    Row {
        terms: &[
            Term::Var(0),
            Term::Var(1),
            Term::Whole(-1),
            Term::Mul(0, 1),
            Term::Add(3, 2),
            Term::Sq(0),
            Term::Sq(1),
            Term::Add(5, 6),
            Term::Add(7, 2),
        ],
        axes: ("0", "1b0"),
        bits: 20,
        steps: &[
            (By::Atom(4, Kind::Eq), Narrowed::Less),
            (By::Atom(8, Kind::Eq), Narrowed::Empty),
        ],
        left: &[
            Left {
                axis: 0,
                low: ("1048575b-20", "1048575b-20"),
                high: ("1b0", "1b0"),
            },
            Left {
                axis: 1,
                low: ("1048575b-20", "1048575b-20"),
                high: ("1b0", "1b0"),
            },
        ],
    },
    // a product with 0 says nothing of its factors
    Row {
        terms: &[Term::Var(0), Term::Var(1), Term::Mul(0, 1)],
        axes: ("-1b0", "1b0"),
        bits: 20,
        steps: &[(By::Atom(2, Kind::Eq), Narrowed::Same)],
        left: &[],
    },
    // up to the least number that is not below the root of 4 + 2^-20
    Row {
        terms: &[Term::Var(0), Term::Sq(0), Term::Whole(-4), Term::Add(1, 2)],
        axes: ("-3b0", "3b0"),
        bits: 20,
        steps: &[(By::Atom(3, Kind::Le), Narrowed::Less)],
        left: &[
            Left {
                axis: 0,
                low: ("-2305843284091584513b-60", "-2305843284091584513b-60"),
                high: ("2305843284091584513b-60", "2305843284091584513b-60"),
            },
            Left {
                axis: 1,
                low: ("-3b0", "-3b0"),
                high: ("3b0", "3b0"),
            },
        ],
    },
    // x is above 1/4 by at least 2^-20, nowhere there is it below 1/4, and an equation that fails says nothing of it
    Row {
        terms: &[Term::Var(0), Term::Quarters(-1), Term::Add(0, 1)],
        axes: ("0", "1b0"),
        bits: 20,
        steps: &[
            (By::Failing(2, Kind::Le), Narrowed::Less),
            (By::Failing(2, Kind::Ge), Narrowed::Empty),
            (By::Failing(2, Kind::Eq), Narrowed::Same),
        ],
        left: &[Left {
            axis: 0,
            low: ("262145b-20", "262145b-20"),
            high: ("1b0", "1b0"),
        }],
    },
];

// Whether both ways answer so, step after step, and leave this.
fn leaves(bench: &mut Bench, row: &Row) -> bool {
    for (by, answer) in row.steps {
        if narrowed(bench, *by, row.bits) != Some(*answer) {
            return false;
        }
    }
    row.left.iter().all(|left| is_left(&bench.space, left))
}

// The same of its own graph and box.
fn is_left_so(alloc: Global, row: &Row) -> bool {
    match bench_of(alloc, row.terms, row.axes) {
        Some(mut bench) => leaves(&mut bench, row),
        None => false,
    }
}

#[test]
fn atoms_narrow(rt: HostRuntime) {
    for row in &ROWS {
        assert!(rt; is_left_so(rt.alloc(), row), "{}", row.axes.0);
    }
}

// ---- both ways

const LOWS: [&str; 3] = ["1b-2", "-1b1", "-1b50"];

const KINDS: [Kind; 3] = [Kind::Le, Kind::Ge, Kind::Eq];

// Whether both ways agree on the last term: on its enclosure, on what the atom leaves, and once more on what it leaves
// of that.
fn agree(bench: &mut Bench, kind: Kind) -> bool {
    let count = bench.graph.len();
    if count == 0 || last_row(&bench.graph, &bench.space, &mut bench.rows).is_none() {
        return false;
    }
    let by = By::Atom((count - 1) as u32, kind);
    narrowed(bench, by, 20).is_some() && narrowed(bench, by, 20).is_some()
}

// The same of the box from this number to 8.
fn agree_over(alloc: Global, terms: &[Term], low: &'static str, kind: Kind) -> bool {
    match bench_of(alloc, terms, (low, "1b3")) {
        Some(mut bench) => agree(&mut bench, kind),
        None => false,
    }
}

#[test]
fn both_ways_agree(rt: HostRuntime) {
    for terms in &GRAPHS {
        for low in &LOWS {
            for kind in &KINDS {
                assert!(rt; agree_over(rt.alloc(), terms, low, *kind), "{low}");
            }
        }
    }
}
