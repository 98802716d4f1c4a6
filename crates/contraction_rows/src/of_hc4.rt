// Rows of small graphs, against ends that were computed by hand, and the ways to fill them against one another.
use crate::bench::{Bench, Span, Term, bench_of, domain_of, same_rows};
use crate::graphs::{CUBE, DIFFERENCE, GRAPHS, SQUARE_AND_ONE};
use dyadic::{Dy, Ext, read_dy};
use hc4::*;
use ival::{Domain, Ival, Rows, Space};
use plain_eval::enclose;
use poly_graph::Graph;
use std::alloc::Global;

// ---- ends of the last row

// A graph, the ends of both axes, those of the second axis once it was moved, and the ends of the last row.
struct Filled {
    terms: &'static [Term],
    axes: Span,
    moved: Option<Span>,
    row: Span,
}

const FILLED: [Filled; 6] = [
    Filled {
        terms: &SQUARE_AND_ONE,
        axes: ("0", "1b0"),
        moved: None,
        row: ("1b0", "1b1"),
    },
    Filled {
        terms: &CUBE,
        axes: ("0", "1b22"),
        moved: None,
        row: ("0", "1b66"),
    },
    // past the greatest number that is kept
    Filled {
        terms: &CUBE,
        axes: ("0", "1b50"),
        moved: None,
        row: ("0", "inf"),
    },
    Filled {
        terms: &DIFFERENCE,
        axes: ("-1b-1", "1b-1"),
        moved: None,
        row: ("-1b-1", "1b-1"),
    },
    // both products are still from -1/4 to 1/4
    Filled {
        terms: &DIFFERENCE,
        axes: ("-1b-1", "1b-1"),
        moved: Some(("0", "1b-1")),
        row: ("-1b-1", "1b-1"),
    },
    // both are 0
    Filled {
        terms: &DIFFERENCE,
        axes: ("-1b-1", "1b-1"),
        moved: Some(("0", "0")),
        row: ("0", "0"),
    },
];

fn end(text: &str) -> Option<Ext> {
    match text {
        "inf" => Some(Ext::PosInf),
        _ => read_dy(text.as_bytes()).ok().map(Ext::Fin),
    }
}

// Whether the interval has these ends.
fn is_between(interval: Ival, span: Span) -> bool {
    match interval {
        Ival::Between(ends) => Some(ends.low) == end(span.0) && Some(ends.high) == end(span.1),
        Ival::Empty => false,
    }
}

// The last row after a fill, where the checker's pass computes the same.
pub(crate) fn last_row(graph: &Graph, space: &Space, rows: &mut Rows) -> Option<Ival> {
    if rows.len() != graph.len() || graph.len() == 0 {
        return None;
    }
    let last = enclose(graph, (graph.len() - 1) as u32, space, rows);
    fill(graph, space, rows);
    if rows.get(graph.len() - 1) == last {
        Some(last)
    } else {
        None
    }
}

// The last row after the second axis was given another domain.
fn moved_row(graph: &Graph, space: &mut Space, domain: Domain, rows: &mut Rows) -> Option<Ival> {
    if rows.len() != graph.len() || graph.len() == 0 || space.len() < 2 {
        return None;
    }
    fill(graph, space, rows);
    space.set(1, domain);
    follow(graph, space, rows);
    Some(rows.get(graph.len() - 1))
}

// The last row of the bench, once the axis was moved where that is asked.
fn row_in(bench: &mut Bench, moved: Option<Span>) -> Option<Ival> {
    match moved {
        None => last_row(&bench.graph, &bench.space, &mut bench.rows),
        Some(span) => {
            let domain = domain_of(span)?;
            moved_row(&bench.graph, &mut bench.space, domain, &mut bench.rows)
        }
    }
}

// Whether the last row has the ends that are said.
fn is_filled(alloc: Global, filled: &Filled) -> bool {
    let Some(mut bench) = bench_of(alloc, filled.terms, filled.axes) else {
        return false;
    };
    match row_in(&mut bench, filled.moved) {
        Some(interval) => is_between(interval, filled.row),
        None => false,
    }
}

#[test]
fn last_rows(rt: HostRuntime) {
    for filled in &FILLED {
        assert!(rt; is_filled(rt.alloc(), filled), "{}", filled.row.1);
    }
}

// ---- rows that are renewed

// Whether the rows follow as a whole fill computes them, once the first axis was given another domain.
fn is_renewed(
    graph: &Graph,
    space: &mut Space,
    domain: Domain,
    rows: &mut Rows,
    others: &mut Rows,
) -> bool {
    if space.len() < 2 || rows.len() != graph.len() || others.len() != graph.len() {
        return false;
    }
    fill(graph, space, rows);
    space.set(0, domain);
    follow(graph, space, rows);
    fill(graph, space, others);
    same_rows(rows, others)
}

// The same once both axes were.
fn is_followed(
    graph: &Graph,
    space: &mut Space,
    domain: Domain,
    rows: &mut Rows,
    others: &mut Rows,
) -> bool {
    if space.len() < 2 || rows.len() != graph.len() || others.len() != graph.len() {
        return false;
    }
    fill(graph, space, rows);
    space.set(0, domain);
    space.set(1, domain);
    follow(graph, space, rows);
    fill(graph, space, others);
    same_rows(rows, others)
}

// Both, from -1 to 2 on each axis to 1/2 to 1.
fn renews(bench: &mut Bench) -> bool {
    let Some(domain) = domain_of(("1b-1", "1b0")) else {
        return false;
    };
    let graph = &bench.graph;
    let rows = &mut bench.rows;
    let others = &mut bench.others;
    is_renewed(graph, &mut bench.space, domain, rows, others)
        && is_followed(graph, &mut bench.copy, domain, rows, others)
}

// The same of the rows of this graph.
fn are_renewed(alloc: Global, terms: &[Term]) -> bool {
    match bench_of(alloc, terms, ("-1b0", "1b1")) {
        Some(mut bench) => renews(&mut bench),
        None => false,
    }
}

#[test]
fn rows_are_renewed(rt: HostRuntime) {
    for terms in &GRAPHS {
        assert!(rt; are_renewed(rt.alloc(), terms));
    }
}
