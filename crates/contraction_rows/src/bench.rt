// Small graphs, and boxes of two axes over them, by texts of numbers.
use dyadic::{Dy, Ext, Frac, at_most, read_dy};
use ival::{Domain, Range, Rows, Space};
use poly_graph::{Graph, Node, NodeTable, is_after};
use std::alloc::{AllocError, Global};

/// A node of a graph; a constant is a whole number, or a number of quarters.
#[derive(Clone, Copy)]
pub(crate) enum Term {
    Whole(i8),
    Quarters(i8),
    Var(u32),
    Neg(u32),
    Add(u32, u32),
    Mul(u32, u32),
    Sq(u32),
}

/// The texts of two numbers, of which the second is not below the first.
pub(crate) type Span = (&'static str, &'static str);

/// A graph, rows of its nodes, and a box of two axes with a copy of it.
#[derive(Drop)]
pub(crate) struct Bench {
    pub graph: Graph,
    pub rows: Rows,
    pub others: Rows,
    pub space: Space,
    pub copy: Space,
}

pub(crate) fn node_of(term: Term) -> Node {
    match term {
        Term::Whole(n) => Node::Const(Frac::new(i128::from(n), 1)),
        Term::Quarters(n) => Node::Const(Frac::new(i128::from(n), 4)),
        Term::Var(axis) => Node::Var(axis),
        Term::Neg(a) => Node::Neg(a),
        Term::Add(a, b) => Node::Add(a, b),
        Term::Mul(a, b) => Node::Mul(a, b),
        Term::Sq(a) => Node::Sq(a),
    }
}

// Adds the nodes in this order; none may name a later one.
fn add_all(table: &mut NodeTable, terms: &[Term]) -> Option<()> {
    for term in terms {
        let node = node_of(*term);
        if !is_after(node, table.len() as u32) {
            return None;
        }
        table.intern(node).ok()?;
    }
    Some(())
}

/// The graph of these nodes.
pub(crate) fn graph_of(alloc: Global, terms: &[Term]) -> Option<Graph> {
    let mut table = NodeTable::new(alloc);
    add_all(&mut table, terms)?;
    Some(table.into_graph())
}

fn number(text: &str) -> Option<Dy> {
    read_dy(text.as_bytes()).ok()
}

/// From a number to another.
pub(crate) fn domain_of(span: Span) -> Option<Domain> {
    let range = Range::between(number(span.0)?, number(span.1)?)?;
    Some(Domain::Real(range))
}

// Two axes with this domain.
fn two_axes(alloc: Global, domain: Domain) -> Result<Space, AllocError> {
    let mut space = Space::with_capacity(alloc, 2)?;
    space.push(domain);
    space.push(domain);
    Ok(space)
}

/// The graph of these nodes, and two axes between these numbers.
pub(crate) fn bench_of(alloc: Global, terms: &[Term], span: Span) -> Option<Bench> {
    let domain = domain_of(span)?;
    let graph = graph_of(alloc, terms)?;
    let rows = Rows::new(alloc, graph.len()).ok()?;
    let others = Rows::new(alloc, graph.len()).ok()?;
    let space = two_axes(alloc, domain).ok()?;
    let copy = two_axes(alloc, domain).ok()?;
    Some(Bench {
        graph,
        rows,
        others,
        space,
        copy,
    })
}

/// Whether the spaces have the same domains.
pub(crate) fn same_space(a: &Space, b: &Space) -> bool {
    a.axes.as_slice() == b.axes.as_slice()
}

/// Whether the rows have the same intervals.
pub(crate) fn same_rows(a: &Rows, b: &Rows) -> bool {
    a.len() == b.len() && (0..a.len()).all(|place| a.get(place) == b.get(place))
}

// Whether the number lies between these two.
fn lies_in(value: Dy, span: Span) -> bool {
    match (number(span.0), number(span.1)) {
        (Some(low), Some(high)) => {
            at_most(Ext::Fin(low), Ext::Fin(value)) && at_most(Ext::Fin(value), Ext::Fin(high))
        }
        _ => false,
    }
}

/// Between which numbers the ends of an axis lie.
pub(crate) struct Left {
    pub axis: usize,
    pub low: Span,
    pub high: Span,
}

/// Whether both ends of the axis lie so.
pub(crate) fn is_left(space: &Space, left: &Left) -> bool {
    if left.axis >= space.len() {
        return false;
    }
    match space.get(left.axis) {
        Domain::Real(range) => lies_in(range.low, left.low) && lies_in(range.high, left.high),
        Domain::Bool(_) => false,
    }
}
