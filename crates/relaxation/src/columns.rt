// The columns of the nonlinear nodes: for each product and each square under the atoms a variable, with its bounds.
use floats::{Span, span_of_interval, value_at};
use ival::Rows;
use poly_graph::{Graph, Node};
use std::alloc::{AllocError, Global};

/// The enclosure in this place, or that of no number where there is none.
pub fn span_at(rows: &Rows, n: usize) -> Span {
    if n < rows.len() {
        span_of_interval(rows.get(n))
    } else {
        Span {
            low: 0.0,
            high: 0.0,
        }
    }
}

/// The values of all nodes at the centre, near to the middles of their enclosures.
pub fn values(alloc: Global, centre_rows: &Rows) -> Result<Vec<f64, Global>, AllocError> {
    let mut values = Vec::new(alloc);
    for n in 0..centre_rows.len() {
        values.push(span_at(centre_rows, n).middle())?;
    }
    Ok(values)
}

// Marks a node.
fn mark(marks: &mut [bool], n: u32) {
    let n = n as usize;
    if n < marks.len() {
        marks[n] = true;
    }
}

// Marks the children of a node.
fn mark_children(marks: &mut [bool], node: Node) {
    match node {
        Node::Const(_) | Node::Var(_) => {}
        Node::Neg(a) | Node::Sq(a) => mark(marks, a),
        Node::Add(a, b) | Node::Mul(a, b) => {
            mark(marks, a);
            mark(marks, b);
        }
    }
}

// Marks all that stands under marked nodes.
fn mark_under(graph: &Graph, marks: &mut [bool]) {
    for above in 0..graph.len() {
        let n = graph.len() - 1 - above;
        if n < marks.len() && marks[n] {
            mark_children(marks, graph.node(n as u32));
        }
    }
}

/// Which nodes are these or stand under them.
pub fn nodes_under(
    alloc: Global,
    graph: &Graph,
    roots: &[u32],
) -> Result<Vec<bool, Global>, AllocError> {
    let mut marks = vec![in alloc; false; graph.len()]?;
    for root in roots {
        mark(&mut marks, *root);
    }
    mark_under(graph, &mut marks);
    Ok(marks)
}

/// Whether the node is a constant.
pub fn is_constant(graph: &Graph, n: u32) -> bool {
    (n as usize) < graph.len() && matches!(graph.node(n), Node::Const(_))
}

/// The column of each node that has one, and the bounds of all variables: first the axes, then those nodes.
#[derive(Drop)]
pub struct Columns {
    pub of_node: Vec<Option<usize>, Global>,
    pub spans: Vec<Span, Global>,
}

// By how much the node's value may differ from that at the centre.
fn off_centre(rows: &Rows, values: &[f64], n: u32) -> Span {
    span_at(rows, n as usize).less(value_at(values, n))
}

// What the variable of a node ranges over, where it has one.
fn span_of(graph: &Graph, rows: &Rows, values: &[f64], node: Node) -> Option<Span> {
    match node {
        Node::Mul(a, b) if !is_constant(graph, a) && !is_constant(graph, b) => {
            Some(off_centre(rows, values, a).times(off_centre(rows, values, b)))
        }
        Node::Sq(a) => Some(off_centre(rows, values, a).squared()),
        _ => None,
    }
}

/// The columns after those of the axes, whose bounds are given.
pub fn columns_after(
    alloc: Global,
    graph: &Graph,
    marks: &[bool],
    rows: &Rows,
    values: &[f64],
    axes: Vec<Span, Global>,
) -> Result<Columns, AllocError> {
    let mut spans = axes;
    let mut of_node = Vec::new(alloc);
    for n in 0..graph.len() {
        let span = if n < marks.len() && marks[n] {
            span_of(graph, rows, values, graph.node(n as u32))
        } else {
            None
        };
        match span {
            None => of_node.push(None)?,
            Some(span) => {
                of_node.push(Some(spans.len()))?;
                spans.push(span)?;
            }
        }
    }
    Ok(Columns { of_node, spans })
}
