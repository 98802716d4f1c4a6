// The box in floats, and the terms over it.
use dyadic::two_to_minus;
use floats::{Span, approximate, at, near_fraction, set, span_of_domain, value_at};
use ival::{Domain, Space, Truths};
use poly_graph::{Lits, Node, Problem};
use std::alloc::{AllocError, Global};

/// A problem and a box, where the atoms are to hold within this number.
#[derive(Drop)]
pub struct Bounds<'a> {
    pub problem: &'a Problem,
    pub lits: &'a Lits,
    pub space: &'a Space,
    pub delta: f64,
    pub sides: Vec<Span, Global>,
}

/// 2 to the power of minus the bits, 120 at most.
pub fn small(bits: u32) -> f64 {
    approximate(two_to_minus(if bits > 120 { 120 } else { bits }))
}

/// What is left to a Bool axis: a value, or nothing known.
pub fn bool_left(domain: Domain) -> Option<bool> {
    match domain {
        Domain::Bool(Truths::True) => Some(true),
        Domain::Bool(Truths::False) => Some(false),
        Domain::Bool(Truths::Either) | Domain::Real(_) => None,
    }
}

// The sides of a space.
fn sides_of(alloc: Global, space: &Space) -> Result<Vec<Span, Global>, AllocError> {
    let mut sides = Vec::new(alloc);
    for axis in 0..space.len() {
        sides.push(span_of_domain(space.get(axis)))?;
    }
    Ok(sides)
}

// The value of a node whose children have these values.
fn value(node: Node, x: &[f64], values: &[f64]) -> f64 {
    match node {
        Node::Const(fraction) => near_fraction(fraction),
        Node::Var(axis) => at(x, axis as usize),
        Node::Neg(a) => -value_at(values, a),
        Node::Add(a, b) => value_at(values, a) + value_at(values, b),
        Node::Mul(a, b) => value_at(values, a) * value_at(values, b),
        Node::Sq(a) => value_at(values, a) * value_at(values, a),
    }
}

impl<'a> Bounds<'a> {
    /// The box of a state's space.
    pub fn of(
        alloc: Global,
        problem: &'a Problem,
        lits: &'a Lits,
        space: &'a Space,
        delta: f64,
    ) -> Result<Bounds<'a>, AllocError> {
        let sides = sides_of(alloc, space)?;
        Ok(Bounds {
            problem,
            lits,
            space,
            delta,
            sides,
        })
    }

    /// The side of an axis.
    pub fn side(&self, axis: usize) -> Span {
        if axis < self.sides.len() {
            self.sides[axis]
        } else {
            Span {
                low: 0.0,
                high: 0.0,
            }
        }
    }

    /// The number within the axis' side that is nearest to this one.
    pub fn hold(&self, axis: usize, x: f64) -> f64 {
        let side = self.side(axis);
        if x < side.low {
            side.low
        } else if x > side.high {
            side.high
        } else {
            x
        }
    }

    /// Whether the number is at the end of the axis' side to which a rise or a fall goes.
    pub fn is_at_end(&self, axis: usize, x: f64, rises: bool) -> bool {
        let side = self.side(axis);
        if rises { x >= side.high } else { x <= side.low }
    }

    /// The middles of the sides.
    pub fn middle(&self, alloc: Global) -> Result<Vec<f64, Global>, AllocError> {
        let mut x = Vec::new(alloc);
        for side in &self.sides {
            x.push(side.middle())?;
        }
        Ok(x)
    }

    /// The values of all nodes at a point.
    pub fn values(&self, alloc: Global, x: &[f64]) -> Result<Vec<f64, Global>, AllocError> {
        let graph = self.problem.graph();
        let mut values = vec![in alloc; 0.0; graph.len()]?;
        for n in 0..graph.len() {
            let value = value(graph.node(n as u32), x, &values);
            set(&mut values, n, value);
        }
        Ok(values)
    }

    /// The value of an atom's term, or 0 where there is no such atom.
    pub fn term_value(&self, values: &[f64], j: usize) -> f64 {
        let atoms = self.problem.atoms();
        if j < atoms.len() {
            value_at(values, atoms[j].term)
        } else {
            0.0
        }
    }
}
