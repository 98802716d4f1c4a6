// Atoms' terms as polynomials in the differences of axes to the centre, each divided by half its side.
use crate::candidates::{Boxed, Candidate, candidates_of};
use crate::closed::are_closed;
use crate::marks::{has_product, marks_under};
use crate::numbers::{greater, is_moderate, power_above};
use crate::sides::Sides;
use floats::{size, span_of_interval};
use squares::{Budget, Polynomial, expand_nodes};
use std::alloc::{AllocError, Global};

/// A monomial with its coefficient.
#[derive(Drop)]
pub struct Term {
    pub axes: Vec<u32>,
    pub coefficient: f64,
}

/// A candidate's term, divided by a power of two above its greatest coefficient.
#[derive(Drop)]
pub struct Expanded {
    pub candidate: Candidate,
    /// without the monomial 1
    pub terms: Vec<Term>,
    pub constant: f64,
    /// the candidate's limit, and what axes that count as one number may add
    pub limit: f64,
    /// what was divided by
    pub scale: f64,
}

impl Expanded {
    // The candidate without terms.
    fn new(alloc: Global, candidate: Candidate) -> Expanded {
        Expanded {
            candidate,
            terms: Vec::new(alloc),
            constant: 0.0,
            limit: candidate.limit,
            scale: 1.0,
        }
    }

    // Adds a monomial with its coefficient.
    fn add(
        &mut self,
        alloc: Global,
        axes: &[u32],
        coefficient: f64,
        sides: &Sides,
    ) -> Result<(), AllocError> {
        let coefficient = coefficient * self.candidate.sign;
        if axes.is_empty() {
            self.constant += coefficient;
        } else if sides.are_wide(axes) {
            let axes = Vec::from_slice(alloc, axes)?;
            self.terms.push(Term { axes, coefficient })?;
        } else {
            self.limit += size(coefficient);
        }
        Ok(())
    }

    // The greatest size of a coefficient.
    fn greatest(&self) -> f64 {
        let mut greatest = size(self.constant);
        for term in &self.terms {
            greatest = greater(greatest, size(term.coefficient));
        }
        greatest
    }

    // Whether all coefficients are moderate.
    fn is_moderate(&self) -> bool {
        for term in &self.terms {
            if !is_moderate(term.coefficient) {
                return false;
            }
        }
        is_moderate(self.constant) && is_moderate(self.limit)
    }

    // Divides by the power of two above the greatest coefficient.
    fn divide(&mut self) {
        let scale = power_above(self.greatest());
        for term in self.terms.iter_mut() {
            term.coefficient /= scale;
        }
        self.constant /= scale;
        self.limit /= scale;
        self.scale = scale;
    }

    /// The greatest number of axes of a monomial.
    pub fn degree(&self) -> usize {
        let mut degree = 0;
        for term in &self.terms {
            if term.axes.len() > degree {
                degree = term.axes.len();
            }
        }
        degree
    }
}

// A candidate's term, from its polynomial; none where a coefficient is too large, or nothing but a number is left.
fn expanded_from(
    alloc: Global,
    candidate: Candidate,
    polynomial: &Polynomial,
    sides: &Sides,
) -> Result<Option<Expanded>, AllocError> {
    let mut expanded = Expanded::new(alloc, candidate);
    for (monomial, coefficient) in &polynomial.terms {
        let middle = span_of_interval(*coefficient).middle();
        let coefficient = middle * sides.greatest(monomial);
        if coefficient != 0.0 || monomial.is_empty() {
            expanded.add(alloc, monomial, coefficient, sides)?;
        }
    }
    if expanded.terms.is_empty() || !expanded.is_moderate() {
        return Ok(None);
    }
    expanded.divide();
    Ok(Some(expanded))
}

// The candidates' terms, from the polynomials of all nodes.
fn all_expanded(
    alloc: Global,
    candidates: &[Candidate],
    polynomials: &[Polynomial],
    sides: &Sides,
) -> Result<Vec<Expanded>, AllocError> {
    let mut all = Vec::new(alloc);
    for candidate in candidates {
        let root = candidate.root as usize;
        if root < polynomials.len() {
            if let Some(expanded) = expanded_from(alloc, *candidate, &polynomials[root], sides)? {
                all.push(expanded)?;
            }
        }
    }
    Ok(all)
}

/// The box's candidates, expanded within the budget; none where there is no product of axes.
pub fn expand(
    alloc: Global,
    boxed: &Boxed,
    sides: &Sides,
    budget: &mut Budget,
) -> Result<Vec<Expanded>, AllocError> {
    let graph = boxed.problem.graph();
    let candidates = candidates_of(alloc, boxed)?;
    let marks = marks_under(alloc, graph, &candidates)?;
    if !has_product(graph, &marks) || !are_closed(graph, &marks) {
        return Ok(Vec::new(alloc));
    }
    match expand_nodes(alloc, graph, boxed.centre, &marks, budget)? {
        None => Ok(Vec::new(alloc)),
        Some(polynomials) => all_expanded(alloc, &candidates, &polynomials, sides),
    }
}
