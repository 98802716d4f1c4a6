// The linear programme of a box's marked atoms.
use crate::columns::{Columns, columns_after, nodes_under, span_at, values};
use dyadic::{Dy, two_to_minus};
use floats::{Adjoints, Span, approximate, at, coefficients, multiplier, span_of_domain};
use ival::{Domain, Rows, Space};
use linear_program::{Feasibility, LinearProgram, Optimum, Side};
use poly_graph::{Atom, Kind, Lits, Mark, Problem};
use std::alloc::{AllocError, Global};

/// At most so many atoms are rows of a programme.
const MOST_ROWS: usize = 64;

/// At most so many coefficients.
const MOST_COEFFICIENTS: usize = 1 << 16;

/// A bound is of use where it takes at least this part of an axis' side.
const LEAST_GAIN: f64 = 0.1;

/// Atoms with multipliers, ascending.
pub type Weights = Vec<(u32, Dy), Global>;

/// What is found of the box as a whole.
#[derive(Drop)]
pub enum Refutation {
    /// This combination may leave nothing of the box.
    Found(Weights),
    /// The relaxation has a point, and axes may be narrowed.
    None,
    /// Nothing is known.
    Unknown,
}

/// The linear relaxation of a box's marked atoms at its centre.
#[derive(Drop)]
pub struct Relaxation {
    atoms: Vec<u32, Global>,
    programme: LinearProgram,
    centre: Vec<f64, Global>,
    sides: Vec<Span, Global>,
}

// The range of a kind, or where the atom fails its off-range, loosened by the margin.
fn range(kind: Kind, fails: bool, margin: f64) -> Span {
    let infinite = 1.0 / 0.0;
    match (kind, fails) {
        (Kind::Le, false) => Span {
            low: -infinite,
            high: margin,
        },
        (Kind::Ge, false) => Span {
            low: -margin,
            high: infinite,
        },
        (Kind::Eq, false) => Span {
            low: -margin,
            high: margin,
        },
        (Kind::Le, true) => Span {
            low: margin,
            high: infinite,
        },
        (Kind::Ge, true) => Span {
            low: -infinite,
            high: -margin,
        },
        (Kind::Eq, true) => Span {
            low: -infinite,
            high: infinite,
        },
    }
}

// Where the value of an atom's term has to lie, if it is marked.
fn wanted(atom: &Atom, mark: Mark, margin: f64) -> Option<Span> {
    match (mark, atom.kind) {
        (Mark::Yes, kind) => Some(range(kind, false, margin)),
        (Mark::No, Kind::Le) => Some(range(Kind::Le, true, margin)),
        (Mark::No, Kind::Ge) => Some(range(Kind::Ge, true, margin)),
        _ => None,
    }
}

// Where the value of an atom's term has to lie, if the atom is marked and its enclosure lies not there already.
pub(crate) fn asked(
    problem: &Problem,
    lits: &Lits,
    rows: &Rows,
    margin: f64,
    j: usize,
) -> Option<Span> {
    let atoms = problem.atoms();
    let marks = lits.marks();
    if j >= atoms.len() || j >= marks.len() {
        return None;
    }
    let wanted = wanted(&atoms[j], marks[j], margin)?;
    let enclosure = span_at(rows, atoms[j].term as usize);
    if enclosure.low >= wanted.low && enclosure.high <= wanted.high {
        None
    } else {
        Some(wanted)
    }
}

/// The margin of so many bits, 2 to the power of minus them, of 120 where there are more.
pub fn margin_of(bits: u32) -> f64 {
    approximate(two_to_minus(if bits > 120 { 120 } else { bits }))
}

/// Whether atom j is marked, and its enclosure, one of the rows, does not lie where the mark asks for. The margin is 2 to
/// the power of minus the bits.
pub fn is_asking(problem: &Problem, margin_bits: u32, lits: &Lits, rows: &Rows, j: usize) -> bool {
    asked(problem, lits, rows, margin_of(margin_bits), j).is_some()
}

// The atoms that ask for something, with where their terms' values have to lie; the first of them, where there are many.
fn rows_of(
    alloc: Global,
    problem: &Problem,
    lits: &Lits,
    rows: &Rows,
    margin: f64,
) -> Result<(Vec<u32, Global>, Vec<Span, Global>), AllocError> {
    let mut atoms = Vec::new(alloc);
    let mut spans = Vec::new(alloc);
    for j in 0..problem.atoms().len() {
        if atoms.len() < MOST_ROWS {
            if let Some(span) = asked(problem, lits, rows, margin, j) {
                if let Ok(number) = u32::try_from(j) {
                    atoms.push(number)?;
                    spans.push(span)?;
                }
            }
        }
    }
    Ok((atoms, spans))
}

// The number in the middle of a domain.
fn middle_of(domain: Domain) -> f64 {
    span_of_domain(domain).middle()
}

// The numbers of the centre, by axis.
fn centre_of(alloc: Global, centre: &Space) -> Result<Vec<f64, Global>, AllocError> {
    let mut numbers = Vec::new(alloc);
    for axis in 0..centre.len() {
        numbers.push(middle_of(centre.get(axis)))?;
    }
    Ok(numbers)
}

// By how much each axis may differ from the centre.
fn differences(
    alloc: Global,
    space: &Space,
    centre: &[f64],
) -> Result<Vec<Span, Global>, AllocError> {
    let mut spans = Vec::new(alloc);
    for axis in 0..space.len() {
        let span = span_of_domain(space.get(axis)).less(at(centre, axis));
        spans.push(span)?;
    }
    Ok(spans)
}

// Whether all bounds are of moderate size.
fn are_moderate(spans: &[Span]) -> bool {
    for span in spans {
        if !span.is_moderate() {
            return false;
        }
    }
    true
}

// The roots of the atoms' terms.
fn roots_of(
    alloc: Global,
    problem: &Problem,
    numbers: &[u32],
) -> Result<Vec<u32, Global>, AllocError> {
    let atoms = problem.atoms();
    let mut roots = Vec::new(alloc);
    for number in numbers {
        let j = *number as usize;
        if j < atoms.len() {
            roots.push(atoms[j].term)?;
        }
    }
    Ok(roots)
}

// The row of each root: its coefficients for all columns.
fn coefficient_rows(
    alloc: Global,
    problem: &Problem,
    roots: &[u32],
    values: &[f64],
    columns: &Columns,
) -> Result<Vec<Vec<f64, Global>, Global>, AllocError> {
    let graph = problem.graph();
    let mut adjoints = Adjoints::of(alloc, graph)?;
    let mut rows = Vec::new(alloc);
    for root in roots {
        let mut row = vec![in alloc; 0.0; columns.spans.len()]?;
        coefficients(
            graph,
            *root,
            values,
            &columns.of_node,
            &mut adjoints,
            &mut row,
        );
        rows.push(row)?;
    }
    Ok(rows)
}

// The value of a root at the centre.
fn root_value(roots: &[u32], values: &[f64], r: usize) -> f64 {
    if r < roots.len() {
        at(values, roots[r] as usize)
    } else {
        0.0
    }
}

// The bounds of all variables: those of the columns, then where each row may lie, less its value at the centre.
fn bounds(
    alloc: Global,
    columns: &[Span],
    wanted: &[Span],
    roots: &[u32],
    values: &[f64],
) -> Result<(Vec<f64, Global>, Vec<f64, Global>), AllocError> {
    let mut low = Vec::new(alloc);
    let mut high = Vec::new(alloc);
    for span in columns {
        low.push(span.low)?;
        high.push(span.high)?;
    }
    for r in 0..wanted.len() {
        let span = wanted[r].less(root_value(roots, values, r));
        low.push(span.low)?;
        high.push(span.high)?;
    }
    Ok((low, high))
}

// The box that is relaxed.
#[derive(Clone, Copy)]
struct Boxed<'a> {
    problem: &'a Problem,
    rows: &'a Rows,
    space: &'a Space,
    centre: &'a Space,
    centre_rows: &'a Rows,
}

// The relaxation of these atoms, whose values have to lie in these intervals.
fn relaxation_of(
    alloc: Global,
    boxed: &Boxed,
    atoms: Vec<u32, Global>,
    wanted: &[Span],
) -> Result<Option<Relaxation>, AllocError> {
    let graph = boxed.problem.graph();
    let values = values(alloc, boxed.centre_rows)?;
    let centre = centre_of(alloc, boxed.centre)?;
    let roots = roots_of(alloc, boxed.problem, &atoms)?;
    let marks = nodes_under(alloc, graph, &roots)?;
    let axes = differences(alloc, boxed.space, &centre)?;
    let columns = columns_after(alloc, graph, &marks, boxed.rows, &values, axes)?;
    let count = columns.spans.len();
    if count > MOST_COEFFICIENTS / MOST_ROWS || !are_moderate(&columns.spans) {
        return Ok(None);
    }
    let rows = coefficient_rows(alloc, boxed.problem, &roots, &values, &columns)?;
    let (low, high) = bounds(alloc, &columns.spans, wanted, &roots, &values)?;
    let programme = LinearProgram::new(alloc, rows, count, low, high)?;
    Ok(Some(Relaxation {
        atoms,
        programme,
        centre,
        sides: columns.spans,
    }))
}

// The atoms' numbers with multipliers of 8 bits, ascending.
fn weights(
    alloc: Global,
    atoms: &[u32],
    multipliers: &[(usize, f64)],
) -> Result<Weights, AllocError> {
    let mut by_row = vec![in alloc; 0.0; atoms.len()]?;
    for (r, x) in multipliers {
        if *r < by_row.len() {
            by_row[*r] = *x;
        }
    }
    let mut weights = Vec::new(alloc);
    for r in 0..atoms.len() {
        if let Some(by) = multiplier(at(&by_row, r)) {
            weights.push((atoms[r], by))?;
        }
    }
    Ok(weights)
}

impl Relaxation {
    /// The relaxation of the box, of the marked atoms whose enclosures do not lie where the marks ask for: none of fewer than
    /// two such atoms, or of a box too large. The rows are enclosures over the space, the others over its centre; the
    /// margin is 2 to the power of minus the bits.
    pub fn of(
        alloc: Global,
        problem: &Problem,
        margin_bits: u32,
        lits: &Lits,
        space: &Space,
        rows: &Rows,
        centre: &Space,
        centre_rows: &Rows,
    ) -> Result<Option<Relaxation>, AllocError> {
        let margin = margin_of(margin_bits);
        let (atoms, wanted) = rows_of(alloc, problem, lits, rows, margin)?;
        if atoms.len() < 2 {
            return Ok(None);
        }
        let boxed = Boxed {
            problem,
            rows,
            space,
            centre,
            centre_rows,
        };
        relaxation_of(alloc, &boxed, atoms, &wanted)
    }

    /// A combination that may leave nothing of the box.
    pub fn refutation(&mut self, alloc: Global) -> Result<Refutation, AllocError> {
        match self.programme.feasibility(alloc)? {
            Feasibility::Feasible => Ok(Refutation::None),
            Feasibility::Unknown => Ok(Refutation::Unknown),
            Feasibility::Infeasible(multipliers) => {
                let weights = weights(alloc, &self.atoms, &multipliers)?;
                Ok(Refutation::Found(weights))
            }
        }
    }

    // Whether the optimum takes enough of the axis' side.
    fn gains(&self, axis: usize, side: Side, value: f64) -> bool {
        if axis >= self.sides.len() {
            return false;
        }
        let span = self.sides[axis];
        let gain = match side {
            Side::Least => value - span.low,
            Side::Greatest => span.high - value,
        };
        gain > LEAST_GAIN * (span.high - span.low)
    }

    /// A combination that may narrow the axis at this end by a tenth of its side or more.
    pub fn narrowing(
        &mut self,
        alloc: Global,
        axis: u32,
        side: Side,
    ) -> Result<Option<Weights>, AllocError> {
        let axis = axis as usize;
        let found: Option<Optimum> = self.programme.optimum(alloc, axis, side)?;
        match found {
            Some(optimum) if self.gains(axis, side, optimum.value) => {
                let weights = weights(alloc, &self.atoms, &optimum.multipliers)?;
                Ok(Some(weights))
            }
            _ => Ok(None),
        }
    }

    /// Takes over what is left of the axis.
    pub fn tighten(&mut self, axis: u32, domain: Domain) {
        let axis = axis as usize;
        let span = span_of_domain(domain).less(at(&self.centre, axis));
        if axis < self.sides.len() {
            self.sides[axis] = span;
        }
        self.programme.tighten(axis, span.low, span.high);
    }
}
