// Elimination over the slopes of marked equations at the centre.
use crate::columns::values;
use crate::relaxed::{Weights, asked, margin_of};
use floats::{Adjoints, Span, at, coefficients, multiplier, set, size, span_of_domain};
use ival::{Rows, Space};
use poly_graph::{Kind, Lits, Mark, Problem};
use std::alloc::{AllocError, Global};

/// Of fewer equations nothing is eliminated.
const LEAST_EQUATIONS: usize = 4;

/// At most so many slopes and multipliers.
const MOST_ENTRIES: usize = 1 << 19;

/// A slope or multiplier below this counts as 0.
const SMALLEST: f64 = 1e-12;

/// An axis is not solved for where its slope is below this.
const LEAST_SLOPE: f64 = 1e-9;

/// A combination may narrow its axis where the others' parts are less than this share of the axis' side.
const NARROWER: f64 = 0.9;

/// An axis that a row may be solved for, and how much of the row's parts it is.
#[derive(Clone, Copy)]
struct Choice {
    axis: usize,
    share: f64,
}

/// Combinations of a box's marked equations, each solved for one axis at the centre: the rows of an inverse of their slopes,
/// as far as their multipliers are few enough.
#[derive(Drop)]
pub struct Elimination {
    atoms: Vec<u32, Global>,
    // the slopes of each row, by axis, and after them its multipliers, by equation
    rows: Vec<Vec<f64, Global>, Global>,
    widths: Vec<f64, Global>,
    // what each row may be solved for: none where it is solved
    choices: Vec<Option<Choice>, Global>,
    // the row that is solved for each axis
    solved: Vec<Option<usize>, Global>,
    // how many multipliers a row may have
    most: usize,
}

// Whether atom j is an equation that is marked, and its term's enclosure does not lie where it is to.
fn is_asking_equation(problem: &Problem, margin: f64, lits: &Lits, rows: &Rows, j: usize) -> bool {
    let atoms = problem.atoms();
    let marks = lits.marks();
    j < atoms.len()
        && j < marks.len()
        && matches!(atoms[j].kind, Kind::Eq)
        && matches!(marks[j], Mark::Yes)
        && asked(problem, lits, rows, margin, j).is_some()
}

// The marked equations whose terms' enclosures do not lie where they are to.
fn equations(
    alloc: Global,
    problem: &Problem,
    margin_bits: u32,
    lits: &Lits,
    rows: &Rows,
) -> Result<Vec<u32, Global>, AllocError> {
    let margin = margin_of(margin_bits);
    let mut found = Vec::new(alloc);
    for j in 0..problem.atoms().len() {
        if is_asking_equation(problem, margin, lits, rows, j) {
            if let Ok(number) = u32::try_from(j) {
                found.push(number)?;
            }
        }
    }
    Ok(found)
}

/// Whether so many equations are marked whose terms' enclosures, among the rows, do not lie where they are to, that they
/// are solved by elimination. The margin is 2 to the power of minus the bits.
pub fn are_many_equations(problem: &Problem, margin_bits: u32, lits: &Lits, rows: &Rows) -> bool {
    let margin = margin_of(margin_bits);
    let mut count: usize = 0;
    for j in 0..problem.atoms().len() {
        if is_asking_equation(problem, margin, lits, rows, j) {
            count = count.saturating_add(1);
        }
    }
    count >= LEAST_EQUATIONS
}

// How wide a side is, if its ends are of moderate size.
fn width(side: Span) -> f64 {
    if side.is_moderate() {
        side.high - side.low
    } else {
        1e15
    }
}

// How wide each side is.
fn widths(alloc: Global, space: &Space) -> Result<Vec<f64, Global>, AllocError> {
    let mut widths = Vec::new(alloc);
    for axis in 0..space.len() {
        widths.push(width(span_of_domain(space.get(axis))))?;
    }
    Ok(widths)
}

// Each equation's slopes, then the multiplier 1 at its own place.
fn rows_of(
    alloc: Global,
    problem: &Problem,
    equations: &[u32],
    values: &[f64],
    axes: usize,
) -> Result<Vec<Vec<f64, Global>, Global>, AllocError> {
    let graph = problem.graph();
    let atoms = problem.atoms();
    let mut adjoints = Adjoints::of(alloc, graph)?;
    let mut rows = Vec::new(alloc);
    for r in 0..equations.len() {
        let mut row = vec![in alloc; 0.0; axes.saturating_add(equations.len())]?;
        let j = equations[r] as usize;
        if j < atoms.len() {
            coefficients(graph, atoms[j].term, values, &[], &mut adjoints, &mut row);
        }
        set(&mut row, axes.saturating_add(r), 1.0);
        rows.push(row)?;
    }
    Ok(rows)
}

// How many of the entries from a place on are not 0 in one row or the other.
fn count_either(row: &[f64], other: &[f64], from: usize) -> usize {
    let mut count: usize = 0;
    for k in 0..row.len() {
        if k >= from && (row[k] != 0.0 || at(other, k) != 0.0) {
            count = count.saturating_add(1);
        }
    }
    count
}

// Adds so many times the line to a row; what is next to 0 then is 0.
fn add_line(row: &mut [f64], by: f64, line: &[f64]) {
    for k in 0..row.len() {
        let step = by * at(line, k);
        if step != 0.0 {
            let sum = row[k] + step;
            row[k] = if size(sum) < SMALLEST { 0.0 } else { sum };
        }
    }
}

// Multiplies each entry.
fn scale(row: &mut [f64], by: f64) {
    for x in row.iter_mut() {
        *x *= by;
    }
}

// Puts a row into the line.
fn copy_row(row: &[f64], line: &mut [f64]) {
    for k in 0..line.len() {
        line[k] = at(row, k);
    }
}

impl Elimination {
    /// The combinations of the marked equations, each of at most so many: none of few of them, or of a box too large. The
    /// rows are enclosures over the space, the others over its centre; the margin is 2 to the power of minus the bits.
    pub fn of(
        alloc: Global,
        problem: &Problem,
        most: usize,
        margin_bits: u32,
        lits: &Lits,
        space: &Space,
        rows: &Rows,
        centre_rows: &Rows,
    ) -> Result<Option<Elimination>, AllocError> {
        let atoms = equations(alloc, problem, margin_bits, lits, rows)?;
        let axes = space.len();
        let entries = axes.saturating_add(atoms.len()).saturating_mul(atoms.len());
        if atoms.len() < LEAST_EQUATIONS || entries > MOST_ENTRIES {
            return Ok(None);
        }
        let values = values(alloc, centre_rows)?;
        let rows = rows_of(alloc, problem, &atoms, &values, axes)?;
        let mut elimination = Elimination {
            choices: vec![in alloc; None; atoms.len()]?,
            atoms,
            rows,
            widths: widths(alloc, space)?,
            solved: vec![in alloc; None; axes]?,
            most,
        };
        elimination.solve(alloc)?;
        Ok(Some(elimination))
    }

    // The axis that makes the greatest part of a row, of those that no row is solved for: the row's slope times the width.
    fn choice(&self, row: &[f64]) -> Option<Choice> {
        let mut total = 0.0;
        let mut greatest = 0.0;
        let mut best = None;
        for axis in 0..self.solved.len() {
            let slope = size(at(row, axis));
            if slope > LEAST_SLOPE && self.solved[axis].is_none() {
                let part = slope * at(&self.widths, axis);
                total += part;
                if part > greatest {
                    greatest = part;
                    best = Some(axis);
                }
            }
        }
        match best {
            None => None,
            Some(axis) => Some(Choice {
                axis,
                share: greatest / total,
            }),
        }
    }

    // Chooses anew for row r, which is not solved.
    fn choose(&mut self, r: usize) {
        if r < self.rows.len() && r < self.choices.len() {
            let choice = self.choice(&self.rows[r]);
            self.choices[r] = choice;
        }
    }

    // The row of which its choice makes most, with that axis.
    fn best(&self) -> Option<(usize, usize)> {
        let mut best = None;
        let mut most = 0.0;
        for r in 0..self.choices.len() {
            if let Some(choice) = self.choices[r] {
                if choice.share > most {
                    most = choice.share;
                    best = Some((r, choice.axis));
                }
            }
        }
        best
    }

    // Whether row q is solved for an axis.
    fn is_solved(&self, q: usize) -> bool {
        q < self.choices.len() && self.choices[q].is_none()
    }

    // Clears the axis from row q by the line, unless that makes too many multipliers.
    fn clear(&mut self, q: usize, axis: usize, line: &[f64]) {
        let axes = self.solved.len();
        if q < self.rows.len() {
            let slope = at(&self.rows[q], axis);
            if slope != 0.0 && count_either(&self.rows[q], line, axes) <= self.most {
                add_line(&mut self.rows[q], -slope, line);
                set(&mut self.rows[q], axis, 0.0);
            }
            if slope != 0.0 && !self.is_solved(q) {
                self.choose(q);
            }
        }
    }

    // Solves row r for the axis, and clears it from the others. The line has room for a row.
    fn take(&mut self, r: usize, axis: usize, line: &mut [f64]) {
        if r >= self.rows.len() || r >= self.choices.len() || axis >= self.solved.len() {
            return;
        }
        self.solved[axis] = Some(r);
        self.choices[r] = None;
        let slope = at(&self.rows[r], axis);
        scale(&mut self.rows[r], 1.0 / slope);
        copy_row(&self.rows[r], line);
        for q in 0..self.rows.len() {
            if q != r {
                self.clear(q, axis, line);
            }
        }
    }

    // Solves one row after the other: first those of which one axis makes most.
    fn solve(&mut self, alloc: Global) -> Result<(), AllocError> {
        let count = self.rows.len();
        let mut line = vec![in alloc; 0.0; self.solved.len().saturating_add(count)]?;
        for r in 0..count {
            self.choose(r);
        }
        for _ in 0..count {
            let Some((r, axis)) = self.best() else {
                return Ok(());
            };
            self.take(r, axis, &mut line);
        }
        Ok(())
    }

    // Whether the other axes' parts of a row that is solved for the axis are small enough.
    fn is_worth(&self, row: &[f64], axis: usize) -> bool {
        let mut others = 0.0;
        for k in 0..self.widths.len() {
            if k != axis {
                others += size(at(row, k)) * self.widths[k];
            }
        }
        others < NARROWER * at(&self.widths, axis)
    }

    // The numbers of the row's equations with multipliers of 8 bits, ascending.
    fn weights(&self, alloc: Global, row: &[f64]) -> Result<Weights, AllocError> {
        let axes = self.solved.len();
        let mut weights = Vec::new(alloc);
        for r in 0..self.atoms.len() {
            if let Some(by) = multiplier(at(row, axes.saturating_add(r))) {
                weights.push((self.atoms[r], by))?;
            }
        }
        Ok(weights)
    }

    /// A combination of equations that may narrow the axis.
    pub fn narrowing(&self, alloc: Global, axis: usize) -> Result<Option<Weights>, AllocError> {
        if axis >= self.solved.len() {
            return Ok(None);
        }
        match self.solved[axis] {
            Some(r) if r < self.rows.len() && self.is_worth(&self.rows[r], axis) => {
                let weights = self.weights(alloc, &self.rows[r])?;
                Ok(if weights.is_empty() {
                    None
                } else {
                    Some(weights)
                })
            }
            _ => Ok(None),
        }
    }

    /// Takes over how wide the axes are.
    pub fn follow(&mut self, space: &Space) {
        for axis in 0..space.len() {
            set(
                &mut self.widths,
                axis,
                width(span_of_domain(space.get(axis))),
            );
        }
    }
}
