// The tableau: each basic variable by the nonbasic ones, and where each variable stands.
use crate::lists::{add, at, number_at, set, set_number, size};
use std::alloc::{AllocError, Global};

/// At most so many pivots are made for one programme.
const MOST_PIVOTS: u32 = 400;

/// A coefficient below this counts as 0.
pub const SMALLEST: f64 = 1e-9;

/// Where a variable stands: it is basic in a row, or nonbasic in a column.
#[derive(Clone, Copy, PartialEq, Eq, Debug)]
pub enum Place {
    Row(usize),
    Column(usize),
}

/// Rows that are sums of bounded variables, each with bounds of its own. Variables are numbered: first those of the
/// columns, then the rows' values.
#[derive(Drop)]
pub struct LinearProgram {
    pub(crate) rows: Vec<Vec<f64, Global>, Global>,
    pub(crate) low: Vec<f64, Global>,
    pub(crate) high: Vec<f64, Global>,
    pub(crate) value: Vec<f64, Global>,
    pub(crate) basic: Vec<usize, Global>,
    pub(crate) nonbasic: Vec<usize, Global>,
    places: Vec<Place, Global>,
    columns: usize,
    pivots: u32,
    line: Vec<f64, Global>,
}

// The number in these bounds that is nearest to 0.
fn nearest_nought(low: f64, high: f64) -> f64 {
    if low > 0.0 {
        low
    } else if high < 0.0 {
        high
    } else {
        0.0
    }
}

// The first values: those of the columns nearest to 0, those of the rows 0.
fn first_values(
    alloc: Global,
    columns: usize,
    low: &[f64],
    high: &[f64],
) -> Result<Vec<f64, Global>, AllocError> {
    let mut values = vec![in alloc; 0.0; low.len()]?;
    for i in 0..values.len() {
        if i < columns {
            values[i] = nearest_nought(at(low, i), at(high, i));
        }
    }
    Ok(values)
}

// The numbers from one on, so many.
fn numbers_from(
    alloc: Global,
    first: usize,
    count: usize,
) -> Result<Vec<usize, Global>, AllocError> {
    let mut numbers = Vec::new(alloc);
    for i in 0..count {
        numbers.push(first.saturating_add(i))?;
    }
    Ok(numbers)
}

// The places at first: each column's variable in its column, each row's in its row.
fn first_places(
    alloc: Global,
    columns: usize,
    variables: usize,
) -> Result<Vec<Place, Global>, AllocError> {
    let mut places = Vec::new(alloc);
    for i in 0..variables {
        let place = if i < columns {
            Place::Column(i)
        } else {
            Place::Row(i - columns)
        };
        places.push(place)?;
    }
    Ok(places)
}

// The sum of a row at these values of the nonbasic variables.
fn sum(row: &[f64], nonbasic: &[usize], value: &[f64]) -> f64 {
    let mut total = 0.0;
    for c in 0..row.len() {
        total += row[c] * at(value, number_at(nonbasic, c));
    }
    total
}

// Turns the row of a basic variable into that of the nonbasic variable of the column.
fn exchange(row: &mut [f64], c: usize) {
    let inverse = 1.0 / at(row, c);
    for x in row.iter_mut() {
        *x *= -inverse;
    }
    set(row, c, inverse);
}

// Puts the exchanged row in the place of its variable in another row.
fn substitute(row: &mut [f64], line: &[f64], c: usize) {
    let factor = at(row, c);
    if factor == 0.0 {
        return;
    }
    set(row, c, 0.0);
    for k in 0..row.len() {
        row[k] += factor * at(line, k);
    }
}

// Does so in all rows but one.
fn substitute_in_others(rows: &mut [Vec<f64, Global>], r: usize, line: &[f64], c: usize) {
    for q in 0..rows.len() {
        if q != r {
            substitute(&mut rows[q], line, c);
        }
    }
}

// Puts a row into the line, which is as long.
fn copy_row(row: &[f64], line: &mut [f64]) {
    for k in 0..line.len() {
        line[k] = at(row, k);
    }
}

impl LinearProgram {
    /// The programme of these rows, each with a coefficient for each of so many columns, and of the variables' bounds,
    /// those of the columns first.
    pub fn new(
        alloc: Global,
        rows: Vec<Vec<f64, Global>, Global>,
        columns: usize,
        low: Vec<f64, Global>,
        high: Vec<f64, Global>,
    ) -> Result<LinearProgram, AllocError> {
        let value = first_values(alloc, columns, &low, &high)?;
        let basic = numbers_from(alloc, columns, rows.len())?;
        let nonbasic = numbers_from(alloc, 0, columns)?;
        let places = first_places(alloc, columns, low.len())?;
        let line = vec![in alloc; 0.0; columns]?;
        let mut programme = LinearProgram {
            rows,
            low,
            high,
            value,
            basic,
            nonbasic,
            places,
            columns,
            pivots: MOST_PIVOTS,
            line,
        };
        programme.fill();
        Ok(programme)
    }

    // Makes the rows' values those of their sums.
    fn fill(&mut self) {
        for r in 0..self.rows.len() {
            let total = sum(&self.rows[r], &self.nonbasic, &self.value);
            let variable = number_at(&self.basic, r);
            set(&mut self.value, variable, total);
        }
    }

    /// The coefficient in the row of the column's variable.
    pub(crate) fn coefficient(&self, r: usize, c: usize) -> f64 {
        if r < self.rows.len() {
            at(&self.rows[r], c)
        } else {
            0.0
        }
    }

    /// The number of columns.
    pub(crate) fn columns(&self) -> usize {
        self.columns
    }

    /// Where the variable stands.
    pub(crate) fn place(&self, variable: usize) -> Option<Place> {
        if variable < self.places.len() {
            Some(self.places[variable])
        } else {
            None
        }
    }

    /// Takes one of the pivots that are left; whether there was one.
    pub(crate) fn take_pivot(&mut self) -> bool {
        if self.pivots == 0 {
            return false;
        }
        self.pivots -= 1;
        true
    }

    // Notes where a variable stands.
    fn put(&mut self, variable: usize, place: Place) {
        if variable < self.places.len() {
            self.places[variable] = place;
        }
    }

    /// Moves the variable of a column to this value, and the basic ones with it.
    pub(crate) fn shift(&mut self, c: usize, to: f64) {
        let variable = number_at(&self.nonbasic, c);
        let step = to - at(&self.value, variable);
        set(&mut self.value, variable, to);
        for r in 0..self.rows.len() {
            let change = step * at(&self.rows[r], c);
            let basic = number_at(&self.basic, r);
            add(&mut self.value, basic, change);
        }
    }

    /// Exchanges the basic variable of a row with the nonbasic one of a column.
    pub(crate) fn pivot(&mut self, r: usize, c: usize) {
        if r >= self.rows.len() {
            return;
        }
        exchange(&mut self.rows[r], c);
        copy_row(&self.rows[r], &mut self.line);
        substitute_in_others(&mut self.rows, r, &self.line, c);
        let leaves = number_at(&self.basic, r);
        let enters = number_at(&self.nonbasic, c);
        set_number(&mut self.basic, r, enters);
        set_number(&mut self.nonbasic, c, leaves);
        self.put(enters, Place::Row(r));
        self.put(leaves, Place::Column(c));
    }

    // The greatest size of a coefficient of a row's value in row r.
    fn greatest(&self, r: usize) -> f64 {
        let mut greatest = 0.0;
        for c in 0..self.columns {
            let coefficient = size(self.coefficient(r, c));
            if number_at(&self.nonbasic, c) >= self.columns && coefficient > greatest {
                greatest = coefficient;
            }
        }
        greatest
    }

    /// The multipliers of the rows in the identity that row r states.
    pub(crate) fn multipliers(
        &self,
        alloc: Global,
        r: usize,
    ) -> Result<Vec<(usize, f64), Global>, AllocError> {
        let mut found = Vec::new(alloc);
        let basic = number_at(&self.basic, r);
        let mut least = self.greatest(r) * 1e-10;
        if basic >= self.columns {
            found.push((basic - self.columns, -1.0))?;
            if least < 1e-10 {
                least = 1e-10;
            }
        }
        for c in 0..self.columns {
            let variable = number_at(&self.nonbasic, c);
            let coefficient = self.coefficient(r, c);
            if variable >= self.columns && size(coefficient) > least {
                found.push((variable - self.columns, coefficient))?;
            }
        }
        Ok(found)
    }
}
