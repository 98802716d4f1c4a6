// Lists of numbers.

/// The entry, or 0 where there is none.
pub fn at(xs: &[f64], i: usize) -> f64 {
    if i < xs.len() { xs[i] } else { 0.0 }
}

/// Sets the entry, where there is one.
pub fn set(xs: &mut [f64], i: usize, x: f64) {
    if i < xs.len() {
        xs[i] = x;
    }
}

/// Adds to the entry, where there is one.
pub fn add(xs: &mut [f64], i: usize, x: f64) {
    if i < xs.len() {
        xs[i] += x;
    }
}

/// The size of a number.
pub fn size(x: f64) -> f64 {
    if x < 0.0 { -x } else { x }
}

/// The greater of two numbers; the first where the second is none.
pub fn greater(a: f64, b: f64) -> f64 {
    if b > a { b } else { a }
}

/// The lesser of two numbers; the first where the second is none.
pub fn lesser(a: f64, b: f64) -> f64 {
    if b < a { b } else { a }
}

/// Makes all entries 0.
pub fn clear(xs: &mut [f64]) {
    for x in xs.iter_mut() {
        *x = 0.0;
    }
}

/// Copies a list into one that is no longer.
pub fn copy(into: &mut [f64], from: &[f64]) {
    if from.len() < into.len() {
        return;
    }
    for k in 0..into.len() {
        into[k] = from[k];
    }
}

/// Adds so many times a list to one that is no longer.
pub fn add_multiple(xs: &mut [f64], by: f64, other: &[f64]) {
    add_multiple_from(xs, 0, by, other);
}

/// Does so from this place on.
pub fn add_multiple_from(xs: &mut [f64], from: usize, by: f64, other: &[f64]) {
    if other.len() < xs.len() {
        return;
    }
    for k in from..xs.len() {
        xs[k] += by * other[k];
    }
}

/// Adds multiples of two lists to one that is no longer, from this place on.
pub fn add_two_multiples(
    xs: &mut [f64],
    from: usize,
    by: f64,
    other: &[f64],
    by_last: f64,
    last: &[f64],
) {
    if other.len() < xs.len() || last.len() < xs.len() {
        return;
    }
    for k in from..xs.len() {
        xs[k] += by * other[k] + by_last * last[k];
    }
}

/// The sum of the products of entries from this place on; the second list is no shorter.
pub fn product_from(xs: &[f64], from: usize, ys: &[f64]) -> f64 {
    let mut total = 0.0;
    if ys.len() < xs.len() {
        return total;
    }
    for k in from..xs.len() {
        total += xs[k] * ys[k];
    }
    total
}

/// The sum of the products of all entries.
pub fn product(xs: &[f64], ys: &[f64]) -> f64 {
    product_from(xs, 0, ys)
}

/// The sum of the entries' sizes.
pub fn sum_of_sizes(xs: &[f64]) -> f64 {
    let mut total = 0.0;
    for x in xs {
        total += size(*x);
    }
    total
}
