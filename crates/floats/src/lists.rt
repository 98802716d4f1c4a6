// Entries of lists of floats, where they are there.

/// The entry, or 0 where there is none.
pub fn at(xs: &[f64], i: usize) -> f64 {
    if i < xs.len() { xs[i] } else { 0.0 }
}

/// Sets the entry, where there is one.
pub fn set(xs: &mut [f64], i: usize, x: f64) {
    if i < xs.len() {
        xs[i] = x;
    }
}

/// Adds to the entry, where there is one.
pub fn add(xs: &mut [f64], i: usize, x: f64) {
    if i < xs.len() {
        xs[i] += x;
    }
}

/// The size of a number.
pub fn size(x: f64) -> f64 {
    if x < 0.0 { -x } else { x }
}
