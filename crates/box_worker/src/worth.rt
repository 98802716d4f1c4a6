// What is expected of a branch at an atom: a heuristic that promises nothing.
ghost use Rattle.std.specs.Prelude.{◌≡◌};

use cover_rule::Patch;
use floats::{Span, span_of_interval};
use ival::Rows;
use poly_graph::{Atom, Kind};
use std::alloc::{AllocError, Global};

// So much more is expected of an equation: it narrows most, and excludes what the other children say.
const OF_EQUATION: f64 = 1.0;

// The enclosure in this place, that of 0 where there is none.
fn span_at(rows: &Rows, n: usize) -> Span {
    if n < rows.len() {
        span_of_interval(rows.get(n))
    } else {
        Span {
            low: 0.0,
            high: 0.0,
        }
    }
}

// By how much a value misses what the kind asks for.
fn missed(kind: Kind, value: f64) -> f64 {
    let under = if value < 0.0 { -value } else { 0.0 };
    let over = if value > 0.0 { value } else { 0.0 };
    match kind {
        Kind::Le => over,
        Kind::Ge => under,
        Kind::Eq => under + over,
    }
}

// What is expected of the atom, by the enclosures over the space and over its middle.
fn worth(atom: &Atom, rows: &Rows, centre_rows: &Rows) -> f64 {
    let span = span_at(rows, atom.term as usize);
    let width = span.high - span.low;
    let miss = missed(atom.kind, span_at(centre_rows, atom.term as usize).middle());
    let part = if width > 0.0 { miss / width } else { 0.0 };
    match atom.kind {
        Kind::Eq => part + OF_EQUATION,
        Kind::Le | Kind::Ge => part,
    }
}

/// What is expected of a branch at each atom: by how much the middle of the state misses it, as a part of its enclosure's
/// width, and more where it is an equation.
pub fn worths(alloc: Global, patch: &mut Patch) -> Result<Vec<f64, Global>, AllocError>
    ensures { patch.new ≡ patch.old }
{
    patch.find_centre();
    let rows = patch.rows();
    let centre_rows = &patch.centre().rows;
    let mut worths = Vec::new(alloc);
    for atom in patch.problem().atoms() {
        worths.push(worth(atom, rows, centre_rows))?;
    }
    Ok(worths)
}
