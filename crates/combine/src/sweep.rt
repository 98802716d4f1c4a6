// The sweep from the highest root down.
ghost use Rattle.std.specs.Prelude.{◌≡◌, ◌<◌, ◌≤◌, ℕ, length, None, vec_len};
ghost use Rattle.ival.specs.RowViews.{rows_of};
ghost use Rattle.ival.specs.Options.{option_at, option_of};
ghost use Rattle.combine.specs.Combined.{IsMeasuredOver};
ghost use Rattle.combine.specs.Visits.{IsSwept};
ghost use Rattle.combine.specs.Parts.{needed_below};

use crate::combination::Enclosures;
use crate::expand::expand;
use crate::gathered::Gathered;
use crate::hand::{hand_down, hand_square};
use ival::{Ival, Rows};
use poly_graph::Graph;

// What stands in this place, if it is marked.
fn standing(rows: &Rows, place: usize) -> Option<Ival>
    requires { place < length (rows_of rows.now) }
    ensures { option_of result ≡ option_at rows.now place }
{
    if rows.marked(place) {
        Some(rows.get(place))
    } else {
        None
    }
}

/// Expands what the adjoints stand for, which are the coefficients of nodes, from the highest down. Only nodes with an
/// adjoint are visited.
pub fn sweep(
    graph: &Graph,
    enclosures: &Enclosures<'_>,
    adjoints: &mut Rows,
    squares: &mut Rows,
    gathered: &mut Gathered,
)
    requires rows { length (rows_of enclosures.now.rows.now) ≡ length graph.now }
    requires centre_rows { length (rows_of enclosures.now.centre_rows.now) ≡ length graph.now }
    requires adjoints { length (rows_of adjoints.old) ≡ length graph.now }
    requires squares { length (rows_of squares.old) ≡ length graph.now }
    requires under { (k : ℕ) → option_at adjoints.old k ≡ None → option_at squares.old k ≡ None }
    requires room { needed_below graph.now (length graph.now) ≤ gathered.old.first }
    requires measured { IsMeasuredOver enclosures.now.space.now enclosures.now.centre.now
        gathered.old }
    ensures expansion { IsSwept graph.now enclosures.now
        adjoints.old squares.old gathered.old gathered.new }
    ensures measured { IsMeasuredOver enclosures.now.space.now enclosures.now.centre.now
        gathered.new }
    ensures room { vec_len gathered.new.parts ≡ vec_len gathered.old.parts }
    ensures adjoints { length (rows_of adjoints.new) ≡ length graph.now }
    ensures squares { length (rows_of squares.new) ≡ length graph.now }
{
    prove_eq!(adjoints.len(), graph.len());
    let mut place = graph.len();
    while let Some(n) = adjoints.next_marked_below(place) {
        let linear = adjoints.get(n);
        let square = standing(squares, n);
        let node = graph.node(n as u32);
        hand_down(graph, node, linear, enclosures.centre_rows, adjoints);
        hand_square(node, linear, squares);
        expand(node, n, linear, square, enclosures, gathered);
        place = n;
    }
}
