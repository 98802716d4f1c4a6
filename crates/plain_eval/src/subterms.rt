// The narrowed intervals of an atom's subterms.
ghost use Rattle.std.specs.Prelude.{◌≡◌, ◌<◌, length};
ghost use Rattle.cover_model.specs.Narrowed.{narrowed};
ghost use Rattle.ival.specs.Views.{interval_of};
ghost use Rattle.ival.specs.RowViews.{rows_of};
ghost use Rattle.ival.specs.Options.{options_of};
ghost use Rattle.plain_eval.specs.Rows.{AreEnclosures};

use crate::left::{leave, leave_to_children};
use ival::{Ival, Rows};
use poly_graph::Graph;

/// Puts the narrowed interval of each node into its row, with a mark, and leaves those without a mark that are
/// no subterms of the root. No other node is looked at.
///
/// The nodes come from the root down, each once all its parents have left it what they leave.
pub fn narrow_rows(graph: &Graph, root: u32, range: Ival, rows: &Rows, scratch: &mut Rows)
    requires root { root < length graph.now }
    requires rows { length (rows_of rows.now) ≡ length graph.now }
    requires enclosures { AreEnclosures graph.now (rows_of rows.now) }
    requires scratch { length (rows_of scratch.old) ≡ length graph.now }
    ensures options { options_of scratch.new ≡
        narrowed graph.now (rows_of rows.now) root (interval_of range) }
    ensures count { length (rows_of scratch.new) ≡ length graph.now }
{
    prove_eq!(rows.len(), graph.len());
    scratch.clear_marks();
    leave(rows, root, range, scratch);
    let mut place = root as usize + 1;
    while let Some(n) = scratch.next_marked_below(place) {
        let node = graph.node(n as u32);
        leave_to_children(node, n, scratch.get(n), rows, scratch);
        place = n;
    }
}
