// What lemmas are of.
ghost use Rattle.std.specs.Prelude.{[]};
ghost use Rattle.poly_graph.specs.ProblemViews.{Parts};
ghost use Rattle.cover_data.specs.declared.margins.Margins.{Margins};

use std::marker::Brand;

/// The problem and the margins of lemmas, which a shelf, its tokens and its readers are named for. They are for
/// contracts alone. A call at `Brand` picks them from its arguments.
pub trait Subject {
    ghost problem: { Parts };

    ghost margins: { Margins };
}

impl Subject for Brand {
    ghost problem = { record { axes = []; nodes = []; atoms = []; forms = []; root = 0 } };

    ghost margins = { record { delta_bits = 1; margin_bits = 2; least_bits = 0; version = 2 } };
}
