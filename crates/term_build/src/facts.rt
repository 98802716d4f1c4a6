// Facts that the tables of a builder keep. A proof here sees a table only as what a call ensures, so each is shown by a
// call that does nothing else.
ghost use Rattle.poly_graph.specs.AtomTable.{AreAtoms};
ghost use Rattle.poly_graph.specs.FormGraph.{IsFormGraph};
ghost use Rattle.poly_graph.specs.Shared.{IsGraph};

use poly_graph::{AtomTable, FormTable, NodeTable};

/// Shows that the nodes of terms are shared, each after its children.
pub(crate) fn graph_is_shared(nodes: &NodeTable)
    ensures { IsGraph nodes.now }
{
    nodes.len();
}

/// Shows that each atom stands once.
pub(crate) fn atoms_are_apart(atoms: &AtomTable)
    ensures { AreAtoms atoms.now }
{
    atoms.atoms();
}

/// Shows that the nodes of forms are shared, each after its children.
pub(crate) fn forms_are_shared(forms: &FormTable)
    ensures { IsFormGraph forms.now }
{
    forms.len();
}
