//! What is proved of the definitions: each function here does nothing, and its contract is a law.

ghost use Rattle.poly_graph.specs.Laws.{NodeIsItsKind, EqualNodesAgree, MarksOfLists, FormNodeIsItsKind};

/// In a graph whose children come first, a node's term is that of its kind over its children's terms.
pub fn node_is_its_kind()
    ensures { NodeIsItsKind }
{}

/// Equal nodes of such a graph have equal terms.
pub fn equal_nodes_agree()
    ensures { EqualNodesAgree }
{}

/// Marks are those of the two lists that are read off them.
pub fn marks_of_lists()
    ensures { MarksOfLists }
{}

/// In a shared form whose children come first, a node's form is that of its kind over its children's forms.
pub fn form_node_is_its_kind()
    ensures { FormNodeIsItsKind }
{}
