// The builder: its tables, and the steps that fill them.
ghost use Rattle.std.specs.Prelude.{◌≡◌, ◌^◌, ◌<◌, ◌≤◌, length, map, Err, IsTrue, OnErr, OnOk, option_map};
ghost use Rattle.dyadic.specs.Views.{fraction_of_frac};
ghost use Rattle.term_build.specs.Steps.{as_constant, as_variable, both_of, constants, node_constant, node_variable, tree_of, two_fractions};
ghost use Rattle.poly_graph.specs.Term.{comes_after};
ghost use Rattle.poly_graph.specs.FormGraph.{form_comes_after};
ghost use Rattle.poly_graph.specs.FormViews.{form_node_of};
ghost use Rattle.poly_graph.specs.Problem.{HasSort, IsNode};
ghost use Rattle.poly_graph.specs.Views.{atom_of, node_of};
ghost use Rattle.smt_script.specs.Views.{sort_of};
ghost use Rattle.script_forms.specs.Terms.{same_term};
ghost use Rattle.script_forms.specs.Walk.{all_sizes, most_forms};
ghost use Rattle.script_forms.specs.Work.{reached};
ghost use Rattle.term_build.specs.Built.{IsFormNode, IsMade, begun, stand_of};
ghost use Rattle.term_build.specs.Calls.{AsksAtom, DoesEvent, MakesForm, MakesNode, fraction_in};
ghost use Rattle.term_build.specs.Marks.{counts_in, counts_of, taken, with_sort};
ghost use Rattle.term_build.specs.declared.stop.Stop.TheVariants.{TooMany};
ghost use Rattle.script_fault.specs.declared.limit.Limit.TheVariants.{Forms};

use crate::facts::{atoms_are_apart, forms_are_shared, graph_is_shared};
use crate::mark::Mark;
use crate::stop::{Stop, limited};
use dyadic::Frac;
use poly_graph::{Atom, AtomTable, FormGraph, FormNode, FormTable, Graph, Kind, Node, NodeTable};
use script_fault::{Limit, MOST_SIZE};
use smt_script::Sort;
use std::alloc::{AllocError, Global};
use std::marker::Model;

/// What is made of a script: the number of expressions that were reached, and each node, atom and node of a form once.
#[derive(Drop)]
pub struct Builder {
    sorts: Vec<Sort>,
    size: u32,
    nodes: NodeTable,
    atoms: AtomTable,
    forms: FormTable,
}

impl Model for Builder {
    ghost use Rattle.std.specs.Prelude.{map};
    ghost use Rattle.smt_script.specs.Views.{sort_of};
    ghost use Rattle.term_build.specs.Built.{BuilderModel, IsMade};

    ghost Value = { BuilderModel };

    ghost view = { λ b. record {
      sorts = map sort_of b.sorts.items;
      size = b.size;
      nodes = b.nodes;
      atoms = b.atoms;
      forms = b.forms;
    } };

    ghost invariant = { λ b. IsMade (record {
      sorts = map sort_of b.sorts.items;
      size = b.size;
      nodes = b.nodes;
      atoms = b.atoms;
      forms = b.forms;
    }) };
}

// The constant of a node.
fn constant_of(node: Node) -> Option<Frac>
    ensures { option_map fraction_of_frac result ≡ node_constant (node_of node) }
{
    match node {
        Node::Const(q) => Some(q),
        _ => None,
    }
}

// The axis of a node.
fn axis_of(node: Node) -> Option<u32>
    ensures { result ≡ node_variable (node_of node) }
{
    match node {
        Node::Var(axis) => Some(axis),
        _ => None,
    }
}

// Two, where both are there.
fn both(p: Option<Frac>, q: Option<Frac>) -> Option<(Frac, Frac)>
    ensures { option_map two_fractions result ≡ both_of (fraction_in p) (fraction_in q) }
{
    match (p, q) {
        (Some(p), Some(q)) => Some((p, q)),
        _ => None,
    }
}

impl Builder {
    /// Nothing is made yet. The constants of a script, in their order, have these sorts.
    pub fn new(alloc: Global, sorts: Vec<Sort>) -> Self
        ensures { result ≡ begun (map sort_of sorts.items) }
    {
        let nodes = NodeTable::new(alloc);
        graph_is_shared(&nodes);
        let atoms = AtomTable::new(alloc);
        atoms_are_apart(&atoms);
        let forms = FormTable::new(alloc);
        forms_are_shared(&forms);
        Builder {
            sorts,
            size: 0,
            nodes,
            atoms,
            forms,
        }
    }

    /// All that is made: the nodes of terms, the atoms and the nodes of the form.
    pub fn into_parts(self) -> (Graph, Vec<Atom>, FormGraph)
        ensures nodes { result.0 ≡ self.nodes }
        ensures atoms { map atom_of result.1.items ≡ self.atoms }
        ensures forms { result.2 ≡ self.forms }
        ensures made { IsMade self }
    {
        (
            self.nodes.into_graph(),
            self.atoms.into_atoms(),
            self.forms.into_graph(),
        )
    }

    /// One more constant, of this sort.
    pub fn add_sort(&mut self, sort: Sort) -> Result<(), AllocError>
        ensures added { OnOk result (self.new ≡ with_sort self.old (sort_of sort)) }
        ensures stays { OnErr result (self.new ≡ self.old) }
    {
        self.sorts.push(sort)?;
        Ok(())
    }

    /// How much is made.
    pub fn mark(&self) -> Mark
        ensures counts { counts_in result ≡ counts_of self.now }
        ensures made { IsMade self.now }
    {
        Mark {
            sorts: self.sorts.len(),
            size: self.size,
            nodes: self.nodes.len(),
            atoms: self.atoms.atoms().len(),
            forms: self.forms.len(),
        }
    }

    /// Goes back to a mark: only what was made before it stays. It takes the time of what is taken back.
    pub fn undo(&mut self, mark: Mark)
        requires { IsMade (taken (counts_in mark) self.old) }
        ensures { self.new ≡ taken (counts_in mark) self.old }
    {
        self.sorts.truncate(mark.sorts);
        self.size = mark.size;
        self.nodes.truncate(mark.nodes);
        self.atoms.truncate(mark.atoms);
        self.forms.truncate(mark.forms);
    }

    /// The nodes of terms, by number.
    pub fn nodes(&self) -> &[Node]
        ensures nodes { map node_of result.now ≡ self.now.nodes }
        ensures made { IsMade self.now }
    {
        self.nodes.nodes()
    }

    /// The atoms, by number.
    pub fn atoms(&self) -> &[Atom]
        ensures { map atom_of result.now ≡ self.now.atoms }
    {
        self.atoms.atoms()
    }

    /// The nodes of the form, by number.
    pub fn forms(&self) -> &[FormNode]
        ensures { map form_node_of result.now ≡ self.now.forms }
    {
        self.forms.nodes()
    }

    /// One more expression is reached.
    #[tactic(auto, unfolding(crate::specs::Does::IsBeyond))]
    pub fn reach(&mut self) -> Result<(), Stop>
        ensures does { DoesEvent self.old self.new reached result (λ _. Unit {0}) }
        ensures sorts { self.new.sorts ≡ self.old.sorts }
    {
        if self.size >= MOST_SIZE {
            return Err(Stop::TooMany(Limit::Size));
        }
        self.size += 1;
        Ok(())
    }

    /// A tree is made: the number of its node.
    pub fn make(&mut self, node: Node) -> Result<u32, Stop>
        requires after { IsTrue (comes_after (length self.old.nodes) (node_of node)) }
        requires fits { IsNode self.old.sorts (node_of node) }
        ensures does { MakesNode self.old self.new (node_of node) result }
        ensures sorts { self.new.sorts ≡ self.old.sorts }
    {
        let made = self.nodes.intern(node);
        graph_is_shared(&self.nodes);
        limited(made)
    }

    /// The number of the atom of this term's node and this kind.
    pub fn ask(&mut self, term: u32, kind: Kind) -> Result<u32, Stop>
        requires { term < length self.old.nodes }
        ensures does { AsksAtom self.old self.new term kind result }
        ensures sorts { self.new.sorts ≡ self.old.sorts }
    {
        let made = self.atoms.intern(Atom { term, kind });
        atoms_are_apart(&self.atoms);
        limited(made)
    }

    /// The number of the form's node.
    pub fn form(&mut self, node: FormNode) -> Result<u32, Stop>
        requires after { IsTrue (form_comes_after (length self.old.forms) (form_node_of node)) }
        requires fits { IsFormNode self.old.sorts (length self.old.atoms) (form_node_of node) }
        ensures does { MakesForm self.old self.new (form_node_of node) result }
        ensures sorts { self.new.sorts ≡ self.old.sorts }
    {
        let made = self.forms.intern(node);
        forms_are_shared(&self.forms);
        limited(made)
    }

    /// There is no room for a form that is larger than all forms may be.
    pub(crate) fn no_room(&self) -> Result<u32, Stop>
        ensures stops { result ≡ Err (TooMany Forms) }
        ensures few { all_sizes (stand_of self.now).forms ≤ most_forms }
    {
        forms_are_shared(&self.forms);
        Err(Stop::TooMany(Limit::Forms))
    }

    /// How many nodes there are.
    pub fn len(&self) -> usize
        ensures { result ≡ length self.now.nodes }
    {
        self.nodes.len()
    }

    /// The constant that a node is.
    pub fn constant_at(&self, k: u32) -> Option<Frac>
        requires { k < length self.now.nodes }
        ensures { option_map fraction_of_frac result ≡ as_constant (tree_of self.now k) }
    {
        constant_of(self.nodes.node(k))
    }

    /// The axis of the constant of the script that a node is.
    pub fn axis_at(&self, k: u32) -> Option<u32>
        requires { k < length self.now.nodes }
        ensures { result ≡ as_variable (tree_of self.now k) }
    {
        axis_of(self.nodes.node(k))
    }

    /// The sort of the constant of this axis.
    pub fn sort_at(&self, axis: u32) -> Sort
        requires { axis < length self.now.sorts }
        ensures { HasSort (sort_of result) self.now.sorts axis }
    {
        self.sorts[axis as usize]
    }

    // The constants that two nodes are, where both are.
    pub(crate) fn constants(&self, a: u32, b: u32) -> Option<(Frac, Frac)>
        requires first { a < length self.now.nodes }
        requires second { b < length self.now.nodes }
        ensures { option_map two_fractions result ≡
            constants (tree_of self.now a) (tree_of self.now b) }
    {
        both(self.constant_at(a), self.constant_at(b))
    }

    // Whether the trees of two nodes are one and the same.
    pub(crate) fn is_same(&self, a: u32, b: u32) -> bool
        requires first { a < length self.now.nodes }
        requires second { b < length self.now.nodes }
        ensures { result ≡ same_term (tree_of self.now a) (tree_of self.now b) }
    {
        graph_is_shared(&self.nodes);
        a == b
    }
}
