// Trees in an arena: each stands behind its parts, with what it holds.
ghost use Rattle.std.specs.Prelude.{◌≡◌, ◌<◌, ◌&&◌, ◌||◌, [], length, IfOk, OnOk, OnErr};
ghost use Rattle.script_model.specs.Sexp as sexp;
ghost use Rattle.script_model.specs.Reading.{found, operators};
ghost use Rattle.smt_sexp.specs.Views.{place_of};
ghost use Rattle.script_roots.specs.Tree as model;
ghost use Rattle.root_rewriting.specs.Nodes.{Adds, AreBelow, AreFactsOfAll, IsBelow, AreFacts, ShowsNode, atom_of, node_tree, parts_at, tree_at, trees_in};

use script_fault::{Name, Place};
use sort_check::{Operator, operator_named};
use std::alloc::{AllocError, Global};
use std::marker::Model;

/// A tree without parts: the digits of a numeral, those of a decimal before its point and behind it, or a name.
#[derive(Clone, Copy, Debug)]
pub enum Atom<'a> {
    Numeral(&'a Name),
    Decimal(&'a Name, &'a Name),
    Symbol(&'a Name),
}

/// A tree by the places of its parts, which stand before it.
#[derive(Debug, Drop)]
pub enum Node<'a> {
    Atomic(Place, Atom<'a>),
    Applied(Place, &'a Name, Vec<usize>),
    Root(Place, usize),
    /// A quotient whose divisor is not constant.
    Quotient(Place, usize, usize),
    /// What has no form.
    Formless(Place),
}

/// What a tree holds.
#[derive(Clone, Copy, Debug)]
pub struct Facts {
    /// No constant and no root.
    pub is_number: bool,
    pub holds_root: bool,
    pub holds_choice: bool,
}

#[derive(Debug, Drop)]
struct Entry<'a> {
    node: Node<'a>,
    facts: Facts,
}

/// Trees, each behind its parts.
#[derive(Debug, Drop)]
pub struct Trees<'a> {
    entries: Vec<Entry<'a>>,
}

impl<'a> Model for Trees<'a> {
    ghost use Rattle.std.specs.Prelude.{List, map};
    ghost use Rattle.root_rewriting.specs.Nodes.{AreEntries, node_in};
    ghost use Rattle.root_rewriting.specs.declared.unfold.trees.Node.{Node};

    ghost Value = { List Node };

    ghost view = { λ t. map node_in t.entries.items };

    ghost invariant = { λ t. AreEntries t.entries.items };
}

// Whether a name is that of `ite`.
fn is_choice(name: &Name) -> bool
    ensures { result ≡ model.is_choice (found name.now operators) }
{
    match operator_named(name.as_slice()) {
        Some(Operator::Choice) => true,
        _ => false,
    }
}

// What a tree without parts holds.
fn atom_facts(atom: Atom<'_>) -> Facts
    ensures { (place : sexp.Place) → AreFacts result (model.atomic place (atom_of atom.entry)) }
{
    let is_number = match atom {
        Atom::Symbol(name) => operator_named(name.as_slice()).is_some(),
        _ => true,
    };
    Facts {
        is_number,
        holds_root: false,
        holds_choice: false,
    }
}

// What two hold together.
fn together(one: Facts, other: Facts) -> Facts
    ensures number { result.is_number ≡ (one.is_number && other.is_number) }
    ensures root { result.holds_root ≡ (one.holds_root || other.holds_root) }
    ensures choice { result.holds_choice ≡ (one.holds_choice || other.holds_choice) }
{
    Facts {
        is_number: one.is_number && other.is_number,
        holds_root: one.holds_root || other.holds_root,
        holds_choice: one.holds_choice || other.holds_choice,
    }
}

impl<'a> Trees<'a> {
    /// No trees.
    pub fn new(alloc: Global) -> Self
        ensures { result ≡ [] }
    {
        Trees {
            entries: Vec::new(alloc),
        }
    }

    /// How many trees there are.
    pub fn len(&self) -> usize
        ensures { result ≡ length self.now }
    {
        self.entries.len()
    }

    /// The tree at a place, by the places of its parts.
    pub fn look(&self, at: usize) -> &Node<'a>
        requires { at < length self.now }
        ensures { ShowsNode (trees_in self.now) at result.now }
    {
        &self.entries[at].node
    }

    /// What the tree at a place holds.
    pub fn facts(&self, at: usize) -> Facts
        requires { at < length self.now }
        ensures { AreFacts result (tree_at (trees_in self.now) at) }
    {
        self.entries[at].facts
    }

    // Adds a tree that holds this.
    #[tactic(auto, using(crate::proofs::Arena::entries_pushed, crate::proofs::Arena::trees_pushed))]
    fn push(&mut self, node: Node<'a>, facts: Facts) -> Result<usize, AllocError>
        requires below { IsBelow (length self.old) node }
        requires known { AreFacts facts (node_tree (trees_in self.old) node) }
        ensures added { OnOk result (Adds self.old self.new
            (node_tree (trees_in self.old) node.entry)) }
        ensures stay { OnErr result (self.new ≡ self.old) }
        ensures last { IfOk result (λ at. at ≡ length self.old) }
    {
        let at = self.entries.len();
        self.entries.push(Entry { node, facts })?;
        Ok(at)
    }

    // What trees hold together.
    fn facts_of_all(&self, parts: &[usize]) -> Facts
        requires { AreBelow (length self.now) parts.now }
        ensures { AreFactsOfAll result (parts_at (trees_in self.now) parts.now) }
    {
        let mut all = Facts {
            is_number: true,
            holds_root: false,
            holds_choice: false,
        };
        let mut rest = parts;
        while let [part, later @ ..] = rest {
            all = together(all, self.facts(*part));
            rest = later;
        }
        all
    }

    /// Whether all are numbers.
    pub(crate) fn are_numbers(&self, parts: &[usize]) -> bool
        requires { AreBelow (length self.now) parts.now }
        ensures { result ≡
            model.are_numbers (model.trees_of (parts_at (trees_in self.now) parts.now)) }
    {
        self.facts_of_all(parts).is_number
    }

    /// Adds a tree without parts.
    pub fn atomic(&mut self, place: Place, atom: Atom<'a>) -> Result<usize, AllocError>
        ensures added { OnOk result (Adds self.old self.new
            (model.atomic (place_of place) (atom_of atom.entry))) }
        ensures stay { OnErr result (self.new ≡ self.old) }
        ensures last { IfOk result (λ at. at ≡ length self.old) }
    {
        self.push(Node::Atomic(place, atom), atom_facts(atom))
    }

    /// Adds an operator at its arguments.
    pub fn applied(
        &mut self,
        place: Place,
        name: &'a Name,
        parts: Vec<usize>,
    ) -> Result<usize, AllocError>
        requires { AreBelow (length self.old) parts.items }
        ensures added { OnOk result (Adds self.old self.new
            (model.applied (place_of place) name.now
            (model.trees_of (parts_at (trees_in self.old) parts.items)))) }
        ensures stay { OnErr result (self.new ≡ self.old) }
        ensures last { IfOk result (λ at. at ≡ length self.old) }
    {
        let all = self.facts_of_all(parts.as_slice());
        let facts = Facts {
            is_number: all.is_number,
            holds_root: all.holds_root,
            holds_choice: is_choice(name) || all.holds_choice,
        };
        self.push(Node::Applied(place, name, parts), facts)
    }

    /// Adds a square root.
    pub fn root(&mut self, place: Place, part: usize) -> Result<usize, AllocError>
        requires { part < length self.old }
        ensures added { OnOk result (Adds self.old self.new
            (model.root (place_of place) (tree_at (trees_in self.old) part))) }
        ensures stay { OnErr result (self.new ≡ self.old) }
        ensures last { IfOk result (λ at. at ≡ length self.old) }
    {
        let facts = Facts {
            is_number: false,
            holds_root: true,
            holds_choice: self.facts(part).holds_choice,
        };
        self.push(Node::Root(place, part), facts)
    }

    /// Adds a quotient whose divisor is not constant.
    pub fn quotient(
        &mut self,
        place: Place,
        dividend: usize,
        divisor: usize,
    ) -> Result<usize, AllocError>
        requires dividend { dividend < length self.old }
        requires divisor { divisor < length self.old }
        ensures added { OnOk result (Adds self.old self.new
            (model.quotient (place_of place) (tree_at (trees_in self.old) dividend)
            (tree_at (trees_in self.old) divisor))) }
        ensures stay { OnErr result (self.new ≡ self.old) }
        ensures last { IfOk result (λ at. at ≡ length self.old) }
    {
        let facts = together(self.facts(dividend), self.facts(divisor));
        self.push(Node::Quotient(place, dividend, divisor), facts)
    }

    /// Adds what has no form.
    pub fn formless(&mut self, place: Place) -> Result<usize, AllocError>
        ensures added { OnOk result (Adds self.old self.new
            (model.formless (place_of place))) }
        ensures stay { OnErr result (self.new ≡ self.old) }
        ensures last { IfOk result (λ at. at ≡ length self.old) }
    {
        let facts = Facts {
            is_number: false,
            holds_root: false,
            holds_choice: false,
        };
        self.push(Node::Formless(place), facts)
    }
}
