// Comparisons: their terms and atoms are made when their form is asked for.
ghost use Rattle.std.specs.Prelude.{◌≡◌, ◌<◌, length};
ghost use Rattle.script_forms.specs.Terms.{is_zero};
ghost use Rattle.term_build.specs.Calls.{MakesAtomForm, MakesFormOf, MakesTermOf, asked_atom, comparison_at};
ghost use Rattle.term_build.specs.Gathers.{MakesEqual, MakesEqualTo};
ghost use Rattle.term_build.specs.Shapes.{AreNumbers};
ghost use Rattle.term_build.specs.Steps.{tree_of};

use crate::builder::Builder;
use crate::stop::Stop;
use poly_graph::{FormNode, Kind};
use script_fault::Place;
use std::alloc::Global;

impl Builder {
    // Whether a tree is the constant 0.
    fn is_zero(&self, k: u32) -> bool
        requires { k < length self.now.nodes }
        ensures { result ≡ is_zero (tree_of self.now k) }
    {
        match self.constant_at(k) {
            Some(q) => q.n == 0,
            None => false,
        }
    }

    // The term of a comparison: the left tree where the right one is 0, else their difference.
    fn comparison_term(&mut self, at: Place, left: u32, right: u32, kind: Kind) -> Result<u32, Stop>
        requires first { left < length self.old.nodes }
        requires second { right < length self.old.nodes }
        ensures does { MakesTermOf self.old self.new
            (comparison_at self.old at left right kind) result }
        ensures sorts { self.new.sorts ≡ self.old.sorts }
    {
        if self.is_zero(right) {
            return Ok(left);
        }
        self.subtract(at, left, right)
    }

    // The form of an atom whose term's node this is.
    fn atom_form(&mut self, term: u32, kind: Kind) -> Result<u32, Stop>
        requires { term < length self.old.nodes }
        ensures does { MakesAtomForm self.old self.new (asked_atom self.old term kind) result }
        ensures sorts { self.new.sorts ≡ self.old.sorts }
    {
        let atom = self.ask(term, kind)?;
        self.form(FormNode::AtomIs(atom))
    }

    /// The form of a comparison of two trees, of an expression at this place.
    pub fn compare(&mut self, at: Place, left: u32, right: u32, kind: Kind) -> Result<u32, Stop>
        requires first { left < length self.old.nodes }
        requires second { right < length self.old.nodes }
        ensures does { MakesFormOf self.old self.new
            (comparison_at self.old at left right kind) result }
        ensures sorts { self.new.sorts ≡ self.old.sorts }
    {
        let term = self.comparison_term(at, left, right, kind)?;
        self.atom_form(term, kind)
    }
}

// The forms that the tree of a node equals those of others: their numbers come behind those before.
fn equal_to(
    builder: &mut Builder,
    at: Place,
    first: u32,
    others: &[u32],
    made: &mut Vec<u32>,
) -> Result<(), Stop>
    requires first { first < length builder.old.nodes }
    requires others { AreNumbers (length builder.old.nodes) others.now }
    ensures does { MakesEqualTo builder.old builder.new at first others.now
        made.old.items made.new.items result }
    ensures sorts { builder.new.sorts ≡ builder.old.sorts }
{
    let mut left = others;
    while let Some((other, later)) = left.split_first() {
        let number = builder.compare(at, first, *other, Kind::Eq)?;
        made.push(number)?;
        left = later;
    }
    Ok(())
}

/// The form that two of several trees are equal, of an expression at this place.
pub(crate) fn some_equal(
    alloc: Global,
    builder: &mut Builder,
    at: Place,
    nodes: &[u32],
) -> Result<u32, Stop>
    requires { AreNumbers (length builder.old.nodes) nodes.now }
    ensures does { MakesEqual builder.old builder.new at nodes.now result }
    ensures sorts { builder.new.sorts ≡ builder.old.sorts }
{
    let mut made = Vec::new(alloc);
    let mut left = nodes;
    while let Some((first, later)) = left.split_first() {
        equal_to(builder, at, *first, later, &mut made)?;
        left = later;
    }
    builder.form(FormNode::Or(made))
}
