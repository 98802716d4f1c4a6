// The steps of terms: constants are folded to one, and every tree on the way is made.
ghost use Rattle.std.specs.Prelude.{◌≡◌, ◌<◌, ◌^◌, length, None, cond};
ghost use Rattle.dyadic.specs.Views.{fraction_of_frac};
ghost use Rattle.poly_graph.specs.Term.{multiply_node, square_node};
ghost use Rattle.poly_graph.specs.Views.{node_of};
ghost use Rattle.script_forms.specs.Terms.{add_tree, divide_tree, multiply_tree, negate_tree, repeats, subtract_tree, term};
ghost use Rattle.script_forms.specs.Work.{add_events, divide_events, multiply_events, subtract_events};
ghost use Rattle.term_build.specs.Calls.{Computes, Ends, EndsFolded, MakesPower, fraction_in, inverse_unless_nought};
ghost use Rattle.term_build.specs.Steps.{constants, tree_of};

use crate::builder::Builder;
use crate::stop::{Fault, Stop};
use dyadic::{Frac, TooWide};
use poly_graph::Node;
use script_fault::Place;

// A square, or a product of two.
fn product_node(a: u32, b: u32, same: bool) -> Node
    ensures { node_of result ≡ cond same (square_node a) (multiply_node a b) }
{
    if same { Node::Sq(a) } else { Node::Mul(a, b) }
}

impl Builder {
    // The constant that a step of constants gave, or its fault.
    fn fold(&mut self, at: Place, folded: Result<Frac, TooWide>) -> Result<u32, Stop>
        ensures does { EndsFolded self.old self.new at folded result }
        ensures sorts { self.new.sorts ≡ self.old.sorts }
    {
        match folded {
            Ok(q) => self.make(Node::Const(q)),
            Err(_) => Err(Stop::Fault(at, Fault::NumberTooWide)),
        }
    }

    /// The opposite of a tree.
    pub fn negate(&mut self, a: u32) -> Result<u32, Stop>
        requires { a < length self.old.nodes }
        ensures does { Ends self.old self.new (term (negate_tree (tree_of self.old a))) result }
        ensures sorts { self.new.sorts ≡ self.old.sorts }
    {
        match self.constant_at(a) {
            Some(q) => self.make(Node::Const(q.neg())),
            None => self.make(Node::Neg(a)),
        }
    }

    /// The sum of two trees, of an expression at this place.
    pub fn add(&mut self, at: Place, a: u32, b: u32) -> Result<u32, Stop>
        requires first { a < length self.old.nodes }
        requires second { b < length self.old.nodes }
        ensures does { Computes add_events add_tree self.old self.new at a b result }
        ensures sorts { self.new.sorts ≡ self.old.sorts }
    {
        match self.constants(a, b) {
            Some((p, q)) => self.fold(at, p.add(q)),
            None => self.make(Node::Add(a, b)),
        }
    }

    /// The difference of two trees, of an expression at this place: the sum of the first and the opposite of the second.
    pub fn subtract(&mut self, at: Place, a: u32, b: u32) -> Result<u32, Stop>
        requires first { a < length self.old.nodes }
        requires second { b < length self.old.nodes }
        ensures does { Computes subtract_events subtract_tree self.old self.new at a b result }
        ensures sorts { self.new.sorts ≡ self.old.sorts }
    {
        let opposite = self.negate(b)?;
        self.add(at, a, opposite)
    }

    /// The product of two trees, of an expression at this place: that of one and the same tree is its square.
    pub fn multiply(&mut self, at: Place, a: u32, b: u32) -> Result<u32, Stop>
        requires first { a < length self.old.nodes }
        requires second { b < length self.old.nodes }
        ensures does { Computes multiply_events multiply_tree self.old self.new at a b result }
        ensures sorts { self.new.sorts ≡ self.old.sorts }
    {
        match self.constants(a, b) {
            Some((p, q)) => self.fold(at, p.mul(q)),
            None => self.product(at, a, b),
        }
    }

    // The product of two trees that are not both constants.
    fn product(&mut self, at: Place, a: u32, b: u32) -> Result<u32, Stop>
        requires first { a < length self.old.nodes }
        requires second { b < length self.old.nodes }
        requires apart { None ≡ constants (tree_of self.old a) (tree_of self.old b) }
        ensures does { Computes multiply_events multiply_tree self.old self.new at a b result }
        ensures sorts { self.new.sorts ≡ self.old.sorts }
    {
        let factors = product_node(a, b, self.is_same(a, b));
        self.make(factors)
    }

    /// Whether a factor stands once more: it is one and the same tree as the one before it, and no constant.
    pub fn repeats(&self, a: u32, b: u32) -> bool
        requires first { a < length self.now.nodes }
        requires second { b < length self.now.nodes }
        ensures { result ≡ repeats (tree_of self.now a) (tree_of self.now b) }
    {
        match self.constant_at(a) {
            Some(_) => false,
            None => self.is_same(a, b),
        }
    }

    /// The power of a factor that stands so many times: the square of a power, or the factor times that. It calls itself
    /// as deep as the number has binary digits.
    pub fn power(&mut self, factor: u32, times: usize) -> Result<u32, Stop>
        requires node { factor < length self.old.nodes }
        requires some { 0 < times }
        ensures does { MakesPower self.old self.new factor times result }
        ensures sorts { self.new.sorts ≡ self.old.sorts }
    {
        if times == 1 {
            return Ok(factor);
        }
        let root = self.power(factor, times / 2)?;
        let square = self.make(Node::Sq(root))?;
        if times % 2 == 0 {
            return Ok(square);
        }
        self.make(Node::Mul(factor, square))
    }

    /// The quotient of two trees, of an expression at this place: the product of the first and the inverse of the
    /// second, which is a constant and not 0.
    pub fn divide(&mut self, at: Place, a: u32, b: u32) -> Result<u32, Stop>
        requires first { a < length self.old.nodes }
        requires second { b < length self.old.nodes }
        ensures does { Computes divide_events divide_tree self.old self.new at a b result }
        ensures sorts { self.new.sorts ≡ self.old.sorts }
    {
        let Some(q) = self.constant_at(b) else {
            return Err(Stop::Fault(at, Fault::DivisorNotConstant));
        };
        let Some(inverse) = inverse(q) else {
            return Err(Stop::Fault(at, Fault::ZeroDivisor));
        };
        let factor = self.make(Node::Const(inverse))?;
        self.multiply(at, a, factor)
    }
}

// The inverse of a fraction that is not 0.
fn inverse(q: Frac) -> Option<Frac>
    ensures { fraction_in result ≡ inverse_unless_nought (fraction_of_frac q) }
{
    if q.n == 0 {
        return None;
    }
    Frac::new(1, 1).div(q).ok()
}
