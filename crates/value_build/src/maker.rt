// The maker: a builder, the sketch of the forms of the assertion in work, and the table of bounds.
ghost use Rattle.std.specs.Prelude.{◌≡◌, ◌<◌, [], ◌∷◌, length, map, IsTrue, OnErr, OnOk};
ghost use Rattle.poly_graph.specs.FormGraph.{form_comes_after};
ghost use Rattle.poly_graph.specs.FormViews.{form_node_of};
ghost use Rattle.poly_graph.specs.Term.{constant};
ghost use Rattle.script_forms.specs.Work.{reached};
ghost use Rattle.smt_script.specs.Views.{sort_of};
ghost use Rattle.smt_sexp.specs.Views.{place_of};
ghost use Rattle.sort_check.specs.Views.{operator_of};
ghost use Rattle.term_build.specs.Built.{IsFormNode, IsMade, stand_of};
ghost use Rattle.term_build.specs.Calls.{MakesForm};
ghost use Rattle.term_build.specs.Settled.{Extends};
ghost use Rattle.value_build.specs.Calls.{MakesLiteral};
ghost use Rattle.value_build.specs.Making.{Steps, beginning};
ghost use Rattle.value_build.specs.Marks.{counts_in, counts_of, taken, with_sort};
ghost use Rattle.value_build.specs.Values.{AreKnown, Claims, IsKnown, Names, Operates};

use crate::claim::{claim_bool, claim_real};
use crate::leaves::{number, real, switch};
use crate::literal::literal_number;
use crate::mark::Mark;
use crate::operate::{give_up, operate};
use crate::value::Value;
use declared_box::BoundTable;
use poly_graph::FormNode;
use script_fault::Place;
use smt_script::Sort;
use sort_check::Operator;
use std::alloc::{AllocError, Global};
use std::marker::Model;
use term_build::{Builder, SketchNode, Stop};

/// What is made of a script so far: its terms, atoms and forms, the lists of its bounds, and the sketch of the forms of
/// the assertion in work. Where a method answers a stop, the sketch is given up.
#[derive(Drop)]
pub struct Maker {
    pub(crate) builder: Builder,
    pub(crate) sketch: Vec<SketchNode>,
    pub(crate) bounds: BoundTable,
}

impl Model for Maker {
    ghost use Rattle.term_build.specs.Calls.{drawn};
    ghost use Rattle.term_build.specs.Sketch.{IsSketch};
    ghost use Rattle.value_build.specs.Making.{Making, making};

    ghost Value = { Making };

    ghost view = { λ m. making m.builder (drawn m.sketch) m.bounds };

    ghost invariant = { λ m. IsSketch m.builder (drawn m.sketch) };
}

impl Maker {
    /// Nothing is made yet. The constants of the script, in their order, have these sorts.
    pub fn new(alloc: Global, sorts: Vec<Sort>) -> Self
        ensures { result ≡ beginning (map sort_of sorts.items) }
    {
        Maker {
            builder: Builder::new(alloc, sorts),
            sketch: Vec::new(alloc),
            bounds: BoundTable::new(alloc),
        }
    }

    /// The builder and the table of bounds.
    pub fn into_parts(self) -> (Builder, BoundTable)
        ensures builder { result.0 ≡ self.made }
        ensures bounds { result.1 ≡ self.bounds }
    {
        (self.builder, self.bounds)
    }

    /// The builder, as far as it is.
    pub fn builder(&self) -> &Builder
        ensures { result.now ≡ self.now.made }
    {
        &self.builder
    }

    /// The table of bounds, as far as it is.
    pub fn table(&self) -> &BoundTable
        ensures { result.now ≡ self.now.bounds }
    {
        &self.bounds
    }

    /// One more constant, of this sort.
    pub fn add_sort(&mut self, sort: Sort) -> Result<(), AllocError>
        ensures added { OnOk result (self.new ≡ with_sort self.old (sort_of sort)) }
        ensures stays { OnErr result (self.new ≡ self.old) }
    {
        self.builder.add_sort(sort)
    }

    /// How much is made.
    pub fn mark(&self) -> Mark
        ensures counts { counts_in result ≡ counts_of self.now }
        ensures made { IsMade self.now.made }
    {
        Mark {
            builder: self.builder.mark(),
            lists: self.bounds.len(),
        }
    }

    /// Goes back to a mark: only what was made before it stays, and nothing is drawn. It takes the time of what is
    /// taken back.
    pub fn undo(&mut self, mark: Mark)
        requires { IsMade (taken (counts_in mark) self.old).made }
        ensures { self.new ≡ taken (counts_in mark) self.old }
    {
        give_up(&mut self.sketch);
        self.builder.undo(mark.builder);
        self.bounds.truncate(mark.lists);
    }

    /// The number of the form's node. The sketch is empty again.
    pub fn form(&mut self, node: FormNode) -> Result<u32, Stop>
        requires after { IsTrue
            (form_comes_after (length self.old.made.forms) (form_node_of node)) }
        requires fits { IsFormNode
            self.old.made.sorts (length self.old.made.atoms) (form_node_of node) }
        ensures does { MakesForm self.old.made self.new.made (form_node_of node) result }
        ensures sorts { self.new.made.sorts ≡ self.old.made.sorts }
        ensures stand { OnOk result (Extends (stand_of self.old.made) (stand_of self.new.made)) }
        ensures empty { self.new.drawn ≡ [] }
        ensures bounds { self.new.bounds ≡ self.old.bounds }
    {
        give_up(&mut self.sketch);
        self.builder.form(node)
    }

    /// One more expression is reached.
    pub fn reach(&mut self) -> Result<(), Stop>
        ensures does { Steps self.old self.new (reached ∷ []) result (λ _. Unit {0}) }
        ensures sorts { self.new.made.sorts ≡ self.old.made.sorts }
    {
        match self.builder.reach() {
            Ok(()) => Ok(()),
            Err(stop) => {
                give_up(&mut self.sketch);
                Err(stop)
            }
        }
    }

    /// A literal of these digits, and those after its point. A number beyond 10^36 is not kept: `Stop::Memory`.
    pub fn literal(&mut self, digits: &[u8], decimals: &[u8]) -> Result<Value, Stop>
        ensures does { MakesLiteral self.old self.new digits.now decimals.now result }
        ensures sorts { self.new.made.sorts ≡ self.old.made.sorts }
    {
        let Some(q) = literal_number(digits, decimals) else {
            return Err(Stop::Memory);
        };
        number(self, q)
    }

    /// A declared constant, by its axis.
    pub fn constant(&mut self, alloc: Global, axis: u32) -> Result<Value, Stop>
        requires { axis < length self.old.made.sorts }
        ensures does { Names self.old self.new axis result }
        ensures sorts { self.new.made.sorts ≡ self.old.made.sorts }
    {
        match self.builder().sort_at(axis) {
            Sort::Real => real(self, axis),
            Sort::Bool => switch(alloc, self, axis),
        }
    }

    /// An operator at arguments that these values stand for. Arguments that the operator does not take are a fault of
    /// this place.
    pub fn operate(
        &mut self,
        alloc: Global,
        at: Place,
        operator: Operator,
        values: &[Value],
    ) -> Result<Value, Stop>
        requires { AreKnown self.old values.now }
        ensures does { Operates self.old self.new
            (place_of at) (operator_of operator) values.now result }
        ensures sorts { self.new.made.sorts ≡ self.old.made.sorts }
    {
        operate(alloc, self, at, operator, values)
    }

    /// The form of an assertion that this value stands for: its node, and the number of the list of its bounds. The
    /// sketch is empty again.
    pub fn claim(&mut self, alloc: Global, value: Value) -> Result<(u32, u32), Stop>
        requires { IsKnown self.old value }
        ensures does { Claims self.old self.new value result }
        ensures sorts { self.new.made.sorts ≡ self.old.made.sorts }
        ensures empty { self.new.drawn ≡ [] }
    {
        match value {
            Value::Bool(pair, list) => claim_bool(
                alloc,
                &mut self.builder,
                &mut self.sketch,
                pair.truth,
                list,
            ),
            Value::Real(node) => {
                give_up(&mut self.sketch);
                claim_real(alloc, &mut self.builder, &mut self.bounds)
            }
            Value::Choice(node) => {
                give_up(&mut self.sketch);
                claim_real(alloc, &mut self.builder, &mut self.bounds)
            }
        }
    }
}
