// The values of literals and declared constants.
ghost use Rattle.std.specs.Prelude.{◌≡◌};
ghost use Rattle.dyadic.specs.Point.{bool_sort, real_sort};
ghost use Rattle.poly_graph.specs.Problem.{HasSort};
ghost use Rattle.poly_graph.specs.Term.{variable};
ghost use Rattle.value_build.specs.Calls.{number_term};
ghost use Rattle.value_build.specs.Leaves.{MakesSwitch, MakesTree};

use crate::maker::Maker;
use crate::operate::{give_up, no_bounds};
use crate::value::Value;
use dyadic::Frac;
use poly_graph::Node;
use std::alloc::Global;
use term_build::{Pair, Stop};

/// A constant number.
pub(crate) fn number(maker: &mut Maker, number: Frac) -> Result<Value, Stop>
    ensures does { MakesTree maker.old maker.new (number_term number) result }
    ensures sorts { maker.new.made.sorts ≡ maker.old.made.sorts }
{
    match maker.builder.make(Node::Const(number)) {
        Ok(node) => Ok(Value::Real(node)),
        Err(stop) => {
            give_up(&mut maker.sketch);
            Err(stop)
        }
    }
}

/// A Real constant of the script.
pub(crate) fn real(maker: &mut Maker, axis: u32) -> Result<Value, Stop>
    requires { HasSort real_sort maker.old.made.sorts axis }
    ensures does { MakesTree maker.old maker.new (variable axis) result }
    ensures sorts { maker.new.made.sorts ≡ maker.old.made.sorts }
{
    match maker.builder.make(Node::Var(axis)) {
        Ok(node) => Ok(Value::Real(node)),
        Err(stop) => {
            give_up(&mut maker.sketch);
            Err(stop)
        }
    }
}

/// A Bool constant of the script.
pub(crate) fn switch(alloc: Global, maker: &mut Maker, axis: u32) -> Result<Value, Stop>
    requires { HasSort bool_sort maker.old.made.sorts axis }
    ensures does { MakesSwitch maker.old maker.new axis result }
    ensures sorts { maker.new.made.sorts ≡ maker.old.made.sorts }
{
    let pair = Pair::bool_is(&mut maker.sketch, axis)?;
    let list = no_bounds(alloc, &mut maker.bounds)?;
    Ok(Value::Bool(pair, list))
}
