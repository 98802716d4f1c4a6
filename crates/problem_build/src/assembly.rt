// A problem of the parts that a builder made.
ghost use Rattle.std.specs.Prelude.{◌≡◌, ◌<◌, All, IfOk, OnOk, [], length, map};
ghost use Rattle.poly_graph.specs.Problem as problem;
ghost use Rattle.poly_graph.specs.Problem.{IsDeclared, sorts_of_axes};
ghost use Rattle.poly_graph.specs.ProblemViews.{IsWhole, axis_of};
ghost use Rattle.term_build.specs.Built.{stand_of};
ghost use Rattle.term_build.specs.Settled.{Extends};
ghost use Rattle.term_build.specs.Shapes.{AreNumbers};
ghost use Rattle.problem_build.specs.Laws.{parts_made};
ghost use Rattle.problem_build.specs.Roots.{Roots};

use poly_graph::{Axis, FormGraph, FormNode, Graph, Problem};
use std::alloc::{AllocError, Global};
use term_build::{Builder, Stop};
use value_build::Maker;

/// The problem with these axes, of a copy of all that the builder made; its form is the node `root`.
pub(crate) fn assemble(
    alloc: Global,
    axes: Vec<Axis>,
    builder: &Builder,
    root: u32,
) -> Result<Problem, AllocError>
    requires { IsWhole (parts_made builder.now (map axis_of axes.items) root) }
    ensures { IfOk result (λ p. p ≡ parts_made builder.now (map axis_of axes.items) root) }
{
    let graph = Graph::joined(alloc, &Graph::new(alloc), 0, builder.nodes())?;
    let forms = FormGraph::joined(alloc, &FormGraph::new(alloc), 0, builder.forms())?;
    let atoms = Vec::from_slice(alloc, builder.atoms())?;
    Ok(Problem::new(axes, graph, atoms, forms, root))
}

/// The form of a whole script: all of the forms of its assertions, which these nodes are.
pub(crate) fn root_form(maker: &mut Maker, roots: Vec<u32>) -> Result<u32, Stop>
    requires { AreNumbers (length maker.old.made.forms) roots.items }
    ensures does { Roots maker.old.made maker.new.made roots.items result }
    ensures sorts { maker.new.made.sorts ≡ maker.old.made.sorts }
    ensures stand { OnOk result
        (Extends (stand_of maker.old.made) (stand_of maker.new.made)) }
    ensures empty { maker.new.drawn ≡ [] }
    ensures bounds { maker.new.bounds ≡ maker.old.bounds }
{
    maker.form(FormNode::And(roots))
}
