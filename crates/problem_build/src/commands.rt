// What is made of a command.
ghost use Rattle.std.specs.Prelude.{◌≡◌, List, [], OnOk};
ghost use Rattle.script_model.specs.Script as model;
ghost use Rattle.smt_script.specs.Views.{command_of};
ghost use Rattle.problem_build.specs.Names.{TopFits, bounding_at, work_at};
ghost use Rattle.problem_build.specs.Standing.{Asserts, IsDone, IsTopOf, Makes};

use crate::fault::building_error;
use crate::goal::goal_claim;
use crate::top::TopTable;
use crate::walk::expression;
use script_fault::ReadError;
use smt_script::Command;
use smt_sexp::Sexps;
use std::alloc::Global;
use term_build::Stop;
use value_build::Maker;

// An assertion: the node of its form, and the list of its bounds.
fn assertion<'p, 'a>(
    alloc: Global,
    sexps: &'a Sexps,
    top: &TopTable<'p, 'a>,
    maker: &mut Maker,
    body: usize,
) -> Result<(u32, u32), Stop>
    requires { TopFits maker.old.made.sorts top.now }
    ensures asserts { Asserts maker.old maker.new
        (work_at sexps.now top.now body) (bounding_at sexps.now top.now body) result }
    ensures sorts { maker.new.made.sorts ≡ maker.old.made.sorts }
    ensures empty { OnOk result (maker.new.drawn ≡ []) }
{
    let value = expression(alloc, sexps, top, maker, body)?;
    maker.claim(alloc, value)
}

/// Makes what a command adds, behind commands that bind these names: a constant, or the form of an assertion or of a goal,
/// with the list of its bounds.
pub(crate) fn make<'p, 'a>(
    alloc: Global,
    sexps: &'a Sexps,
    top: &TopTable<'p, 'a>,
    maker: &mut Maker,
    claims: &mut Vec<(u32, u32)>,
    command: &Command<'a>,
) -> Result<(), ReadError>
    requires { TopFits maker.old.made.sorts top.now }
    ensures { (script : List model.Command) → IsTopOf sexps.now script top.now →
        IsDone script maker.old claims.old.items →
        Makes script (command_of sexps.now command.now)
        maker.old maker.new claims.old.items claims.new.items result }
{
    match command {
        Command::Declare(_, _, sort) => {
            maker.add_sort(*sort)?;
            Ok(())
        }
        Command::Assert(place, body) => {
            match assertion(alloc, sexps, top, maker, *body) {
                Ok(made) => {
                    claims.push(made)?;
                    Ok(())
                }
                Err(stop) => Err(building_error(*place, stop)),
            }
        }
        Command::Minimize(place, body) => {
            match goal_claim(alloc, sexps, top, maker, *place, *body) {
                Ok(made) => {
                    claims.push(made)?;
                    Ok(())
                }
                Err(stop) => Err(building_error(*place, stop)),
            }
        }
        Command::Define(_, _, _, _, _) => Ok(()),
        Command::Check(_) => Ok(()),
        Command::Ineffective(_) => Ok(()),
    }
}
