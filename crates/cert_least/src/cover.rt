// The lines of the cover, and those behind it.
ghost use Rattle.std.specs.Prelude.{◌≡◌, length};
ghost use Rattle.ival.specs.Views.{interval_of};
ghost use Rattle.cert_read.specs.CertLine.{over, point_word, rule_line};
ghost use Rattle.cert_read.specs.Views.{line_of};
ghost use Rattle.cert_least.specs.declared.phase.Phase.TheVariants as phase;
ghost use Rattle.cert_least.specs.Aims.{Aim as AimOf};
ghost use Rattle.cert_least.specs.Judging.{aim_of, IsReady, IsSameAim};
ghost use Rattle.cert_least.specs.Phases.{searched_by};
ghost use Rattle.cert_least.specs.Said.{leaf_of};
ghost use Rattle.cert_least.specs.Steps.{IsAimNext, IsOverNext, IsToldAs, leaf_refusal};

use crate::aim::{Aim, is_over};
use crate::given::give;
use crate::phase::{Phase, Scope};
use crate::point::point_behind;
use crate::said::{CoverLine, said};
use cert_check::{CertFault, Checker};
use cert_read::Line;
use cover_line::{Rule, Staying, Word};
use ival::Ival;

// `over` in the main tree, where these are the goal's values: a leaf, as one that stays open in a cover of the check.
fn over_values(checker: &mut Checker<'_>, scope: Scope, values: Ival) -> Result<Phase, CertFault>
    ensures { (a : AimOf) →
        IsOverNext a scope checker.old (interval_of values) checker.new result }
{
    if is_over(scope.lower, values) {
        let open = Line::Rule(Rule::Stay(Staying::Open));
        return give(checker, &open, Phase::InCover(scope));
    }
    Err(CertFault::OverFails { line: 0 })
}

// `over`.
fn over_line(aim: &mut Aim, checker: &mut Checker<'_>, scope: Scope) -> Result<Phase, CertFault>
    requires { IsReady aim.old }
    ensures next { IsAimNext aim.old (phase.InCover scope) checker.old over checker.new result }
    ensures ready { IsReady aim.new }
    ensures same { IsSameAim aim.old aim.new }
{
    match aim.enclosure_at(checker.stand()) {
        None => give(checker, &Line::Over, Phase::InCover(scope)),
        Some(values) => over_values(checker, scope, values),
    }
}

// The number of atoms in the problem of a cover: a limit of the goal is one more.
fn atom_count(aim: &Aim, scope: Scope) -> usize
    ensures { result ≡ length (searched_by (aim_of aim.now) scope).atoms }
{
    let count = aim.problem.atoms().len();
    match (scope.lower, scope.bits) {
        (Some(_), Some(_)) => count + 1,
        _ => count,
    }
}

// The fault of a rule that leaves its own state, in the main tree.
fn leaf_fault(aim: &Aim, scope: Scope, stuck: Option<u32>) -> CertFault
    ensures { IsToldAs result
        (leaf_refusal (searched_by (aim_of aim.now) scope) (leaf_of stuck)) }
{
    match stuck {
        None => CertFault::RuleFails {
            rule: Word::Open,
            line: 0,
        },
        Some(atom) => {
            if atom as usize >= atom_count(aim, scope) {
                return CertFault::BadNumber { line: 0 };
            }
            CertFault::RuleFails {
                rule: Word::Stuck,
                line: 0,
            }
        }
    }
}

// A rule that leaves its own state.
fn leaf_line(
    aim: &mut Aim,
    checker: &mut Checker<'_>,
    scope: Scope,
    stuck: Option<u32>,
    line: &Line,
) -> Result<Phase, CertFault>
    requires ready { IsReady aim.old }
    requires line { line_of line.now ≡ rule_line (leaf_of stuck) }
    ensures next { IsAimNext aim.old (phase.InCover scope) checker.old
        (rule_line (leaf_of stuck)) checker.new result }
    ensures ready { IsReady aim.new }
    ensures same { IsSameAim aim.old aim.new }
{
    match aim.enclosure_at(checker.stand()) {
        None => give(checker, line, Phase::InCover(scope)),
        Some(_) => Err(leaf_fault(aim, scope, stuck)),
    }
}

// `point`: behind the cover the first line of a point.
fn point_line(aim: &Aim, checker: &mut Checker<'_>, scope: Scope) -> Result<Phase, CertFault>
    ensures { IsAimNext aim.now (phase.InCover scope) checker.old point_word checker.new result }
{
    match checker.cover() {
        None => give(checker, &Line::Point, Phase::InCover(scope)),
        Some(cover) => {
            let loosenings = *cover.loosenings;
            point_behind(aim, checker, loosenings, scope)
        }
    }
}

/// A line of the cover, or one behind it.
pub fn in_cover_line(
    aim: &mut Aim,
    checker: &mut Checker<'_>,
    scope: Scope,
    line: &Line,
) -> Result<Phase, CertFault>
    requires { IsReady aim.old }
    ensures next { IsAimNext aim.old (phase.InCover scope) checker.old (line_of line.now)
        checker.new result }
    ensures ready { IsReady aim.new }
    ensures same { IsSameAim aim.old aim.new }
{
    match said(line) {
        CoverLine::Over => over_line(aim, checker, scope),
        CoverLine::Leaf(stuck) => leaf_line(aim, checker, scope, stuck, line),
        CoverLine::Point => point_line(aim, checker, scope),
        CoverLine::Other => give(checker, line, Phase::InCover(scope)),
    }
}
