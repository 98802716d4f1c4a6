// A checker of the check that takes the header once more: no line of it has a fault then.
ghost use Rattle.std.specs.Prelude.{◌≡◌, ℕ, Option, IsTrue};
ghost use Rattle.poly_graph.specs.Problem.{Problem as ProblemOf};
ghost use Rattle.poly_graph.specs.ProblemViews.{problem_of};
ghost use Rattle.cert_model.specs.Accepted.{is_header, loosenings_fit};
ghost use Rattle.cert_model.specs.Due.{bound_due, delta_due, is_version, kind_due, margin_due, version_due};
ghost use Rattle.cert_least.specs.Phases.{told_of, IsDueTo};
ghost use Rattle.cert_least.specs.Steps.{IsTaken};

use crate::given::advance;
use crate::phase::Told;
use cert_check::{CertFault, Checker};
use cert_read::Line;
use poly_graph::Problem;
use std::alloc::Global;
use std::mem;

// The first line of a header.
fn take_version(checker: &mut Checker<'_>, version: u32) -> Result<(), CertFault>
    ensures { (p : ProblemOf) (b : Option ℕ) → IsTrue (is_version version) →
        IsDueTo p b version_due checker.old → IsTaken p b (margin_due version) checker.new result }
{
    advance(checker, &Line::Version(version))
}

// `margin`.
fn take_margin(checker: &mut Checker<'_>, version: u32, margin: u32) -> Result<(), CertFault>
    ensures { (p : ProblemOf) (b : Option ℕ) → IsDueTo p b (margin_due version) checker.old →
        IsTaken p b (delta_due version margin) checker.new result }
{
    advance(checker, &Line::Margin(margin))
}

// `delta`.
fn take_delta(checker: &mut Checker<'_>, told: Told) -> Result<(), CertFault>
    ensures { (p : ProblemOf) (b : Option ℕ) → let s = told_of told in
        IsTrue (loosenings_fit s.margin_bits s.delta_bits) →
        IsDueTo p b (delta_due s.version s.margin_bits) checker.old →
        IsTaken p b (bound_due s) checker.new result }
{
    advance(checker, &Line::Delta(told.delta))
}

// `bound`.
fn take_bound(checker: &mut Checker<'_>, told: Told, bound: Option<u32>) -> Result<(), CertFault>
    ensures { (p : ProblemOf) → let s = told_of told in
        IsDueTo p bound (bound_due s) checker.old →
        IsTaken p bound (kind_due s) checker.new result }
{
    advance(checker, &Line::Bound(bound))
}

// Gives the lines of the header to a checker that took none.
fn take_header(checker: &mut Checker<'_>, told: Told, bound: Option<u32>) -> Result<(), CertFault>
    ensures { (p : ProblemOf) → let s = told_of told in IsTrue (is_header s) →
        IsDueTo p bound version_due checker.old →
        IsTaken p bound (kind_due s) checker.new result }
{
    take_version(checker, told.version)?;
    take_margin(checker, told.version, told.margin)?;
    take_delta(checker, told)?;
    take_bound(checker, told, bound)
}

// Puts the checker into this place.
fn put<'a>(place: &mut Checker<'a>, checker: Checker<'a>)
    ensures { place.new ≡ checker.entry }
{
    drop(mem::replace(place, checker));
}

/// Puts a checker of the problem's check that took the header in place of one that took it before.
pub fn begin_again(
    alloc: Global,
    problem: &Problem,
    checker: &mut Checker<'_>,
    told: Told,
    bound: Option<u32>,
) -> Result<(), CertFault>
    ensures { let s = told_of told in IsTrue (is_header s) →
        IsTaken (problem_of problem.now) bound (kind_due s) checker.new result }
{
    let fresh = Checker::new(alloc, problem, bound)?;
    put(checker, fresh);
    take_header(checker, told, bound)
}
