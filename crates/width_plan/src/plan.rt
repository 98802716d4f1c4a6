// The plan of a problem.
ghost use Rattle.std.specs.Prelude.{◌≡◌, ◌<◌, ◌≤◌, ℕ, length, map, IfOk, IsTrue, Option, None};
ghost use Rattle.dyadic.specs.Views.{ext_of};
ghost use Rattle.poly_graph.specs.ProblemViews.{problem_of};
ghost use Rattle.cover_model.specs.Narrowed.{enclosures};
ghost use Rattle.cover_model.specs.Root.{root_space};
ghost use Rattle.interval_model.specs.Space.{domain_interval};
ghost use Rattle.ival.specs.RowViews.{rows_of};
ghost use Rattle.ival.specs.SpaceViews.{space_of, domain_of};
ghost use Rattle.ival.specs.Views.{interval_of};
ghost use Rattle.width_plan.specs.NodeWidth.{graph_widths};
ghost use Rattle.width_plan.specs.Plan.{IsPlan, IsPlanBy, IsLeast, reaches_far};
ghost use Rattle.width_plan.specs.Laws.{IsNarrowBy};
ghost use Rattle.width_plan.specs.Views.{answer_of};
ghost use Rattle.width_plan.specs.Search.{IsGap, FirstMisfit, FirstFar};

use crate::sizes::interval_size;
use crate::widths::fill_widths;
use dyadic::{Ext, add_down, at_most, pow2, two_to_minus};
use form_truth::{Root, root_space};
use hc4::fill;
use ival::{Domain, Ends, Ival, Rows, Space};
use poly_graph::Problem;
use std::alloc::{AllocError, Global};

/// What a search needs so that no atom can stay undecided.
#[derive(Clone, Copy, Debug, PartialEq, Eq)]
pub enum Plan {
    /// Boxes with sides of at most two to the minus this many are small enough, and no fewer bits are sure to be.
    Least(u32),
    /// No width of 60 bits or fewer is sure to decide this atom; at 60 it is the first.
    NoAtom(usize),
    /// This axis, the first, reaches so far that its sides cannot be halved down to the least width.
    NoAxis(usize),
}

// Delta minus margin.
fn gap_of(delta_bits: u32, margin_bits: u32) -> Ext
    requires order { delta_bits < margin_bits }
    requires few { margin_bits ≤ 60 }
    ensures { IsGap delta_bits margin_bits (ext_of result) }
{
    let margin = two_to_minus(margin_bits);
    add_down(Ext::Fin(two_to_minus(delta_bits)), Ext::Fin(margin.neg()))
}

// The first atom that so many bits do not fit. The widths are those of the graph's nodes.
fn first_misfit(
    problem: &Problem,
    _root: &Space,
    widths: &[Ext],
    _bits: u32,
    delta_bits: u32,
    margin_bits: u32,
) -> Option<usize>
    requires order { delta_bits < margin_bits }
    requires few { margin_bits ≤ 60 }
    requires root { space_of _root.now ≡ root_space (problem_of problem.now) }
    requires widths { map ext_of widths.now ≡
        graph_widths (space_of _root.now) _bits problem.now.nodes }
    ensures { FirstMisfit (problem_of problem.now) delta_bits margin_bits _bits result }
{
    let gap = gap_of(delta_bits, margin_bits);
    let atoms = problem.atoms();
    for atom in 0..atoms.len() {
        let term = atoms[atom].term as usize;
        if at_most(gap, widths[term]) {
            return Some(atom);
        }
    }
    None
}

// The numbers of a domain, none of a Bool one.
fn numbers(domain: Domain) -> Ival
    ensures { interval_of result ≡ domain_interval (domain_of domain) }
{
    match domain {
        Domain::Real(range) => Ival::Between(Ends {
            low: Ext::Fin(range.low),
            high: Ext::Fin(range.high),
        }),
        Domain::Bool(_) => Ival::Empty,
    }
}

// Whether an axis of this domain reaches too far to be halved down to so many bits.
fn reaches_far(domain: Domain, bits: u32) -> bool
    requires { bits ≤ 60 }
    ensures { result ≡ reaches_far bits (domain_interval (domain_of domain)) }
{
    let most = pow2((61 - bits) as i32);
    !at_most(interval_size(numbers(domain)), Ext::Fin(most))
}

// The first axis that reaches too far.
fn first_far(root: &Space, bits: u32) -> Option<usize>
    requires { bits ≤ 60 }
    ensures { FirstFar (space_of root.now) bits result }
{
    for axis in 0..root.len() {
        if reaches_far(root.get(axis), bits) {
            return Some(axis);
        }
    }
    None
}

// The answer where so many bits are the least that fit all atoms.
fn on_axes(_problem: &Problem, root: &Space, bits: u32, _delta_bits: u32, _margin_bits: u32) -> Plan
    requires root { space_of root.now ≡ root_space (problem_of _problem.now) }
    requires least { IsLeast (problem_of _problem.now) _delta_bits _margin_bits bits }
    ensures { IsPlanBy None (problem_of _problem.now) _delta_bits _margin_bits (answer_of result) }
{
    match first_far(root, bits) {
        None => Plan::Least(bits),
        Some(axis) => Plan::NoAxis(axis),
    }
}

// The plan of a problem whose root this is, and whose enclosures over it these are.
fn search(
    problem: &Problem,
    root: &Space,
    rows: &Rows,
    delta_bits: u32,
    margin_bits: u32,
    widths: &mut [Ext],
) -> Plan
    requires order { delta_bits < margin_bits }
    requires few { margin_bits ≤ 60 }
    requires root { space_of root.now ≡ root_space (problem_of problem.now) }
    requires rows { rows_of rows.now ≡ enclosures (space_of root.now) problem.now.nodes }
    requires count { length widths.old ≡ length problem.now.nodes }
    ensures { IsPlanBy None (problem_of problem.now) delta_bits margin_bits (answer_of result) }
{
    for bits in 0..60 {
        fill_widths(problem.graph(), root, rows, bits, widths);
        match first_misfit(problem, root, widths, bits, delta_bits, margin_bits) {
            None => return on_axes(problem, root, bits, delta_bits, margin_bits),
            Some(_) => {}
        }
    }
    fill_widths(problem.graph(), root, rows, 60, widths);
    match first_misfit(problem, root, widths, 60, delta_bits, margin_bits) {
        None => on_axes(problem, root, 60, delta_bits, margin_bits),
        Some(atom) => Plan::NoAtom(atom),
    }
}

// The plan of a problem whose root this is.
fn plan_in(
    alloc: Global,
    problem: &Problem,
    root: &Space,
    delta_bits: u32,
    margin_bits: u32,
) -> Result<Plan, AllocError>
    requires order { delta_bits < margin_bits }
    requires few { margin_bits ≤ 60 }
    requires root { space_of root.now ≡ root_space (problem_of problem.now) }
    ensures plan { IfOk result (λ plan.
        IsPlanBy None (problem_of problem.now) delta_bits margin_bits (answer_of plan)) }
    ensures narrow { IfOk result (λ plan.
        IsNarrowBy (problem_of problem.now) delta_bits margin_bits (answer_of plan)) }
{
    let graph = problem.graph();
    let mut rows = Rows::new(alloc, graph.len())?;
    fill(graph, root, &mut rows);
    let mut widths = vec![in alloc; Ext::PosInf; graph.len()]?;
    Ok(search(problem, root, &rows, delta_bits, margin_bits, &mut widths))
}

/// The least width that a problem needs, by one pass over its root box and without a search: `Least` where boxes with
/// sides of at most `2^-bits` leave no atom undecided between margin and delta. It can be more bits than a search
/// needs, and is never fewer than are sure to be enough. An empty declared box needs none.
pub fn plan_widths(
    alloc: Global,
    problem: &Problem,
    delta_bits: u32,
    margin_bits: u32,
) -> Result<Plan, AllocError>
    requires order { delta_bits < margin_bits }
    requires few { margin_bits ≤ 60 }
    ensures plan { IfOk result (λ plan.
        IsPlan (problem_of problem.now) delta_bits margin_bits (answer_of plan)) }
    ensures narrow { IfOk result (λ plan.
        IsNarrowBy (problem_of problem.now) delta_bits margin_bits (answer_of plan)) }
{
    match root_space(alloc, problem)? {
        Root::Empty(_) => Ok(Plan::Least(0)),
        Root::Space(root) => plan_in(alloc, problem, &root, delta_bits, margin_bits),
    }
}
