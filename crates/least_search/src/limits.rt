// The limit of the next search.
ghost use Rattle.std.specs.Prelude.{◌≡◌, ◌<◌, ◌≤◌, IfOk, length, option_map, pos};
ghost use Rattle.dyadic.specs.Calls.{power_of_two};
ghost use Rattle.dyadic.specs.Rounding.{finite};
ghost use Rattle.dyadic.specs.Views.{dyadic_of, ext_of};
ghost use Rattle.cert_model.specs.Least.{lower_end};
ghost use Rattle.least_search.specs.Limits.{IsNextLimit, IsTried, bits_at, closing_target, half_target, is_between, lesser_ext, limit_at, multiple_up, neighbour, span_in, target, tries, with_steps};

use dyadic::{Dy, Ext, add_down, add_up, at_most, mid, pow2, two_to_minus};
use goal_limit::limited;
use poly_graph::Problem;
use std::alloc::{AllocError, Global};

/// What the next search is for, which tells where its limit lies.
#[derive(Clone, Copy)]
pub(crate) enum Phase {
    /// A better point or a better lower bound, for a small budget: half way between the best value and the lower bound, or the
    /// last limit at which such a search decided nothing.
    Probing,
    /// That the bounds are near: below the upper one by the gap.
    Closing,
    /// A better point or a better lower bound, for all that is left: half way between the bounds.
    Halving,
}

/// A problem with the limit that its goal is at most `limit`, a multiple of `2^-bits`.
#[derive(Drop)]
pub(crate) struct Limited {
    pub problem: Problem,
    pub bits: u32,
    pub limit: Dy,
}

/// Between which values of the goal the next limit lies, and how near to each other they shall come: within `2^-gap_bits`.
#[derive(Clone, Copy)]
pub(crate) struct Between {
    pub lower: Option<Dy>,
    pub upper: Ext,
    pub gap_bits: u32,
}

// For each number of bits so many multiples next to each other are tried.
const NEIGHBOURS: u32 = 16;

// So many limits are tried, since one may have a constant that the problem has already.
const TRIES: u32 = 4 * NEIGHBOURS;

// ---- near which number

// Below the upper bound by the gap.
fn closing_target(between: Between) -> Ext
    requires { between.gap_bits ≤ 30 }
    ensures { ext_of result ≡ closing_target (span_in between) }
{
    let gap = Ext::Fin(two_to_minus(between.gap_bits));
    add_down(between.upper, gap.neg())
}

// The lesser of two ends.
fn lesser(a: Ext, b: Ext) -> Ext
    ensures { ext_of result ≡ lesser_ext (ext_of a) (ext_of b) }
{
    if at_most(a, b) { a } else { b }
}

// Half way between the bounds, where both are numbers and that is less.
fn half_target(lower: Option<Dy>, upper: Ext, closing: Ext) -> Ext
    ensures { ext_of result
        ≡ half_target (option_map dyadic_of lower) (ext_of upper) (ext_of closing) }
{
    match (lower, upper) {
        (Some(lower), Ext::Fin(upper)) => lesser(Ext::Fin(mid(lower, upper)), closing),
        _ => closing,
    }
}

fn target(phase: Phase, between: Between) -> Ext
    requires { between.gap_bits ≤ 30 }
    ensures { ext_of result ≡ target phase (span_in between) }
{
    let closing = closing_target(between);
    match phase {
        Phase::Closing => closing,
        Phase::Probing | Phase::Halving => half_target(between.lower, between.upper, closing),
    }
}

// ---- the limits that are tried

// 2 to the power of `exponent`.
fn power(exponent: u32) -> Ext
    requires { exponent ≤ 61 }
    ensures { ext_of result ≡ finite (power_of_two (pos exponent)) }
{
    Ext::Fin(pow2(exponent as i32))
}

// Up to a multiple of `2^-bits`: numbers have 62 bits, so the sum with numbers that are so far above is rounded to one.
fn multiple_up(bits: u32, number: Ext) -> Ext
    requires { bits ≤ 60 }
    ensures { ext_of result ≡ multiple_up bits (ext_of number) }
{
    let far = power(61 - bits);
    let half = power(60 - bits);
    let sum = add_up(add_up(number, far), half);
    add_down(add_down(sum, far.neg()), half.neg())
}

// The end and so many steps.
fn with_steps(end: Ext, step: Dy, count: u32) -> Ext
    ensures { ext_of result ≡ with_steps (ext_of end) (finite (dyadic_of step)) count }
{
    let mut there = end;
    for _ in 0..count {
        there = add_down(there, Ext::Fin(step));
    }
    there
}

// A neighbour of a multiple of `2^-bits`: the multiple itself, then in turn one above it and one below it, ever farther.
fn neighbour(bits: u32, multiple: Ext, number: u32) -> Ext
    requires bits { bits ≤ 120 }
    requires number { number < 16 }
    ensures { ext_of result ≡ neighbour bits (ext_of multiple) number }
{
    let step = two_to_minus(bits);
    if number % 2 == 0 {
        with_steps(multiple, step.neg(), number / 2)
    } else {
        with_steps(multiple, step, number / 2 + 1)
    }
}

// The limit of this try: the target rounded up, or one of its neighbours.
fn limit_at(phase: Phase, between: Between, bits: u32, attempt: u32) -> Ext
    requires gap { between.gap_bits ≤ 30 }
    requires bits { bits ≡ bits_at (span_in between) attempt }
    requires attempt { attempt < tries }
    ensures { ext_of result ≡ limit_at phase (span_in between) attempt }
{
    let first = multiple_up(bits, target(phase, between));
    neighbour(bits, first, attempt % NEIGHBOURS)
}

// ---- which of them can be one

// A lower bound as an end.
fn lower_end(lower: Option<Dy>) -> Ext
    ensures { ext_of result ≡ lower_end (option_map dyadic_of lower) }
{
    match lower {
        Some(lower) => Ext::Fin(lower),
        None => Ext::NegInf,
    }
}

// Whether the limit is above the lower bound and below the upper one.
fn is_between(between: Between, limit: Ext) -> bool
    ensures { result ≡ is_between (span_in between) (ext_of limit) }
{
    !at_most(limit, lower_end(between.lower)) && !at_most(between.upper, limit)
}

// The problem with the limit of this try; none where that is no number between the bounds, or not taken.
fn try_limit(
    alloc: Global,
    problem: &Problem,
    goal: u32,
    phase: Phase,
    between: Between,
    attempt: u32,
) -> Result<Option<Limited>, AllocError>
    requires goal { goal < length problem.now.atoms }
    requires gap { between.gap_bits ≤ 30 }
    requires attempt { attempt < tries }
    ensures { IfOk result (IsTried problem.now goal phase (span_in between) attempt) }
{
    let bits = between.gap_bits + 2 + attempt / NEIGHBOURS;
    let end = limit_at(phase, between, bits, attempt);
    let limit = match end {
        Ext::Fin(limit) => limit,
        Ext::NegInf | Ext::PosInf => return Ok(None),
    };
    if !is_between(between, end) {
        return Ok(None);
    }
    match limited(alloc, problem, goal, bits, limit)? {
        Some(problem) => Ok(Some(Limited {
            problem,
            bits,
            limit,
        })),
        None => Ok(None),
    }
}

/// The problem with the next limit, that of the first try that gives one; none where no try does.
pub(crate) fn next_limit(
    alloc: Global,
    problem: &Problem,
    goal: u32,
    phase: Phase,
    between: Between,
) -> Result<Option<Limited>, AllocError>
    requires goal { goal < length problem.now.atoms }
    requires gap { between.gap_bits ≤ 30 }
    ensures { IfOk result (IsNextLimit problem.now goal phase (span_in between)) }
{
    for attempt in 0..TRIES {
        if let Some(limited) = try_limit(alloc, problem, goal, phase, between, attempt)? {
            return Ok(Some(limited));
        }
    }
    Ok(None)
}
