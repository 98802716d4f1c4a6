// The constants of a limit.
ghost use Rattle.std.specs.Prelude.{◌≡◌, ◌*◌, ◌-◌, ◌^◌, ◌<◌, ◌≤◌, ◌∷◌, false, true, not, ◌&&◌, nat_abs, MatchOption};
ghost use Rattle.dyadic.specs.Fraction.{whole};
ghost use Rattle.dyadic.specs.Signed.{signed_of};
ghost use Rattle.dyadic.specs.Views.{units_of, dyadic_of, fraction_of_frac};
ghost use Rattle.poly_graph.specs.Term.{constant_node};
ghost use Rattle.poly_graph.specs.ProblemViews.{problem_of};
ghost use Rattle.poly_graph.specs.Views.{node_of};
ghost use Rattle.cert_model.specs.Limited.{scale_of, offset_of, is_constant, has_constant, is_limit};
ghost use Rattle.goal_limit.specs.Made.{IsCount, is_multiple, AreConstants};

use dyadic::{Dy, Frac};
use poly_graph::{Graph, Node, Problem};

/// What the goal is multiplied by, and what is added to it then.
#[derive(Clone, Copy)]
pub(crate) struct Constants {
    pub scale: Frac,
    pub offset: Frac,
}

// 10^36
const MOST: u128 = 1_000_000_000_000_000_000_000_000_000_000_000_000;

// `size * 2^up`, if it is small.
fn raised(size: u64, up: u32) -> Option<u128>
    requires some { 0 < size }
    requires few { size < 2 ^ 62 }
    ensures { IsCount (size * 2 ^ up) 1 result }
{
    if up >= 120 {
        return None;
    }
    let size = u128::from(size);
    if size <= MOST >> up {
        Some(size << up)
    } else {
        None
    }
}

// `size / 2^down`, if it is whole.
fn lowered(size: u64, down: u32) -> Option<u128>
    requires short { down ≤ 120 }
    requires few { size < 2 ^ 62 }
    ensures { IsCount size (2 ^ down) result }
{
    let count = u128::from(size) >> down;
    if count << down == u128::from(size) {
        Some(count)
    } else {
        None
    }
}

// How many steps of 2^-bits the size of the limit is, if it is so many.
fn count(bits: u32, limit: Dy) -> Option<u128>
    requires { bits ≤ 119 }
    ensures { IsCount (nat_abs (units_of limit)) (2 ^ (120 - bits)) result }
{
    let size = limit.mantissa().unsigned_abs();
    let step = 120 - bits;
    if limit.shift < step {
        lowered(size, step - limit.shift)
    } else {
        raised(size, limit.shift - step)
    }
}

// The number of this sign and size.
fn with_sign(negative: bool, size: u128) -> i128
    requires { size ≤ 10 ^ 36 }
    ensures { result ≡ signed_of negative size }
{
    if negative {
        -(size as i128)
    } else {
        size as i128
    }
}

// The whole number as a fraction.
fn whole(n: i128) -> Frac
    requires { nat_abs n ≤ 10 ^ 36 }
    ensures { fraction_of_frac result ≡ whole n }
{
    Frac { n, d: 1 }
}

// 2^bits
#[tactic(auto, using(crate::proofs::Counts::small_power))]
fn scale(bits: u32) -> Frac
    requires { bits ≤ 119 }
    ensures { fraction_of_frac result ≡ scale_of bits }
{
    whole(1 << bits)
}

// What is added to the goal, if the limit can be one in these bits.
fn offset(bits: u32, limit: Dy) -> Option<Frac>
    requires { bits ≤ 119 }
    ensures { MatchOption result (is_multiple bits (dyadic_of limit) ≡ false) (λ f.
        (is_multiple bits (dyadic_of limit) ≡ true) ×
        (fraction_of_frac f ≡ offset_of bits (dyadic_of limit))) }
{
    match count(bits, limit) {
        Some(n) => Some(whole(with_sign(!limit.is_negative(), n))),
        None => None,
    }
}

// Whether the node is this constant.
fn is_constant(value: Frac, node: Node) -> bool
    ensures { result ≡ is_constant (fraction_of_frac value) (node_of node) }
{
    match node {
        Node::Const(v) => value.n == v.n && value.d.unsigned_abs() == v.d.unsigned_abs(),
        _ => false,
    }
}

// Whether a node is this constant.
#[tactic(auto, using(crate::proofs::Walks::constant_found, crate::proofs::Walks::constant_passed))]
fn has_constant(graph: &Graph, value: Frac) -> bool
    ensures { result ≡ has_constant graph.now (fraction_of_frac value) }
{
    for k in 0..graph.len() {
        if is_constant(value, graph.node(k as u32)) {
            return true;
        }
    }
    false
}

// Whether both constants are new.
fn are_new(graph: &Graph, constants: Constants) -> bool
    ensures { result ≡ (not (has_constant graph.now (fraction_of_frac constants.scale)) &&
        not (has_constant (constant_node (fraction_of_frac constants.scale) ∷ graph.now)
        (fraction_of_frac constants.offset))) }
{
    !has_constant(graph, constants.scale)
        && !(is_constant(constants.offset, Node::Const(constants.scale))
            || has_constant(graph, constants.offset))
}

/// The constants of the limit, if it can be one in these bits.
pub(crate) fn constants_of(problem: &Problem, bits: u32, limit: Dy) -> Option<Constants>
    ensures { MatchOption result
        (is_limit (problem_of problem.now) bits (dyadic_of limit) ≡ false)
        (λ c. AreConstants problem.now bits (dyadic_of limit)
        (fraction_of_frac c.scale) (fraction_of_frac c.offset)) }
{
    if bits > 119 {
        return None;
    }
    let constants = Constants {
        scale: scale(bits),
        offset: offset(bits, limit)?,
    };
    if are_new(problem.graph(), constants) {
        Some(constants)
    } else {
        None
    }
}
