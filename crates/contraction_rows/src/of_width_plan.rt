// The plans of scripts, computed by hand.
use problem_build::read_problem;
use std::alloc::Global;
use std::test::Fail;
use width_plan::{Plan, plan_widths};

// A script, delta's and margin's bits, the size of constants without a bound of their own, and its plan.
struct Row {
    script: &'static str,
    bits: (u32, u32),
    bound: Option<u32>,
    plan: Plan,
}

// With delta 2^-10 the square's width is 2 * 1 * 2^-W and what rounding adds: 2^-11 is below delta minus margin, and 2^-10 is not.
const SQUARE: &str = "(declare-const x Real)
(assert (<= 0 x 1))
(assert (= (* x x) (- 1)))
(check-sat)";

// The square's enclosure is unbounded above.
const UNBOUNDED: &str = "(declare-const x Real)
(assert (<= 0 x 1267650600228229401496703205376))
(assert (>= (* x x) 1))
(check-sat)";

// The first atom is a variable; the second one's size alone is more than delta times 2^60.
const SECOND: &str = "(declare-const x Real)
(declare-const y Real)
(assert (or (<= x 0) (>= (* y y) 1)))
(check-sat)";

// The variable's width is 2^-32 where delta less margin is 2^-31, but below 2^32 the numbers stand 2^-30 apart.
const FAR: &str = "(declare-const b Bool)
(declare-const y Real)
(assert (or b (<= y 0)))
(check-sat)";

const CROSSED: &str = "(declare-const x Real)
(assert (<= 1 x 0))
(assert (= (* x x) (- 1)))
(check-sat)";

const ROWS: [Row; 7] = [
    Row {
        script: "(check-sat)",
        bits: (10, 20),
        bound: None,
        plan: Plan::Least(0),
    },
    Row {
        script: SQUARE,
        bits: (10, 20),
        bound: None,
        plan: Plan::Least(12),
    },
    Row {
        script: SQUARE,
        bits: (10, 11),
        bound: None,
        plan: Plan::Least(13),
    },
    Row {
        script: UNBOUNDED,
        bits: (10, 20),
        bound: None,
        plan: Plan::NoAtom(0),
    },
    Row {
        script: SECOND,
        bits: (10, 20),
        bound: Some(4294967295),
        plan: Plan::NoAtom(1),
    },
    Row {
        script: FAR,
        bits: (30, 31),
        bound: Some(4294967295),
        plan: Plan::NoAxis(1),
    },
    Row {
        script: CROSSED,
        bits: (10, 20),
        bound: None,
        plan: Plan::Least(0),
    },
];

// The plan of a row's script.
fn planned(alloc: Global, row: &Row) -> Option<Plan> {
    let (delta_bits, margin_bits) = row.bits;
    if delta_bits >= margin_bits || margin_bits > 60 {
        return None;
    }
    let problem = read_problem(alloc, row.script.as_bytes(), row.bound).ok()?;
    plan_widths(alloc, &problem, delta_bits, margin_bits).ok()
}

#[test]
fn plans_are_as_by_hand(rt: HostRuntime) -> Result<(), Fail> {
    for row in &ROWS {
        assert_eq!(rt; planned(rt.alloc(), row), Some(row.plan));
    }
    Ok(())
}
