// Patches that are parted by two groups of atoms: what each answers to lines that are given one after the other.
use crate::cases::{Case, Wanted, all_hold, all_hold_raised};
use crate::patches::{DECIDED, DONE, ENDED, NOT_FORCED, NOT_GROUPS, NOT_HONEST};

// z is the greater of p and 0: p >= 0 (4) and z = p (5), or p <= 0 (6) and z = 0 (7)

const GREATER: &str = "(declare-const p Real)
(declare-const z Real)
(assert (<= (- 1) p 1))
(assert (<= 0 z 1))
(assert (or (and (>= p 0) (= z p)) (and (<= p 0) (= z 0))))
(check-sat)";

const CASES: &[Case] = &[
    // each refusal, and then the end
    Case {
        script: GREATER,
        least_bits: 20,
        quotes: false,
        state: &["real -1b0 1b0", "real 0 1b0"],
        lines: &[
            ("either 0 4 5", NOT_GROUPS),
            ("either 2 4 5", NOT_GROUPS),
            ("either 2 5 4 6 7", NOT_GROUPS),
            ("either 2 4 5 7 6", NOT_GROUPS),
            ("either 2 4 4 6 7", NOT_GROUPS),
            ("either 2 4 5 6 9", DECIDED),
            ("either 2 4 5 6 7", NOT_HONEST),
            ("unit 0", DONE),
            ("either 2 0 4 6 7", DECIDED),
            ("either 1 4 5", NOT_FORCED),
            ("either 2 4 6 5 7", NOT_FORCED),
            ("unit 1", DONE),
            ("unit 2", DONE),
            ("unit 3", DONE),
            ("either 2 4 5 6 7", DONE),
            ("either 2 4 5 6 7", ENDED),
        ],
        wanted: Wanted::Parted(
            &["real -1b0 1b0", "real 0 1b0", "yes 0 1 2 3 4 5"],
            &["real -1b0 1b0", "real 0 1b0", "yes 0 1 2 3 6 7"],
        ),
    },
    // a part of the first group
    Case {
        script: GREATER,
        least_bits: 20,
        quotes: false,
        state: &["real -1b0 1b0", "real 0 1b0", "yes 0 1 2 3"],
        lines: &[("either 1 5 6 7", DONE)],
        wanted: Wanted::Parted(
            &["real -1b0 1b0", "real 0 1b0", "yes 0 1 2 3 5"],
            &["real -1b0 1b0", "real 0 1b0", "yes 0 1 2 3 6 7"],
        ),
    },
    // p >= 0 misses its range
    Case {
        script: GREATER,
        least_bits: 20,
        quotes: false,
        state: &["real -1b0 -1b-1", "real 0 1b0", "yes 0 1 2 3"],
        lines: &[("either 2 4 5 6 7", NOT_HONEST), ("unit 6", DONE)],
        wanted: Wanted::Reached(&["real -1b0 -1b-1", "real 0 1b0", "yes 0 1 2 3 6"]),
    },
];

// Before version 5 there are none.
const EARLIER: &[Case] = &[Case {
    script: GREATER,
    least_bits: 20,
    quotes: false,
    state: &["real -1b0 1b0", "real 0 1b0", "yes 0 1 2 3"],
    lines: &[("either 2 4 5 6 7", NOT_GROUPS), ("case 5", DONE)],
    wanted: Wanted::Parted(
        &["real -1b0 1b0", "real 0 1b0", "yes 0 1 2 3 5"],
        &["real -1b0 1b0", "real 0 1b0", "yes 0 1 2 3", "no 5"],
    ),
}];

#[test]
fn groups_part_a_state(rt: HostRuntime) {
    assert!(rt; all_hold_raised(rt.alloc(), CASES));
}

#[test]
fn no_groups_before_version_5(rt: HostRuntime) {
    assert!(rt; all_hold(rt.alloc(), EARLIER));
}
