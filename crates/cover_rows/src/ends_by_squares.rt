// Patches that squares end, in version 5: what each answers to lines that are given one after the other.
use crate::cases::{Case, Wanted, all_hold, all_hold_raised};
use crate::patches::{
    Answer, DONE, ENDED, NOT_COMBINABLE, NOT_FALSE, TOO_LONG, begun_at, book_of, state_of,
};
use cover_line::{Block, Factor};
use dyadic::{Dy, pow2};
use std::alloc::Global;

// (x - y)^2 + 1 <= 0

const APART: &str = "(declare-const x Real)
(declare-const y Real)
(assert (<= (- 1) x 1))
(assert (<= (- 1) y 1))
(assert (<= (+ (* x x) (* (- 2) x y) (* y y) 1) 0))
(check-sat)";

// (1 - x^2) (x - y)^2 + 1/2 <= 0

const WITHIN: &str = "(declare-const x Real)
(declare-const y Real)
(assert (<= (- 1) x 1))
(assert (<= (- 1) y 1))
(assert (<= (+ (* (- 1 (* x x)) (- x y) (- x y)) (/ 1 2)) 0))
(check-sat)";

// x^2 + 1 <= z and 2 x y - y^2 >= z, whose difference is (x - y)^2 + 1

const TWO: &str = "(declare-const x Real)
(declare-const y Real)
(declare-const z Real)
(assert (<= (- 1) x 1))
(assert (<= (- 1) y 1))
(assert (<= 0 z 2))
(assert (<= (- (+ (* x x) 1) z) 0))
(assert (>= (- (* 2 x y) (* y y) z) 0))
(check-sat)";

// (x - y)^2 + 1 is at least 0, or 0, or b is true

const EITHER: &str = "(declare-const x Real)
(declare-const y Real)
(declare-const b Bool)
(assert (<= (- 1) x 1))
(assert (<= (- 1) y 1))
(assert (or (>= (+ (* x x) (* (- 2) x y) (* y y) 1) 0) b))
(assert (or (= (+ (* x x) (* (- 2) x y) (* y y) 1) 0) b))
(check-sat)";

const CASES: &[Case] = &[
    // each refusal, and then the end
    Case {
        script: APART,
        least_bits: 20,
        quotes: false,
        state: &["real -1b0 1b0", "real -1b0 1b0", "yes 0"],
        lines: &[
            ("voidpos 1 4 1b0 0 2 1 0 1 1 1b0 -1b0 0", NOT_COMBINABLE),
            ("unit 4", DONE),
            ("voidpos 0", NOT_COMBINABLE),
            ("voidpos 1 4 0 0 2 1 0 1 1 1b0 -1b0 0", NOT_COMBINABLE),
            (
                "voidpos 2 4 1b0 0 1b0 0 2 1 0 1 1 1b0 -1b0 0",
                NOT_COMBINABLE,
            ),
            ("voidpos 1 9 1b0 0 2 1 0 1 1 1b0 -1b0 0", NOT_COMBINABLE),
            ("voidcomb 4 1b0", NOT_FALSE),
            ("voidpos 1 4 1b0", NOT_FALSE),
            ("voidpos 1 0 1b0 0 2 1 0 1 1 1b0 -1b0 0", NOT_FALSE),
            ("voidpos 1 4 1b0 0 2 1 0 1 1 1b0 1b0 0", NOT_FALSE),
            ("voidpos 1 4 1b0 1 0 2 1 0 1 1 1b0 -1b0 0", NOT_FALSE),
            ("voidpos 1 4 1b0 0 2 1 0 1 1 1b0 -1b0 0 0 0", NOT_FALSE),
            (
                "voidpos 1 4 1b0 0 2 1 0 1 1 1b0 -1b0 0 0 1 1 2 0",
                NOT_FALSE,
            ),
            ("voidpos 1 4 1b0 0 2 1 0 1 1 1b0 -1b0 0", DONE),
            ("voidpos 1 4 1b0 0 2 1 0 1 1 1b0 -1b0 0", ENDED),
        ],
        wanted: Wanted::Closed(&["unit 4"], "voidpos 1 4 1b0 0 2 1 0 1 1 1b0 -1b0 0"),
    },
    // times the bound of x
    Case {
        script: WITHIN,
        least_bits: 20,
        quotes: false,
        state: &["real -1b0 1b0", "real -1b0 1b0", "yes 4"],
        lines: &[
            ("voidpos 1 4 1b0 0 2 1 0 1 1 1b0 -1b0 0", NOT_FALSE),
            ("voidpos 1 4 1b0 1 1 2 1 0 1 1 1b0 -1b0 0", NOT_FALSE),
            ("voidpos 1 4 1b0 1 0 2 1 0 1 1 1b0 -1b0 0", DONE),
        ],
        wanted: Wanted::Closed(&[], "voidpos 1 4 1b0 1 0 2 1 0 1 1 1b0 -1b0 0"),
    },
    Case {
        script: TWO,
        least_bits: 20,
        quotes: false,
        state: &["real -1b0 1b0", "real -1b0 1b0", "real 0 1b1", "yes 6 7"],
        lines: &[
            (
                "voidpos 2 7 -1b0 6 1b0 0 2 1 0 1 1 1b0 -1b0 0",
                NOT_COMBINABLE,
            ),
            ("voidpos 2 6 1b0 7 1b0 0 2 1 0 1 1 1b0 -1b0 0", NOT_FALSE),
            ("voidpos 2 6 1b0 7 -1b0 0 2 1 0 1 1 1b0 -1b0 0", DONE),
        ],
        wanted: Wanted::Closed(&[], "voidpos 2 6 1b0 7 -1b0 0 2 1 0 1 1 1b0 -1b0 0"),
    },
    // an atom that fails
    Case {
        script: EITHER,
        least_bits: 20,
        quotes: false,
        state: &["real -1b0 1b0", "real -1b0 1b0", "bool both", "no 4"],
        lines: &[("voidpos 1 4 1b0 0 2 1 0 1 1 1b0 -1b0 0", DONE)],
        wanted: Wanted::Closed(&[], "voidpos 1 4 1b0 0 2 1 0 1 1 1b0 -1b0 0"),
    },
    // an equation that holds, and one that fails
    Case {
        script: EITHER,
        least_bits: 20,
        quotes: false,
        state: &["real -1b0 1b0", "real -1b0 1b0", "bool both", "yes 5"],
        lines: &[("voidpos 1 5 1b0 0 2 1 0 1 1 1b0 -1b0 0", DONE)],
        wanted: Wanted::Closed(&[], "voidpos 1 5 1b0 0 2 1 0 1 1 1b0 -1b0 0"),
    },
    Case {
        script: EITHER,
        least_bits: 20,
        quotes: false,
        state: &["real -1b0 1b0", "real -1b0 1b0", "bool both", "no 5"],
        lines: &[("voidpos 1 5 1b0 0 2 1 0 1 1 1b0 -1b0 0", NOT_COMBINABLE)],
        wanted: Wanted::Reached(&["real -1b0 1b0", "real -1b0 1b0", "bool both", "no 5"]),
    },
];

#[test]
fn squares_close(rt: HostRuntime) {
    assert!(rt; all_hold_raised(rt.alloc(), CASES));
}

const VERSION_2_CASES: &[Case] = &[Case {
    script: APART,
    least_bits: 20,
    quotes: false,
    state: &["real -1b0 1b0", "real -1b0 1b0", "yes 4"],
    lines: &[("voidpos 1 4 1b0 0 2 1 0 1 1 1b0 -1b0 0", NOT_COMBINABLE)],
    wanted: Wanted::Reached(&["real -1b0 1b0", "real -1b0 1b0", "yes 4"]),
}];

#[test]
fn no_squares_close_in_version_2(rt: HostRuntime) {
    assert!(rt; all_hold(rt.alloc(), VERSION_2_CASES));
}

// ---- how many numbers a line has

// Atom 4, and the square of a power of x.
fn power(alloc: Global, exponent: usize) -> Option<(Vec<(u32, Dy)>, Vec<Block>)> {
    let mut axes = Vec::new(alloc);
    for _ in 0..exponent {
        axes.push(0).ok()?;
    }
    let block = Block {
        factor: Factor::One,
        monomials: vec![in alloc; axes].ok()?,
        rows: vec![in alloc; vec![in alloc; pow2(0)].ok()?].ok()?,
    };
    Some((
        vec![in alloc; (4, pow2(0))].ok()?,
        vec![in alloc; block].ok()?,
    ))
}

// What a patch that begins with atom 4 marked yes answers to it.
fn answer_to_power(alloc: Global, exponent: usize) -> Option<Answer> {
    let mut book = book_of(alloc, APART, 20, 0)?;
    book.raise();
    let state = state_of(alloc, 5, &["real -1b0 1b0", "real -1b0 1b0", "yes 4"])?;
    let mut patch = begun_at(alloc, &book, state)?;
    let (pairs, blocks) = power(alloc, exponent)?;
    Some(patch.squares(pairs, blocks))
}

// K, the pair, three for the block, one more for the monomial, and its coefficient are 8 numbers.
#[test]
fn lines_of_squares_have_limits(rt: HostRuntime) {
    assert_eq!(rt; answer_to_power(rt.alloc(), 7_992), Some(NOT_FALSE));
    assert_eq!(rt; answer_to_power(rt.alloc(), 7_993), Some(TOO_LONG));
}
