// Patches for scripts: what each answers to lines that are given one after the other, and how it ends.
ghost use Rattle.std.specs.Prelude.{IfSome};
ghost use Rattle.cover_model.specs.Fits.{FitsProblem};
ghost use Rattle.cover_model.specs.State.{IsLemma};
ghost use Rattle.cover_book.specs.Model.{problem_in, loosenings_in};

use crate::patches::{
    Answer, DECIDED, DONE, ENDED, IS_VOID, NOT_COMBINABLE, NOT_COVERED, NOT_FALSE, NOT_FORCED,
    NOT_HONEST, NOT_INSIDE, NOT_NO, NOT_STUCK, NOT_YES, are_kept, book_of, is_state, leaves, led,
    outside_lemma, state_of,
};
use cover_book::Book;
use cover_rule::{KeptPatch, Lemma, Patch};
use sample_problems::scripts::{BOOL, CIRCLE, OUTSIDE, SWAPPED};
use std::alloc::Global;

// x^2 - x + 1 <= 0 from 0 to 1

pub(crate) const PARABOLA: &str = "(declare-const x Real)
(assert (<= 0 x 1))
(assert (<= (+ (- (* x x) x) 1) 0))
(check-sat)";

// x + y >= 3, x - y >= 1 and x <= 3/2, which is no bound of x as it is written

pub(crate) const LINES: &str = "(declare-const x Real)
(declare-const y Real)
(assert (<= 0 x 4))
(assert (<= 0 y 4))
(assert (>= (+ x y) 3))
(assert (>= (- x y) 1))
(assert (<= (- x (/ 3 2)) 0))
(check-sat)";

// x + y = 1 and x = y

pub(crate) const EVEN: &str = "(declare-const x Real)
(declare-const y Real)
(assert (<= 0 x 1))
(assert (<= 0 y 1))
(assert (= (+ x y) 1))
(assert (= x y))
(check-sat)";

// x^8 >= 1, where the power is greater than any number of the grid

pub(crate) const GREAT: &str = "(declare-const x Real)
(assert (<= 0 x 4294967296))
(assert (>= (* (* (* x x) (* x x)) (* (* x x) (* x x))) 1))
(check-sat)";

// How a patch ends.
pub(crate) enum Wanted {
    // Closed by these steps and this end.
    Closed(&'static [&'static str], &'static str),
    // Parted into these two states.
    Parted(&'static [&'static str], &'static [&'static str]),
    // Not closed, in this state.
    Reached(&'static [&'static str]),
}

// A patch for a script: the least width, whether the lemma of the whole interval may be quoted, the state in which it
// begins, each line with what it answers, and how it ends.
pub(crate) struct Case {
    pub(crate) script: &'static str,
    pub(crate) least_bits: u32,
    pub(crate) quotes: bool,
    pub(crate) state: &'static [&'static str],
    pub(crate) lines: &'static [(&'static str, Answer)],
    pub(crate) wanted: Wanted,
}

// Whether what closes a state is what is wanted.
fn is_closed_so(alloc: Global, kept: &KeptPatch, wanted: &Wanted) -> bool {
    match wanted {
        Wanted::Closed(steps, end) => are_kept(alloc, kept, steps, end),
        _ => false,
    }
}

// Whether a patch that does not close its state ends as is wanted.
fn is_left_so(alloc: Global, patch: Patch<'_>, wanted: &Wanted) -> bool {
    match wanted {
        Wanted::Parted(lower, upper) => leaves(alloc, patch, lower, upper),
        Wanted::Reached(state) => is_state(alloc, patch.reached(), state),
        Wanted::Closed(_, _) => false,
    }
}

fn ends_so(alloc: Global, patch: Patch<'_>, wanted: &Wanted) -> bool {
    match patch.closed() {
        Ok(closed) => is_closed_so(alloc, closed.kept(), wanted),
        Err(patch) => is_left_so(alloc, patch, wanted),
    }
}

// Whether the patch of the case answers and ends so, where the lemma may be quoted.
fn holds_by(alloc: Global, book: &Book, lemma: Option<&Lemma>, case: &Case) -> bool
    requires fits { IfSome lemma (λ l. FitsProblem (problem_in book.now) l.now.state) }
    requires lemma { IfSome lemma (λ l.
        IsLemma (problem_in book.now) (loosenings_in book.now) l.now.state) }
{
    let atoms = book.problem().atoms().len();
    let Some(state) = state_of(alloc, atoms, case.state) else {
        return false;
    };
    match led(alloc, book, lemma, state, case.lines) {
        Some(patch) => ends_so(alloc, patch, &case.wanted),
        None => false,
    }
}

fn holds_in(alloc: Global, book: &Book, case: &Case) -> bool {
    if !case.quotes {
        return holds_by(alloc, book, None, case);
    }
    match outside_lemma(alloc, book, 0) {
        Some(lemma) => holds_by(alloc, book, Some(&lemma), case),
        None => false,
    }
}

// Whether the case holds in the script's book.
fn holds(alloc: Global, case: &Case) -> bool {
    if case.least_bits > 60 {
        return false;
    }
    match book_of(alloc, case.script, case.least_bits, 0) {
        Some(book) => holds_in(alloc, &book, case),
        None => false,
    }
}

// The same where the book has gone over to version 5.
fn holds_raised(alloc: Global, case: &Case) -> bool {
    if case.least_bits > 60 {
        return false;
    }
    match book_of(alloc, case.script, case.least_bits, 0) {
        Some(mut book) => {
            book.raise();
            holds_in(alloc, &book, case)
        }
        None => false,
    }
}

pub(crate) fn all_hold(alloc: Global, cases: &[Case]) -> bool {
    for case in cases {
        if !holds(alloc, case) {
            return false;
        }
    }
    true
}

pub(crate) fn all_hold_raised(alloc: Global, cases: &[Case]) -> bool {
    for case in cases {
        if !holds_raised(alloc, case) {
            return false;
        }
    }
    true
}

// ---- x^2 + y^2 = 1 and x * y = 1: the widest axis is cut, and each part is closed

const CIRCLE_CASES: &[Case] = &[
    Case {
        script: CIRCLE,
        least_bits: 20,
        quotes: false,
        state: &["real 0 1b1", "real 0 1b1"],
        lines: &[
            ("cut 0 1b0", NOT_HONEST),
            ("unit 0", DONE),
            ("unit 1", DONE),
            ("unit 2", DONE),
            ("unit 3", DONE),
            ("unit 4", DONE),
            ("cut 0 1b0", NOT_HONEST),
            ("unit 5", DONE),
            ("cut 0 1b0", DONE),
        ],
        wanted: Wanted::Parted(
            &["real 0 1b0", "real 0 1b1", "yes 0 1 2 3 4 5"],
            &["real 1b0 1b1", "real 0 1b1", "yes 0 1 2 3 4 5"],
        ),
    },
    Case {
        script: CIRCLE,
        least_bits: 20,
        quotes: false,
        state: &["real 0 1b0", "real 0 1b1", "yes 0 1 2 3 4 5"],
        lines: &[
            ("cut 0 1b-1", NOT_HONEST),
            ("cut 2 1b-1", NOT_INSIDE),
            ("cut 1 1b0", DONE),
        ],
        wanted: Wanted::Parted(
            &["real 0 1b0", "real 0 1b0", "yes 0 1 2 3 4 5"],
            &["real 0 1b0", "real 1b0 1b1", "yes 0 1 2 3 4 5"],
        ),
    },
    Case {
        script: CIRCLE,
        least_bits: 20,
        quotes: false,
        state: &["real 0 1b0", "real 0 1b0"],
        lines: &[("unit 5", DONE), ("pull 5", DONE)],
        wanted: Wanted::Reached(&["real 1048575b-20 1b0", "real 1048575b-20 1b0", "yes 5"]),
    },
    Case {
        script: CIRCLE,
        least_bits: 20,
        quotes: false,
        state: &["real 0 1b0", "real 0 1b0"],
        lines: &[("unit 5", DONE), ("pull 5", DONE), ("false", DONE)],
        wanted: Wanted::Closed(&["unit 5", "pull 5"], "false"),
    },
    Case {
        script: CIRCLE,
        least_bits: 20,
        quotes: false,
        state: &["real 0 1b0", "real 1b0 1b1"],
        lines: &[("unit 4", DONE), ("pull 4", DONE), ("false", DONE)],
        wanted: Wanted::Closed(&["unit 4", "pull 4"], "false"),
    },
    Case {
        script: CIRCLE,
        least_bits: 20,
        quotes: false,
        state: &["real 1b0 1b1", "real 0 1b1"],
        lines: &[("unit 4", DONE), ("pull 4", DONE), ("false", DONE)],
        wanted: Wanted::Closed(&["unit 4", "pull 4"], "false"),
    },
];

#[test]
fn the_widest_axis_is_cut_and_each_part_closed(rt: HostRuntime) {
    assert!(rt; all_hold(rt.alloc(), CIRCLE_CASES));
}

// ---- in version 5 each axis with a side above the least width is cut

const RAISED_CASES: &[Case] = &[
    Case {
        script: CIRCLE,
        least_bits: 20,
        quotes: false,
        state: &["real 0 1b0", "real 0 1b1", "yes 0 1 2 3 4 5"],
        lines: &[("cut 2 1b-1", NOT_INSIDE), ("cut 0 1b-1", DONE)],
        wanted: Wanted::Parted(
            &["real 0 1b-1", "real 0 1b1", "yes 0 1 2 3 4 5"],
            &["real 1b-1 1b0", "real 0 1b1", "yes 0 1 2 3 4 5"],
        ),
    },
    Case {
        script: CIRCLE,
        least_bits: 0,
        quotes: false,
        state: &["real 0 1b0", "real 0 1b1", "yes 0 1 2 3 4 5"],
        lines: &[("cut 0 1b-1", NOT_HONEST), ("cut 1 1b0", DONE)],
        wanted: Wanted::Parted(
            &["real 0 1b0", "real 0 1b0", "yes 0 1 2 3 4 5"],
            &["real 0 1b0", "real 1b0 1b1", "yes 0 1 2 3 4 5"],
        ),
    },
    Case {
        script: CIRCLE,
        least_bits: 20,
        quotes: false,
        state: &["real 1b0 1b0", "real 0 1b1"],
        lines: &[("cut 0 1b0", NOT_INSIDE), ("cut 1 1b0", NOT_HONEST)],
        wanted: Wanted::Reached(&["real 1b0 1b0", "real 0 1b1"]),
    },
];

#[test]
fn each_wide_axis_is_cut_in_version_5(rt: HostRuntime) {
    assert!(rt; all_hold_raised(rt.alloc(), RAISED_CASES));
}

// ---- x * y - y * x = 1/8: what no atom narrows is cut or stuck

const SWAPPED_CASES: &[Case] = &[
    Case {
        script: SWAPPED,
        least_bits: 20,
        quotes: false,
        state: &["real -1b-1 1b-1", "real -1b-1 1b-1", "yes 0 1 2 3 4"],
        lines: &[("cut 0 0", DONE)],
        wanted: Wanted::Parted(
            &["real -1b-1 0", "real -1b-1 1b-1", "yes 0 1 2 3 4"],
            &["real 0 1b-1", "real -1b-1 1b-1", "yes 0 1 2 3 4"],
        ),
    },
    Case {
        script: SWAPPED,
        least_bits: 20,
        quotes: false,
        state: &["real -1b-1 1b-1", "real -1b-1 1b-1"],
        lines: &[
            ("false", NOT_FALSE),
            ("void 4", NOT_YES),
            ("unit 0", DONE),
            ("unit 1", DONE),
            ("unit 2", DONE),
            ("unit 3", DONE),
            ("unit 4", DONE),
            ("pull 0", DONE),
            ("pull 1", DONE),
            ("pull 2", DONE),
            ("pull 3", DONE),
            ("pull 4", DONE),
            ("void 0", NOT_FALSE),
            ("void 4", NOT_FALSE),
            ("false", NOT_FALSE),
            ("stuck 4", NOT_STUCK),
        ],
        wanted: Wanted::Reached(&["real -1b-1 1b-1", "real -1b-1 1b-1", "yes 0 1 2 3 4"]),
    },
    Case {
        script: SWAPPED,
        least_bits: 0,
        quotes: false,
        state: &["real -1b-1 1b-1", "real -1b-1 1b-1"],
        lines: &[
            ("stuck 4", NOT_HONEST),
            ("unit 0", DONE),
            ("unit 1", DONE),
            ("unit 2", DONE),
            ("unit 3", DONE),
            ("unit 4", DONE),
            ("cut 0 0", NOT_HONEST),
            ("stuck 0", NOT_STUCK),
            ("stuck 3", NOT_STUCK),
            ("stuck 4", DONE),
            ("stuck 4", ENDED),
        ],
        wanted: Wanted::Reached(&["real -1b-1 1b-1", "real -1b-1 1b-1", "yes 0 1 2 3 4"]),
    },
];

#[test]
fn what_no_atom_narrows_is_cut_or_stuck(rt: HostRuntime) {
    assert!(rt; all_hold(rt.alloc(), SWAPPED_CASES));
}

// ---- x^2 = 1/4 and (x >= 3/4 or x <= 1/4): an atom of a choice is parted

const CHOICE_CASES: &[Case] = &[
    Case {
        script: OUTSIDE,
        least_bits: 20,
        quotes: false,
        state: &["real 0 1b0"],
        lines: &[
            ("unit 0", DONE),
            ("unit 1", DONE),
            ("unit 4", DONE),
            ("case 2", DONE),
        ],
        wanted: Wanted::Parted(
            &["real 0 1b0", "yes 0 1 2 4"],
            &["real 0 1b0", "yes 0 1 4", "no 2"],
        ),
    },
    Case {
        script: OUTSIDE,
        least_bits: 20,
        quotes: false,
        state: &["real 0 1b0", "yes 0 1 2 4"],
        lines: &[("void 4", NOT_FALSE), ("pull 2", DONE)],
        wanted: Wanted::Reached(&["real 786431b-20 1b0", "yes 0 1 2 4"]),
    },
    Case {
        script: OUTSIDE,
        least_bits: 20,
        quotes: false,
        state: &["real 0 1b0", "yes 0 1 4", "no 2"],
        lines: &[("unit 2", DECIDED), ("unit 3", DONE), ("pull 3", DONE)],
        wanted: Wanted::Reached(&["real 0 262145b-20", "yes 0 1 3 4", "no 2"]),
    },
    Case {
        script: OUTSIDE,
        least_bits: 20,
        quotes: false,
        state: &["real 0 1b0", "yes 0 1 2 4"],
        lines: &[("pull 2", DONE), ("void 4", DONE)],
        wanted: Wanted::Closed(&["pull 2"], "void 4"),
    },
    Case {
        script: OUTSIDE,
        least_bits: 20,
        quotes: false,
        state: &["real 0 1b0", "yes 0 1 4", "no 2"],
        lines: &[("unit 3", DONE), ("pull 3", DONE), ("void 4", DONE)],
        wanted: Wanted::Closed(&["unit 3", "pull 3"], "void 4"),
    },
];

#[test]
fn an_atom_of_a_choice_is_parted(rt: HostRuntime) {
    assert!(rt; all_hold(rt.alloc(), CHOICE_CASES));
}

// ---- a lemma closes, and a refusal changes nothing

const LEMMA_CASES: &[Case] = &[
    Case {
        script: OUTSIDE,
        least_bits: 20,
        quotes: true,
        state: &["real 0 1b0"],
        lines: &[("by 0", NOT_COVERED), ("unit 4", DONE), ("by 0", DONE)],
        wanted: Wanted::Closed(&["unit 4"], "by 0"),
    },
    Case {
        script: OUTSIDE,
        least_bits: 20,
        quotes: true,
        state: &["real 0 1b0"],
        lines: &[("ban 4 0", DONE), ("false", DONE)],
        wanted: Wanted::Closed(&["ban 4 0"], "false"),
    },
    Case {
        script: OUTSIDE,
        least_bits: 20,
        quotes: true,
        state: &["real 0 1b0"],
        lines: &[
            ("pull 4", NOT_YES),
            ("void 4", NOT_YES),
            ("unit 2", NOT_FORCED),
            ("by 0", NOT_COVERED),
            ("ban 2 0", NOT_COVERED),
            ("false", NOT_FALSE),
            ("flip 0", NOT_INSIDE),
            ("stuck 4", NOT_STUCK),
            ("cut 0 1b-1", NOT_HONEST),
            ("case 2", NOT_HONEST),
            ("unit 4", DONE),
            ("unit 4", DECIDED),
            ("ban 4 0", DECIDED),
            ("case 4", DECIDED),
            ("void 4", NOT_FALSE),
            ("pull 4", DONE),
            ("unit 2", DONE),
            ("pull 2", IS_VOID),
            ("void 2", DONE),
            ("pull 4", ENDED),
            ("unit 3", ENDED),
            ("ban 3 0", ENDED),
            ("void 2", ENDED),
            ("false", ENDED),
            ("by 0", ENDED),
            ("cut 0 1b-1", ENDED),
            ("flip 0", ENDED),
            ("case 3", ENDED),
            ("stuck 3", ENDED),
        ],
        wanted: Wanted::Closed(&["unit 4", "pull 4", "unit 2"], "void 2"),
    },
];

#[test]
fn a_lemma_closes_and_a_refusal_changes_nothing(rt: HostRuntime) {
    assert!(rt; all_hold(rt.alloc(), LEMMA_CASES));
}

// ---- an atom that fails is not at most 1/4: it narrows and closes

const FAILING_CASES: &[Case] = &[
    Case {
        script: OUTSIDE,
        least_bits: 20,
        quotes: false,
        state: &["real 0 1b0", "no 3 4"],
        lines: &[
            ("pull 3", NOT_YES),
            ("push 2", NOT_NO),
            ("push 4", NOT_NO),
            ("voidno 2", NOT_NO),
            ("voidno 4", NOT_NO),
            ("voidno 3", NOT_FALSE),
            ("push 3", DONE),
        ],
        wanted: Wanted::Reached(&["real 262145b-20 1b0", "no 3 4"]),
    },
    Case {
        script: OUTSIDE,
        least_bits: 20,
        quotes: false,
        state: &["real 0 1b-2", "no 3"],
        lines: &[
            ("push 3", IS_VOID),
            ("void 3", NOT_YES),
            ("voidno 3", DONE),
            ("push 3", ENDED),
            ("voidno 3", ENDED),
        ],
        wanted: Wanted::Closed(&[], "voidno 3"),
    },
];

#[test]
fn atoms_that_fail_narrow_and_close(rt: HostRuntime) {
    assert!(rt; all_hold(rt.alloc(), FAILING_CASES));
}

// ---- combinations narrow

const NARROWING_CASES: &[Case] = &[
    // twice x is at least 4, less the loosenings
    Case {
        script: LINES,
        least_bits: 20,
        quotes: false,
        state: &["real 0 1b2", "real 0 1b2", "yes 4 5 6"],
        lines: &[
            ("comb 5 1b0 4 1b0", NOT_COMBINABLE),
            ("comb 4 1b0 4 1b0", NOT_COMBINABLE),
            ("comb 4 0 5 1b0", NOT_COMBINABLE),
            ("comb 0 1b0 4 1b0", NOT_COMBINABLE),
            ("voidcomb 5 1b0 4 1b0", NOT_COMBINABLE),
            ("comb 4 1b0 5 1b0 6 -1b1", IS_VOID),
            ("voidcomb 4 1b0 5 1b0", NOT_FALSE),
            ("comb 4 1b0 5 1b0", DONE),
        ],
        wanted: Wanted::Reached(&["real 2097151b-20 1b2", "real 0 1b2", "yes 4 5 6"]),
    },
    // twice y is at most 2 where the first one fails
    Case {
        script: LINES,
        least_bits: 20,
        quotes: false,
        state: &["real 0 1b2", "real 0 1b2", "yes 5", "no 4"],
        lines: &[
            ("voidcomb 4 1b0 5 -1b0", NOT_FALSE),
            ("comb 4 1b0 5 -1b0", DONE),
        ],
        wanted: Wanted::Reached(&["real 0 1b2", "real 0 1b0", "yes 5", "no 4"]),
    },
    // twice y is 1, and then twice x
    Case {
        script: EVEN,
        least_bits: 20,
        quotes: false,
        state: &["real 0 1b0", "real 0 1b0", "yes 4 5"],
        lines: &[("comb 4 1b0 5 -1b0", DONE), ("comb 4 1b0 5 1b0", DONE)],
        wanted: Wanted::Reached(&[
            "real 524287b-20 524289b-20",
            "real 524287b-20 524289b-20",
            "yes 4 5",
        ]),
    },
    // an equation that fails says nothing
    Case {
        script: EVEN,
        least_bits: 20,
        quotes: false,
        state: &["real 0 1b0", "real 0 1b0", "yes 5", "no 4"],
        lines: &[
            ("comb 4 1b0 5 -1b0", NOT_COMBINABLE),
            ("voidcomb 4 1b0", NOT_COMBINABLE),
        ],
        wanted: Wanted::Reached(&["real 0 1b0", "real 0 1b0", "yes 5", "no 4"]),
    },
    // without bounds there is no use and no harm
    Case {
        script: GREAT,
        least_bits: 20,
        quotes: false,
        state: &["real 0 1b32", "yes 2"],
        lines: &[
            ("voidcomb 2 1b0", NOT_FALSE),
            ("comb 2 1b0", DONE),
            ("comb 2 -1b0", DONE),
        ],
        wanted: Wanted::Reached(&["real 0 1b32", "yes 2"]),
    },
];

#[test]
fn combinations_narrow(rt: HostRuntime) {
    assert!(rt; all_hold(rt.alloc(), NARROWING_CASES));
}

// ---- combinations close

const CLOSING_CASES: &[Case] = &[
    Case {
        script: PARABOLA,
        least_bits: 20,
        quotes: false,
        state: &["real 0 1b0", "yes 0"],
        lines: &[
            ("voidcomb 2 1b0", NOT_COMBINABLE),
            ("unit 2", DONE),
            ("comb 2 1b0", IS_VOID),
            ("voidcomb 0 1b0", NOT_FALSE),
            ("voidcomb 2 1b0", DONE),
            ("comb 0 1b0", ENDED),
            ("voidcomb 2 1b0", ENDED),
        ],
        wanted: Wanted::Closed(&["unit 2"], "voidcomb 2 1b0"),
    },
    Case {
        script: LINES,
        least_bits: 20,
        quotes: false,
        state: &["real 0 1b2", "real 0 1b2", "yes 4 5 6"],
        lines: &[("voidcomb 4 1b0 5 1b0 6 -1b1", DONE)],
        wanted: Wanted::Closed(&[], "voidcomb 4 1b0 5 1b0 6 -1b1"),
    },
    Case {
        script: LINES,
        least_bits: 20,
        quotes: false,
        state: &["real 0 1b2", "real 0 1b2", "yes 4 5 6"],
        lines: &[("comb 4 1b0 5 1b0", DONE), ("void 6", DONE)],
        wanted: Wanted::Closed(&["comb 4 1b0 5 1b0"], "void 6"),
    },
    Case {
        script: LINES,
        least_bits: 20,
        quotes: false,
        state: &["real 0 1b2", "real 3b-1 1b2", "yes 5", "no 4"],
        lines: &[("voidcomb 4 1b0 5 -1b0", DONE)],
        wanted: Wanted::Closed(&[], "voidcomb 4 1b0 5 -1b0"),
    },
    // an equation, which enclosures alone do not refute
    Case {
        script: SWAPPED,
        least_bits: 20,
        quotes: false,
        state: &["real 1b-2 1b-1", "real 1b-2 1b-1", "yes 4"],
        lines: &[("void 4", NOT_FALSE), ("voidcomb 4 -1b0", DONE)],
        wanted: Wanted::Closed(&[], "voidcomb 4 -1b0"),
    },
];

#[test]
fn combinations_close(rt: HostRuntime) {
    assert!(rt; all_hold(rt.alloc(), CLOSING_CASES));
}

// ---- a Bool is flipped

const BOOL_CASES: &[Case] = &[
    Case {
        script: BOOL,
        least_bits: 20,
        quotes: false,
        state: &["bool both"],
        lines: &[
            ("false", NOT_FALSE),
            ("cut 0 0", NOT_INSIDE),
            ("flip 0", DONE),
        ],
        wanted: Wanted::Parted(&["bool false"], &["bool true"]),
    },
    Case {
        script: BOOL,
        least_bits: 20,
        quotes: false,
        state: &["bool true"],
        lines: &[("flip 0", DECIDED), ("false", NOT_FALSE)],
        wanted: Wanted::Reached(&["bool true"]),
    },
    Case {
        script: BOOL,
        least_bits: 20,
        quotes: false,
        state: &["bool false"],
        lines: &[("flip 0", DECIDED), ("false", DONE)],
        wanted: Wanted::Closed(&[], "false"),
    },
];

#[test]
fn a_bool_is_flipped(rt: HostRuntime) {
    assert!(rt; all_hold(rt.alloc(), BOOL_CASES));
}
