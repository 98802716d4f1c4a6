// Books that are made patch by patch: what they answer, and the certificates that they are written as.
ghost use Rattle.std.specs.Prelude.{◌≡◌, IfSome, IsSome};
ghost use Rattle.cover_model.specs.Fits.{FitsProblem};
ghost use Rattle.poly_graph.specs.ProblemViews.{problem_of};
ghost use Rattle.cover_model.specs.State.{IsLemma};
ghost use Rattle.cover_book.specs.Model.{loosenings_in, margins_of, problem_in};
ghost use Rattle.cover_data.specs.Runs.{IsRun};
ghost use Rattle.cover_data.specs.Views.{kept_of};

use crate::cases::{LINES, PARABOLA};
use crate::patches::{Answer, DONE, book_of, is_state, led, outside_lemma, state_of};
use crate::points::{ANYWHERE, NO_ROOT, is_space, middle_of};
use cert_check::Verdict;
use cert_text::write_cover;
use cover_book::{Book, BookRefusal, BookVerdict, Kids};
use cover_rule::{KeptPatch, Lemma, Patch};
use sample_problems::scripts::{CIRCLE, OUTSIDE, SWAPPED};
use sample_problems::verdict;
use std::alloc::Global;

// ---- what a book answers

// Why a book refuses: states and points are said by lines of a certificate.
pub(crate) enum Refused {
    NotOpen(u32),
    Elsewhere(&'static [&'static str]),
    Unknown(u32, u32),
    Spent(u32),
    Found(&'static [&'static str]),
}

// Whether the book refuses for this cause.
fn is_refused(alloc: Global, refusal: &BookRefusal, expected: &Refused) -> bool {
    match (refusal, expected) {
        (BookRefusal::NotOpen(node), Refused::NotOpen(said)) => *node == *said,
        (BookRefusal::OtherState(state), Refused::Elsewhere(lines)) => {
            is_state(alloc, state, lines)
        }
        (BookRefusal::UnknownLemma(id, count), Refused::Unknown(said, known)) => {
            *id == *said && *count == *known
        }
        (BookRefusal::BudgetSpent(branches), Refused::Spent(said)) => *branches == *said,
        (BookRefusal::PointKept(point), Refused::Found(lines)) => {
            is_space(alloc, point.space(), lines)
        }
        _ => false,
    }
}

// A patch that is committed to a node: the number of the lemma that it may quote, the state in which it begins, its
// lines with what they are answered, and what the book answers.
pub(crate) struct Commit {
    pub node: u32,
    pub quotes: Option<u32>,
    pub state: &'static [&'static str],
    pub lines: &'static [(&'static str, Answer)],
    pub reply: Result<Kids, Refused>,
}

// What is kept of a patch that has ended.
fn ended(patch: Patch<'_>) -> Option<KeptPatch>
    ensures { IfSome result (λ k.
        IsRun (problem_of patch.entry.problem) patch.entry.margins (kept_of k) × IsSome k.end) }
{
    let (kept, _) = patch.into_kept();
    if kept.end.is_some() { Some(kept) } else { None }
}

// What is kept of the patch that begins in the state and goes by the lines, of which the last ends it.
fn worked(
    alloc: Global,
    book: &Book,
    lemma: Option<&Lemma>,
    state: &[&str],
    lines: &[(&'static str, Answer)],
) -> Option<KeptPatch>
    requires fits { IfSome lemma (λ l. FitsProblem (problem_in book.now) l.now.state) }
    requires lemma { IfSome lemma (λ l.
        IsLemma (problem_in book.now) (loosenings_in book.now) l.now.state) }
    ensures { IfSome result (λ k.
        IsRun (problem_in book.now) (margins_of book.now.options) (kept_of k) × IsSome k.end) }
{
    let atoms = book.problem().atoms().len();
    let state = state_of(alloc, atoms, state)?;
    let patch = led(alloc, book, lemma, state, lines)?;
    ended(patch)
}

// The same of a commit, where a lemma may be quoted.
fn kept(alloc: Global, book: &Book, commit: &Commit) -> Option<KeptPatch>
    ensures { IfSome result (λ k.
        IsRun (problem_in book.now) (margins_of book.now.options) (kept_of k) × IsSome k.end) }
{
    match commit.quotes {
        None => worked(alloc, book, None, commit.state, commit.lines),
        Some(id) => {
            let lemma = outside_lemma(alloc, book, id)?;
            worked(alloc, book, Some(&lemma), commit.state, commit.lines)
        }
    }
}

// Whether the commit was answered so.
fn is_reply(
    alloc: Global,
    answer: &Result<Kids, BookRefusal>,
    expected: &Result<Kids, Refused>,
) -> bool {
    match (answer, expected) {
        (Ok(kids), Ok(said)) => *kids == *said,
        (Err(refusal), Err(said)) => is_refused(alloc, refusal, said),
        _ => false,
    }
}

// Whether the book answers the commit so.
fn is_committed(alloc: Global, book: &mut Book, commit: &Commit) -> bool {
    match kept(alloc, book, commit) {
        Some(patch) => is_reply(alloc, &book.commit(commit.node, patch), &commit.reply),
        None => false,
    }
}

// Whether the book learns, under this number, the state that is closed by these lines.
fn learns(
    alloc: Global,
    book: &mut Book,
    state: &[&str],
    lines: &[(&'static str, Answer)],
    id: u32,
) -> bool {
    let Some(kept) = worked(alloc, book, None, state, lines) else {
        return false;
    };
    match kept.closed() {
        Ok(closed) => matches!(book.learn(closed), Ok(number) if number == id),
        Err(_) => false,
    }
}

// Whether the book's last lemma is that of this number and of the state that the lines say.
fn ends_in_lemma(alloc: Global, book: &Book, id: u32, lines: &[&str]) -> bool {
    match book.lemmas_from(id) {
        Ok(lemmas) => match lemmas.as_slice() {
            [lemma] => lemma.id() == id && is_state(alloc, lemma.state(), lines),
            _ => false,
        },
        Err(_) => false,
    }
}

// Whether the book says this, and is written as this certificate, which is confirmed so.
fn is_written(
    alloc: Global,
    book: &Book,
    said: BookVerdict,
    text: &str,
    confirmed: Verdict,
) -> bool {
    let Ok(written) = write_cover(alloc, book) else {
        return false;
    };
    book.verdict() == said
        && written.as_slice() == text.as_bytes()
        && verdict(alloc, book.problem(), &written) == Ok(confirmed)
}

fn is_found_reply(
    alloc: Global,
    answer: &Result<(), BookRefusal>,
    expected: &Result<(), Refused>,
) -> bool {
    match (answer, expected) {
        (Ok(()), Ok(())) => true,
        (Err(refusal), Err(said)) => is_refused(alloc, refusal, said),
        _ => false,
    }
}

// Whether the book answers so where the middle of one node's box is found at another node.
fn is_found(
    alloc: Global,
    book: &mut Book,
    of: u32,
    node: u32,
    expected: &Result<(), Refused>,
) -> bool {
    match middle_of(alloc, book, of) {
        Ok(Some(point)) => is_found_reply(alloc, &book.found(node, point), expected),
        _ => false,
    }
}

// Whether the node has no state that is open.
fn is_not_open(book: &Book, node: u32) -> bool {
    let answer = book.state_of(node);
    matches!(&answer, Err(BookRefusal::NotOpen(number)) if *number == node)
}

// What is asked of a book, and what it answers.
pub(crate) enum Call {
    Commit(Commit),
    // The state that is closed by these lines is learned under this number.
    Learn(&'static [&'static str], &'static [(&'static str, Answer)], u32),
    // The last lemma: its number and its state.
    LastLemma(u32, &'static [&'static str]),
    Branches(u32),
    LiveAfter(u32, Option<u32>),
    // The middle of the first node's box is found at the second one.
    Found(u32, u32, Result<(), Refused>),
    NotOpen(u32),
    // The book goes over to version 5.
    Raise,
    Verdict(BookVerdict),
    // What the book says, the certificate that it is written as, and what that is confirmed to be.
    Written(BookVerdict, &'static str, Verdict),
}

// Whether the book answers the call so.
fn is_answered(alloc: Global, book: &mut Book, call: &Call) -> bool {
    match call {
        Call::Commit(commit) => is_committed(alloc, book, commit),
        Call::Learn(state, lines, id) => learns(alloc, book, state, lines, *id),
        Call::LastLemma(id, state) => ends_in_lemma(alloc, book, *id, state),
        Call::Branches(count) => book.branches() == *count,
        Call::LiveAfter(from, node) => book.live_after(*from) == *node,
        Call::Found(of, node, reply) => is_found(alloc, book, *of, *node, reply),
        Call::NotOpen(node) => is_not_open(book, *node),
        Call::Raise => {
            book.raise();
            true
        }
        Call::Verdict(said) => book.verdict() == *said,
        Call::Written(said, text, confirmed) => is_written(alloc, book, *said, text, *confirmed),
    }
}

pub(crate) fn are_answered(alloc: Global, book: &mut Book, calls: &[Call]) -> bool {
    for call in calls {
        if !is_answered(alloc, book, call) {
            return false;
        }
    }
    true
}

// A script, the least width and the budget of its book, and calls that are made one after the other.
struct Calls {
    script: &'static str,
    least_bits: u32,
    budget: u32,
    calls: &'static [Call],
}

// Whether the book answers so.
fn holds(alloc: Global, row: &Calls) -> bool {
    if row.least_bits > 60 || row.budget > 100 {
        return false;
    }
    match book_of(alloc, row.script, row.least_bits, row.budget) {
        Some(mut book) => are_answered(alloc, &mut book, row.calls),
        None => false,
    }
}

// ---- the certificates that are written

// A branch, with a lemma of its own that nothing quotes.
const OPEN_BRANCH: &str = "dpoly 2
margin 20
delta 10
bound none
cover 1
lemma 0
real 0 0
real 0 0
yes
no
false
tree
unit 0
unit 1
unit 2
unit 3
unit 4
cut 0 0
open
open
end
";

const STUCK_ROOT: &str = "dpoly 2
margin 20
delta 10
bound none
cover 0
tree
unit 0
unit 1
unit 2
unit 3
unit 4
stuck 4
end
";

// A cut is honest only where each conjunct is marked.
const MARKED_COVER: &str = "dpoly 2
margin 20
delta 10
bound none
cover 0
tree
unit 0
unit 1
unit 2
unit 3
unit 4
unit 5
cut 0 1b0
cut 1 1b0
pull 5
false
pull 4
false
pull 4
false
end
";

// The first axis is cut again, though the second one is wider.
const RAISED_COVER: &str = "dpoly 5
margin 20
delta 10
bound none
cover 0
tree
unit 0
unit 1
unit 2
unit 3
unit 4
unit 5
cut 0 1b0
cut 0 1b-1
open
open
open
end
";

const REFUTED_PARABOLA: &str = "dpoly 2
margin 20
delta 10
bound none
cover 0
tree
unit 2
voidcomb 2 1b0
end
";

const REFUTED_LINES: &str = "dpoly 2
margin 20
delta 10
bound none
cover 0
tree
unit 4
unit 5
unit 6
comb 4 1b0 5 1b0
voidcomb 4 1b-1 5 1b-1 6 -1b0
end
";

const QUOTED_LEMMA: &str = "dpoly 2
margin 20
delta 10
bound none
cover 1
lemma 0
real 0 1b0
yes 4
no
pull 4
false
tree
unit 4
by 0
end
";

// ---- what several rows have

const ROOT: [&str; 2] = ["real -1b-1 1b-1", "real -1b-1 1b-1"];

const LOWER: [&str; 3] = ["real -1b-1 0", "real -1b-1 1b-1", "yes 0 1 2 3 4"];

const CUT: [(&str, Answer); 6] = [
    ("unit 0", DONE),
    ("unit 1", DONE),
    ("unit 2", DONE),
    ("unit 3", DONE),
    ("unit 4", DONE),
    ("cut 0 0", DONE),
];

const QUOTED: [(&str, Answer); 2] = [("unit 4", DONE), ("by 0", DONE)];

// The root of 1/16 is the middle of the lower half.
const QUARTER: &str = "(declare-const x Real)
(assert (<= 0 x 1))
(assert (= (* x x) (/ 1 16)))
(check-sat)";

// ---- books

const BOOKS: &[Calls] = &[
    // a branch is made once and no other, and a lemma is learned besides
    Calls {
        script: SWAPPED,
        least_bits: 20,
        budget: 1,
        calls: &[
            Call::Commit(Commit {
                node: 0,
                quotes: None,
                state: &ROOT,
                lines: &CUT,
                reply: Ok(Kids::Two(1, 2)),
            }),
            Call::Commit(Commit {
                node: 0,
                quotes: None,
                state: &ROOT,
                lines: &CUT,
                reply: Err(Refused::NotOpen(0)),
            }),
            Call::Commit(Commit {
                node: 1,
                quotes: None,
                state: &ROOT,
                lines: &CUT,
                reply: Err(Refused::Elsewhere(&LOWER)),
            }),
            Call::Commit(Commit {
                node: 1,
                quotes: None,
                state: &LOWER,
                lines: &[("cut 1 0", DONE)],
                reply: Err(Refused::Spent(1)),
            }),
            Call::Learn(&["real 0 0", "real 0 0"], &[("false", DONE)], 0),
            Call::LastLemma(0, &["real 0 0", "real 0 0"]),
            Call::Branches(1),
            Call::LiveAfter(0, Some(1)),
            Call::LiveAfter(2, Some(2)),
            Call::LiveAfter(3, None),
            Call::Written(BookVerdict::UnknownBudget, OPEN_BRANCH, Verdict::Left(2)),
        ],
    },
    // a wide root is stuck
    Calls {
        script: SWAPPED,
        least_bits: 0,
        budget: 2,
        calls: &[
            Call::Commit(Commit {
                node: 0,
                quotes: None,
                state: &ROOT,
                lines: &[
                    ("unit 0", DONE),
                    ("unit 1", DONE),
                    ("unit 2", DONE),
                    ("unit 3", DONE),
                    ("unit 4", DONE),
                    ("stuck 4", DONE),
                ],
                reply: Ok(Kids::None),
            }),
            Call::Written(BookVerdict::UnknownWidth, STUCK_ROOT, Verdict::Left(1)),
        ],
    },
    // a cover of two cuts
    Calls {
        script: CIRCLE,
        least_bits: 20,
        budget: 2,
        calls: &[
            Call::Commit(Commit {
                node: 0,
                quotes: None,
                state: &["real 0 1b1", "real 0 1b1"],
                lines: &[
                    ("unit 0", DONE),
                    ("unit 1", DONE),
                    ("unit 2", DONE),
                    ("unit 3", DONE),
                    ("unit 4", DONE),
                    ("unit 5", DONE),
                    ("cut 0 1b0", DONE),
                ],
                reply: Ok(Kids::Two(1, 2)),
            }),
            Call::Commit(Commit {
                node: 1,
                quotes: None,
                state: &["real 0 1b0", "real 0 1b1", "yes 0 1 2 3 4 5"],
                lines: &[("cut 1 1b0", DONE)],
                reply: Ok(Kids::Two(3, 4)),
            }),
            Call::Commit(Commit {
                node: 2,
                quotes: None,
                state: &["real 1b0 1b1", "real 0 1b1", "yes 0 1 2 3 4 5"],
                lines: &[("pull 4", DONE), ("false", DONE)],
                reply: Ok(Kids::None),
            }),
            Call::Commit(Commit {
                node: 4,
                quotes: None,
                state: &["real 0 1b0", "real 1b0 1b1", "yes 0 1 2 3 4 5"],
                lines: &[("pull 4", DONE), ("false", DONE)],
                reply: Ok(Kids::None),
            }),
            Call::Commit(Commit {
                node: 3,
                quotes: None,
                state: &["real 0 1b0", "real 0 1b0", "yes 0 1 2 3 4 5"],
                lines: &[("pull 5", DONE), ("false", DONE)],
                reply: Ok(Kids::None),
            }),
            Call::Written(BookVerdict::Unsat, MARKED_COVER, Verdict::Unsat(20)),
        ],
    },
    // a book that has gone over to version 5 goes on with what it has
    Calls {
        script: CIRCLE,
        least_bits: 20,
        budget: 2,
        calls: &[
            Call::Commit(Commit {
                node: 0,
                quotes: None,
                state: &["real 0 1b1", "real 0 1b1"],
                lines: &[
                    ("unit 0", DONE),
                    ("unit 1", DONE),
                    ("unit 2", DONE),
                    ("unit 3", DONE),
                    ("unit 4", DONE),
                    ("unit 5", DONE),
                    ("cut 0 1b0", DONE),
                ],
                reply: Ok(Kids::Two(1, 2)),
            }),
            Call::Raise,
            Call::Commit(Commit {
                node: 1,
                quotes: None,
                state: &["real 0 1b0", "real 0 1b1", "yes 0 1 2 3 4 5"],
                lines: &[("cut 0 1b-1", DONE)],
                reply: Ok(Kids::Two(3, 4)),
            }),
            Call::Written(BookVerdict::UnknownBudget, RAISED_COVER, Verdict::Left(3)),
        ],
    },
    // combinations are written and confirmed
    Calls {
        script: PARABOLA,
        least_bits: 20,
        budget: 2,
        calls: &[
            Call::Commit(Commit {
                node: 0,
                quotes: None,
                state: &["real 0 1b0"],
                lines: &[("unit 2", DONE), ("voidcomb 2 1b0", DONE)],
                reply: Ok(Kids::None),
            }),
            Call::Written(BookVerdict::Unsat, REFUTED_PARABOLA, Verdict::Unsat(20)),
        ],
    },
    // so are those of several atoms
    Calls {
        script: LINES,
        least_bits: 20,
        budget: 2,
        calls: &[
            Call::Commit(Commit {
                node: 0,
                quotes: None,
                state: &["real 0 1b2", "real 0 1b2"],
                lines: &[
                    ("unit 4", DONE),
                    ("unit 5", DONE),
                    ("unit 6", DONE),
                    ("comb 4 1b0 5 1b0", DONE),
                    ("voidcomb 4 1b-1 5 1b-1 6 -1b0", DONE),
                ],
                reply: Ok(Kids::None),
            }),
            Call::Written(BookVerdict::Unsat, REFUTED_LINES, Verdict::Unsat(20)),
        ],
    },
    // the root is closed by a lemma once it is learned, and no sooner
    Calls {
        script: OUTSIDE,
        least_bits: 20,
        budget: 0,
        calls: &[
            Call::Commit(Commit {
                node: 0,
                quotes: Some(0),
                state: &["real 0 1b0"],
                lines: &QUOTED,
                reply: Err(Refused::Unknown(0, 0)),
            }),
            Call::Learn(
                &["real 0 1b0", "yes 4"],
                &[("pull 4", DONE), ("false", DONE)],
                0,
            ),
            Call::Commit(Commit {
                node: 0,
                quotes: Some(7),
                state: &["real 0 1b0"],
                lines: &[("unit 4", DONE), ("by 7", DONE)],
                reply: Err(Refused::Unknown(7, 1)),
            }),
            Call::Commit(Commit {
                node: 0,
                quotes: Some(0),
                state: &["real 0 1b0"],
                lines: &QUOTED,
                reply: Ok(Kids::None),
            }),
            Call::Written(BookVerdict::Unsat, QUOTED_LEMMA, Verdict::Unsat(20)),
        ],
    },
    // one point is found, and no other
    Calls {
        script: ANYWHERE,
        least_bits: 20,
        budget: 0,
        calls: &[
            Call::Found(0, 1, Err(Refused::NotOpen(1))),
            Call::Found(0, 0, Ok(())),
            Call::Found(0, 0, Err(Refused::Found(&["real 1b-1 1b-1"]))),
            Call::Verdict(BookVerdict::DeltaSat),
        ],
    },
    // nothing is committed after a point
    Calls {
        script: QUARTER,
        least_bits: 20,
        budget: 1,
        calls: &[
            Call::Commit(Commit {
                node: 0,
                quotes: None,
                state: &["real 0 1b0"],
                lines: &[
                    ("unit 0", DONE),
                    ("unit 1", DONE),
                    ("unit 2", DONE),
                    ("cut 0 1b-1", DONE),
                ],
                reply: Ok(Kids::Two(1, 2)),
            }),
            Call::Found(1, 1, Ok(())),
            Call::Commit(Commit {
                node: 2,
                quotes: None,
                state: &["real 1b-1 1b0", "yes 0 1 2"],
                lines: &[("false", DONE)],
                reply: Err(Refused::Found(&["real 1b-2 1b-2"])),
            }),
            Call::Verdict(BookVerdict::DeltaSat),
        ],
    },
    // a node that is closed is not open, nor one that was never there
    Calls {
        script: NO_ROOT,
        least_bits: 20,
        budget: 0,
        calls: &[
            Call::Commit(Commit {
                node: 0,
                quotes: None,
                state: &["real 0 1b0"],
                lines: &[("false", DONE)],
                reply: Ok(Kids::None),
            }),
            Call::Commit(Commit {
                node: 0,
                quotes: None,
                state: &["real 0 1b0"],
                lines: &[("false", DONE)],
                reply: Err(Refused::NotOpen(0)),
            }),
            Call::NotOpen(0),
            Call::NotOpen(1),
            Call::NotOpen(4_294_967_295),
        ],
    },
];

#[test]
fn books_answer(rt: HostRuntime) {
    for row in BOOKS {
        assert!(rt; holds(rt.alloc(), row), "{}", row.script);
    }
}
