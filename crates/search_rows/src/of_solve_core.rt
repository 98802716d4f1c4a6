// Searches that end with their verdicts, two workers at once, and a lemma that goes from one to the other.
use crate::searched::searched;
use cert_check::Verdict;
use cert_text::write_cover;
use cover_book::{Book, BookVerdict};
use sample_problems::scripts::{BOOL, SWAPPED};
use sample_problems::verdict;
use solve_core::{Gate, NoGate};
use std::alloc::Global;
use std::hint;
use std::sync::Wait;
use std::sync::atomic::{AtomicBool, AtomicU64, Ordering};
use std::thread::Threads;

// A form that is false.
const NEVER: &str = "(declare-const b Bool)
(assert false)
(check-sat)";

// Scripts with the branches that may be made at most, and what the search says then.
const ENDS: [(&str, u32, BookVerdict); 3] = [
    (NEVER, 0, BookVerdict::Unsat),
    (BOOL, 1, BookVerdict::DeltaSat),
    (BOOL, 0, BookVerdict::UnknownBudget),
];

// Whether a search of the row by so many workers ends with its verdict.
fn ends<R: Threads + Wait + Sync, G: Gate + Sync>(
    rt: &R,
    alloc: Global,
    row: &(&'static str, u32, BookVerdict),
    workers: u32,
    gate: &G,
) -> bool {
    let (script, budget, verdict) = *row;
    if budget > 65_536 {
        return false;
    }
    match searched(rt, alloc, script, budget, workers, gate) {
        Some(book) => book.verdict() == verdict,
        None => false,
    }
}

#[test]
fn searches_end_with_their_verdicts(rt: HostRuntime) {
    for workers in &[0, 1, 2, 8, 64, 1000] {
        for row in &ENDS {
            assert!(rt; ends(&rt, rt.alloc(), row, *workers, &NoGate), "{workers}");
        }
    }
}

// A gate that holds a worker at this node or a later one until so many are at work, for so many turns at most.
#[derive(Drop)]
struct Meeting {
    wanted: u64,
    first: u32,
    at_work: AtomicU64,
    met: AtomicBool,
}

const TURNS: u32 = 100_000_000;

// Holds the caller until the flag is set.
fn hold(flag: &AtomicBool) {
    for _ in 0..TURNS {
        if flag.load(Ordering::SeqCst) {
            return;
        }
        hint::spin_loop();
    }
}

impl Gate for Meeting {
    fn began(&self, _worker: u32, node: u32) {
        let before = self.at_work.fetch_add(1, Ordering::SeqCst);
        if before.saturating_add(1) >= self.wanted {
            self.met.store(true, Ordering::SeqCst);
        }
        if node >= self.first {
            hold(&self.met);
        }
    }

    fn ended(&self, _worker: u32, _node: u32) {
        self.at_work.fetch_sub(1, Ordering::SeqCst);
    }
}

// How many workers meet, and from which node on they are held: the first one at which as many boxes are live.
const MEETINGS: [(u32, u32); 2] = [(2, 1), (3, 3)];

// Whether so many workers meet.
fn meet<R: Threads + Wait + Sync>(rt: &R, alloc: Global, workers: u32, first: u32) -> bool {
    let gate = Meeting {
        wanted: u64::from(workers),
        first,
        at_work: AtomicU64::new(0),
        met: AtomicBool::new(false),
    };
    let row = (SWAPPED, 65_536, BookVerdict::Unsat);
    ends(rt, alloc, &row, workers, &gate) && gate.met.load(Ordering::SeqCst)
}

#[test]
fn all_workers_are_at_work_at_once(rt: HostRuntime) {
    for (workers, first) in &MEETINGS {
        assert!(rt; meet(&rt, rt.alloc(), *workers, *first), "{workers}");
    }
}

// Where y + z <= 2 and x^2 <= 1/2, neither y + z >= 3 nor x <= -1 nor x >= 1. The search cuts the root at x = 0. What
// closes the lower half is learned of the whole box.
const HALVES: &str = "(declare-const x Real)
(declare-const y Real)
(declare-const z Real)
(assert (and (<= (- 4) x 4) (<= (- 4) y 4) (<= (- 4) z 4)))
(assert (<= (+ y z) 2))
(assert (or (>= (+ y z) 3) (<= x (- 1)) (>= x 1)))
(assert (or (<= (* x x) (/ 1 2)) (and (>= x 3) (<= x (- 3))) (and (>= x 2) (<= x (- 2)))))
(check-sat)";

const LOWER: u32 = 1;

const UPPER: u32 = 2;

// A gate that holds the worker at the lower half until another is at the upper one, and that one until the lower half
// is done, for so many turns at most.
#[derive(Drop)]
struct OneByOne {
    upper_begun: AtomicBool,
    lower_done: AtomicBool,
    lower_worker: AtomicU64,
    upper_worker: AtomicU64,
}

impl Gate for OneByOne {
    fn began(&self, worker: u32, node: u32) {
        if node == LOWER {
            self.lower_worker.store(u64::from(worker), Ordering::SeqCst);
            hold(&self.upper_begun);
        }
        if node == UPPER {
            self.upper_worker.store(u64::from(worker), Ordering::SeqCst);
            self.upper_begun.store(true, Ordering::SeqCst);
            hold(&self.lower_done);
        }
    }

    fn ended(&self, _worker: u32, node: u32) {
        if node == LOWER {
            self.lower_done.store(true, Ordering::SeqCst);
        }
    }
}

// Whether the text has this line.
fn has_line(text: &[u8], wanted: &[u8]) -> bool {
    for line in text.split(|byte| *byte == b'\n') {
        if line == wanted {
            return true;
        }
    }
    false
}

// Whether the certificate of the book quotes the lemma, and is accepted.
fn is_quoted(alloc: Global, book: &Book) -> bool {
    match write_cover(alloc, book) {
        Ok(text) => {
            has_line(text.as_slice(), b"ban 7 0")
                && verdict(alloc, book.problem(), text.as_slice()) == Ok(Verdict::Unsat(20))
        }
        Err(_) => false,
    }
}

// Whether the halves are worked on by the two workers, one each.
fn is_shared(gate: &OneByOne) -> bool {
    let lower = gate.lower_worker.load(Ordering::SeqCst);
    let upper = gate.upper_worker.load(Ordering::SeqCst);
    lower.checked_add(upper) == Some(1)
}

// Whether a search by two workers does both.
fn hands_over<R: Threads + Wait + Sync>(rt: &R, alloc: Global, gate: &OneByOne) -> bool {
    match searched(rt, alloc, HALVES, 65_536, 2, gate) {
        Some(book) => is_shared(gate) && is_quoted(alloc, &book),
        None => false,
    }
}

#[test]
fn a_lemma_of_another_worker_is_quoted(rt: HostRuntime) {
    let gate = OneByOne {
        upper_begun: AtomicBool::new(false),
        lower_done: AtomicBool::new(false),
        lower_worker: AtomicU64::new(64),
        upper_worker: AtomicU64::new(64),
    };
    assert!(rt; hands_over(&rt, rt.alloc(), &gate));
}
