// What the search calls its gate with, and in which order.
use crate::searched::searched;
use cover_book::{Book, BookVerdict, Node};
use sample_problems::scripts::{CIRCLE, OUTSIDE, SWAPPED};
use solve_core::Gate;
use std::alloc::{AllocError, Global};
use std::sync::Wait;
use std::sync::atomic::{AtomicBool, AtomicU32, AtomicU64, Ordering};
use std::thread::Threads;

// A place for one call.
#[derive(Drop)]
struct Entry {
    worker: AtomicU32,
    node: AtomicU32,
    ends: AtomicBool,
}

// A call: of which worker, at which node, and whether it ends the work.
#[derive(Clone, Copy, PartialEq, Eq)]
struct Said {
    worker: u32,
    node: u32,
    ends: bool,
}

// A gate that writes down its calls, as far as it has places for them.
#[derive(Drop)]
struct Diary {
    count: AtomicU64,
    entries: Vec<Entry>,
}

impl Diary {
    fn new(alloc: Global, places: usize) -> Result<Diary, AllocError> {
        let mut entries = Vec::new(alloc);
        for _ in 0..places {
            entries.push(Entry {
                worker: AtomicU32::new(0),
                node: AtomicU32::new(0),
                ends: AtomicBool::new(false),
            })?;
        }
        Ok(Diary {
            count: AtomicU64::new(0),
            entries,
        })
    }

    fn write(&self, worker: u32, node: u32, ends: bool) {
        let place = self.count.fetch_add(1, Ordering::SeqCst);
        if let Some(entry) = self.entries.get(place as usize) {
            entry.worker.store(worker, Ordering::SeqCst);
            entry.node.store(node, Ordering::SeqCst);
            entry.ends.store(ends, Ordering::SeqCst);
        }
    }

    // The calls, in their order; none where there were more of them than places.
    fn calls(&self, alloc: Global) -> Result<Option<Vec<Said>>, AllocError> {
        let count = self.count.load(Ordering::SeqCst) as usize;
        let Some(written) = self.entries.get(..count) else {
            return Ok(None);
        };
        let mut calls = Vec::new(alloc);
        for entry in written {
            calls.push(Said {
                worker: entry.worker.load(Ordering::SeqCst),
                node: entry.node.load(Ordering::SeqCst),
                ends: entry.ends.load(Ordering::SeqCst),
            })?;
        }
        Ok(Some(calls))
    }
}

impl Gate for Diary {
    fn began(&self, worker: u32, node: u32) {
        self.write(worker, node, false);
    }

    fn ended(&self, worker: u32, node: u32) {
        self.write(worker, node, true);
    }
}

// The calls of one worker that works on each of the nodes, depth first, the lower part of a box before the upper.
fn depth_first(alloc: Global, nodes: &[Node]) -> Option<Vec<Said>> {
    let mut calls = Vec::new(alloc);
    let mut waiting = Vec::new(alloc);
    if waiting.push(0).is_ok() && add_calls(nodes, &mut waiting, &mut calls) {
        Some(calls)
    } else {
        None
    }
}

// Adds both calls of a node.
fn add_both(calls: &mut Vec<Said>, node: u32) -> Result<(), AllocError> {
    for ends in &[false, true] {
        calls.push(Said {
            worker: 0,
            node,
            ends: *ends,
        })?;
    }
    Ok(())
}

// Adds the calls of each node that waits, and of what it is parted into. Whether a branch leads to each node.
fn add_calls(nodes: &[Node], waiting: &mut Vec<u32>, calls: &mut Vec<Said>) -> bool {
    for _ in 0..nodes.len() {
        let Some(node) = waiting.pop() else {
            return false;
        };
        if add_both(calls, node).is_err() {
            return false;
        }
        if let Some(Node::Parted(_, lower)) = nodes.get(node as usize) {
            let upper = lower.saturating_add(1);
            if waiting.push(upper).is_err() || waiting.push(*lower).is_err() {
                return false;
            }
        }
    }
    true
}

// Whether this worker ends its work on a node before it begins that on another.
fn ends_before_next(calls: &[Said], worker: u32) -> bool {
    let mut at_work = None;
    for call in calls {
        if call.worker == worker {
            let due = if call.ends { Some(call.node) } else { None };
            if at_work != due {
                return false;
            }
            at_work = if call.ends { None } else { Some(call.node) };
        }
    }
    at_work.is_none()
}

// After how many calls the work on a node begins or ends.
fn place_of(calls: &[Said], node: usize, ends: bool) -> Option<usize> {
    calls
        .iter()
        .position(|call| call.node as usize == node && call.ends == ends)
}

// Whether both parts of each box of the book begin after the box.
fn parts_come_later(nodes: &[Node], calls: &[Said]) -> bool {
    for node in 0..nodes.len() {
        if let Node::Parted(_, lower) = &nodes[node] {
            let whole = place_of(calls, node, false);
            let lower = *lower as usize;
            if place_of(calls, lower, false) <= whole
                || place_of(calls, lower + 1, false) <= whole
            {
                return false;
            }
        }
    }
    true
}

// Whether each of so many nodes begins and ends once: it does both, and there are no other calls.
fn each_once(count: usize, calls: &[Said]) -> bool {
    for node in 0..count {
        if place_of(calls, node, false).is_none() || place_of(calls, node, true).is_none() {
            return false;
        }
    }
    calls.len() / 2 == count && calls.len() % 2 == 0
}

// Whether the calls of so many workers are those that the book has: each worker's in pairs, a box before its parts.
fn are_pairs(book: &Book, calls: &[Said], workers: u32) -> bool {
    for worker in 0..workers {
        if !ends_before_next(calls, worker) {
            return false;
        }
    }
    let nodes = book.nodes();
    each_once(nodes.len(), calls) && parts_come_later(nodes, calls)
}

// A search: the script, the branches that may be made at most, the workers, and the verdict.
#[derive(Clone, Copy)]
struct Row {
    script: &'static str,
    budget: u32,
    workers: u32,
    verdict: BookVerdict,
}

// Whether the calls of the search are those that its book has: with one worker depth first, else in pairs. They are at
// least so many.
fn are_calls(alloc: Global, row: &Row, book: &Book, calls: &[Said], least: usize) -> bool {
    if book.verdict() != row.verdict || calls.len() < least {
        return false;
    }
    if row.workers > 1 {
        return are_pairs(book, calls, row.workers);
    }
    match depth_first(alloc, book.nodes()) {
        Some(expected) => calls == expected.as_slice(),
        None => false,
    }
}

// The same of the calls that the diary has.
fn are_written(alloc: Global, row: &Row, book: &Book, diary: &Diary, least: usize) -> bool {
    match diary.calls(alloc) {
        Ok(Some(calls)) => are_calls(alloc, row, book, calls.as_slice(), least),
        _ => false,
    }
}

// The same of a search with this diary.
fn writes<R: Threads + Wait + Sync>(
    rt: &R,
    alloc: Global,
    row: &Row,
    diary: &Diary,
    least: usize,
) -> bool {
    if row.budget > 65_536 {
        return false;
    }
    match searched(rt, alloc, row.script, row.budget, row.workers, diary) {
        Some(book) => are_written(alloc, row, &book, diary, least),
        None => false,
    }
}

// The same with a new one.
fn is_watched<R: Threads + Wait + Sync>(rt: &R, alloc: Global, row: &Row, least: usize) -> bool {
    match Diary::new(alloc, 10_000) {
        Ok(diary) => writes(rt, alloc, row, &diary, least),
        Err(_) => false,
    }
}

const SCRIPTS: [&str; 3] = [SWAPPED, CIRCLE, OUTSIDE];

#[test]
fn the_gate_is_called_as_boxes_are_worked_on(rt: HostRuntime) {
    for script in &SCRIPTS {
        for workers in &[0, 1, 2, 3] {
            let row = Row {
                script: *script,
                budget: 65_536,
                workers: *workers,
                verdict: BookVerdict::Unsat,
            };
            let least = if *script == SWAPPED { 14 } else { 2 };
            assert!(rt;
                is_watched(&rt, rt.alloc(), &row, least),
                "{workers} {script}"
            );
        }
    }
}

// A box for whose branch there is no budget is worked on all the same.
#[test]
fn a_spent_budget_leaves_the_order(rt: HostRuntime) {
    for budget in &[0, 1, 2] {
        let row = Row {
            script: SWAPPED,
            budget: *budget,
            workers: 1,
            verdict: BookVerdict::UnknownBudget,
        };
        assert!(rt; is_watched(&rt, rt.alloc(), &row, 2), "{budget}");
    }
}
