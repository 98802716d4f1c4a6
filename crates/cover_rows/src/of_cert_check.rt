// How many states the checker keeps after each line of a certificate.
use crate::made::problem;
use cert_check::Checker;
use cert_read::LineReader;
use poly_graph::Problem;
use sample_problems::scripts::CIRCLE;
use std::alloc::Global;

// The lines of a cover of two cuts, each with how many states are kept after it.
const LINES: [(&str, usize); 18] = [
    ("dpoly 1\n", 0),
    ("margin 20\n", 0),
    ("delta 10\n", 0),
    ("bound none\n", 0),
    ("cover 0\n", 0),
    ("tree\n", 1),
    ("cut 0 1b0\n", 2),
    ("cut 1 1b0\n", 3),
    ("unit 5\n", 3),
    ("pull 5\n", 3),
    ("false\n", 2),
    ("unit 4\n", 2),
    ("pull 4\n", 2),
    ("false\n", 1),
    ("unit 4\n", 1),
    ("pull 4\n", 1),
    ("false\n", 0),
    ("end\n", 0),
];

// How many states are kept after one more line.
fn pending_after(checker: &mut Checker, reader: &mut LineReader, line: &str) -> Option<usize> {
    reader.feed(line.as_bytes()).ok()?;
    checker.take(reader).ok()?;
    Some(checker.pending())
}

// The first line after which another number is kept.
fn first_wrong(checker: &mut Checker, reader: &mut LineReader) -> Option<&'static str> {
    for (line, count) in &LINES {
        if pending_after(checker, reader, line) != Some(*count) {
            return Some(line);
        }
    }
    None
}

// The same of a new checker for the problem.
fn first_wrong_in(alloc: Global, problem: &Problem) -> Option<&'static str> {
    let mut reader = LineReader::new(alloc);
    match Checker::new(alloc, problem, None) {
        Ok(mut checker) => first_wrong(&mut checker, &mut reader),
        Err(_) => Some("no checker"),
    }
}

fn first_wrong_of(alloc: Global, script: &str) -> Option<&'static str> {
    match problem(alloc, script) {
        Some(problem) => first_wrong_in(alloc, &problem),
        None => Some("no problem"),
    }
}

#[test]
fn the_states_of_a_tree_are_counted(rt: HostRuntime) {
    assert_eq!(rt; first_wrong_of(rt.alloc(), CIRCLE), None);
}
