// Lines of words: what they ask for, and those that are refused.
use command_line::*;
use std::alloc::{AllocError, Global};

fn words_of(alloc: Global, line: &str) -> Result<Vec<String>, AllocError> {
    let mut words = Vec::new(alloc);
    for word in line.split(' ') {
        words.push(word.to_string(alloc)?)?;
    }
    Ok(words)
}

// ---- what is refused

fn are_refused(alloc: Global, words: &[String]) -> bool {
    matches!(read_words(alloc, words), Err(Refused::Usage))
}

fn is_refused(alloc: Global, line: &str) -> bool {
    match words_of(alloc, line) {
        Ok(words) => are_refused(alloc, &words),
        Err(_) => false,
    }
}

const REFUSED: [&str; 64] = [
    // forms
    "dpoly",
    "dpoly help",
    "dpoly help solve",
    "dpoly --help",
    "dpoly -h",
    "dpoly -V",
    "dpoly --version",
    "dpoly solve --help",
    "dpoly sol s c",
    "dpoly solve s",
    "dpoly solve s c d",
    "dpoly check s",
    "dpoly demo 1 1",
    "dpoly solve s c --other 1",
    "dpoly solve s -c",
    "dpoly solve s c --budget",
    "dpoly solve s c --budget 5 --budget 5",
    "dpoly check s c --workers 1",
    "dpoly demo 1 1 c --budget 5",
    "dpoly check - -",
    "dpoly upgrade s c",
    "dpoly upgrade s c d e",
    "dpoly upgrade - - d",
    "dpoly upgrade s c d --workers 1",
    "dpoly join",
    "dpoly join s o",
    "dpoly join s o a",
    "dpoly join s o - a",
    "dpoly join s o a b -",
    "dpoly join s o a b --bound 0",
    "dpoly join s o a b --part 1/1",
    "dpoly join s o a b --list l",
    "dpoly join --help",
    "dpoly solve s c --delta-bits 20 --margin-bits 10",
    "dpoly solve s c --delta-bits 20 --margin-bits 20",
    "dpoly solve s c --delta-bits 25",
    "dpoly solve s c --margin-bits 10",
    // numbers
    "dpoly solve s c --delta-bits 0",
    "dpoly solve s c --delta-bits 31 --margin-bits 60",
    "dpoly solve s c --delta-bits 1 --margin-bits 1",
    "dpoly solve s c --margin-bits 61",
    "dpoly solve s c --least-bits 61",
    "dpoly solve s c --least-bits -1",
    "dpoly solve s c --least-bits=-1",
    "dpoly solve s c --least-bits -0",
    "dpoly solve s c --budget 1048577",
    "dpoly solve s c --bound 0",
    "dpoly solve s c --bound 4294967296",
    "dpoly solve s c --workers 0",
    "dpoly solve s c --workers 65",
    "dpoly solve s c --workers=",
    "dpoly solve s c --workers one",
    "dpoly solve s c --workers 1.0",
    "dpoly solve s c --workers 0x1",
    "dpoly solve s c --workers ++1",
    "dpoly check s c --bound 0",
    "dpoly check s c --bound 4294967296",
    "dpoly upgrade s c d --bound 0",
    "dpoly demo 1 0 c",
    "dpoly demo 1 10001 c",
    "dpoly demo -1 1 c",
    "dpoly demo 18446744073709551616 1 c",
    "dpoly demo 1 1 c --workers 0",
    "dpoly demo 1 1 c --workers 65",
];

#[test]
fn no_command_of_these_words(rt: HostRuntime) {
    for line in &REFUSED {
        assert!(rt; is_refused(rt.alloc(), line), "{line}");
    }
    assert!(rt; are_refused(rt.alloc(), &[]));
}

// ---- what is asked

// The options where none is given but the number of workers.
const USUAL: Options = Options {
    delta_bits: 10,
    margin_bits: 20,
    least_bits: 20,
    budget: 65536,
    workers: 1,
    bound: None,
};

// What is asked: for `join` the names of the script, of the certificate that is written and of those that are read, and
// the bound.
#[derive(Clone, Copy)]
enum Asked {
    Solve(SolveWords<'static>),
    Check(CheckWords<'static>),
    Upgrade(UpgradeWords<'static>),
    Demo(DemoWords<'static>),
    Join(&'static str, &'static str, &'static [&'static str], Option<u32>),
}

const ASKED: &[(&str, Asked)] = &[
    (
        "dpoly solve s c",
        Asked::Solve(SolveWords {
            script: "s",
            cert: "c",
            options: USUAL,
        }),
    ),
    (
        "dpoly solve s c --delta-bits 1 --margin-bits 2 --least-bits=-0 --budget 0 --bound 1 --workers 1",
        Asked::Solve(SolveWords {
            script: "s",
            cert: "c",
            options: Options {
                delta_bits: 1,
                margin_bits: 2,
                least_bits: 0,
                budget: 0,
                workers: 1,
                bound: Some(1),
            },
        }),
    ),
    (
        "dpoly solve --workers=64 --bound=4294967295 s --budget=1048576 --least-bits=60 c --margin-bits=60 --delta-bits=30",
        Asked::Solve(SolveWords {
            script: "s",
            cert: "c",
            options: Options {
                delta_bits: 30,
                margin_bits: 60,
                least_bits: 60,
                budget: 1048576,
                workers: 64,
                bound: Some(4294967295),
            },
        }),
    ),
    (
        "dpoly solve s c --budget 007 --workers +1 --delta-bits +0019",
        Asked::Solve(SolveWords {
            script: "s",
            cert: "c",
            options: Options {
                delta_bits: 19,
                margin_bits: 20,
                least_bits: 20,
                budget: 7,
                workers: 1,
                bound: None,
            },
        }),
    ),
    (
        "dpoly solve - -",
        Asked::Solve(SolveWords {
            script: "-",
            cert: "-",
            options: USUAL,
        }),
    ),
    (
        "dpoly solve -- --help -c",
        Asked::Solve(SolveWords {
            script: "--help",
            cert: "-c",
            options: USUAL,
        }),
    ),
    (
        "dpoly check - c",
        Asked::Check(CheckWords {
            script: "-",
            cert: "c",
            bound: None,
        }),
    ),
    (
        "any check s - --bound 4294967295",
        Asked::Check(CheckWords {
            script: "s",
            cert: "-",
            bound: Some(4294967295),
        }),
    ),
    (
        "dpoly upgrade - c - --bound 1",
        Asked::Upgrade(UpgradeWords {
            script: "-",
            cert: "c",
            out: "-",
            bound: Some(1),
        }),
    ),
    (
        "dpoly demo 0 1 -",
        Asked::Demo(DemoWords {
            seed: 0,
            size: 1,
            cert: "-",
            options: USUAL,
        }),
    ),
    (
        "dpoly demo 18446744073709551615 10000 c --workers 64",
        Asked::Demo(DemoWords {
            seed: 18446744073709551615,
            size: 10000,
            cert: "c",
            options: Options {
                delta_bits: 10,
                margin_bits: 20,
                least_bits: 20,
                budget: 65536,
                workers: 64,
                bound: None,
            },
        }),
    ),
    (
        "dpoly join s o a b",
        Asked::Join("s", "o", &["a", "b"], None),
    ),
    (
        "dpoly join s o a b --bound 8",
        Asked::Join("s", "o", &["a", "b"], Some(8)),
    ),
    (
        "dpoly join - - a a a",
        Asked::Join("-", "-", &["a", "a", "a"], None),
    ),
    (
        "dpoly join s -- -o -a --",
        Asked::Join("s", "-o", &["-a", "--"], None),
    ),
    (
        "dpoly join s o a b c d -- e --list -a",
        Asked::Join("s", "o", &["a", "b", "c", "d", "e", "--list", "-a"], None),
    ),
];

// Whether the request is this one.
fn is_asked(found: &Request<'_>, asked: &Asked) -> bool {
    match (found, asked) {
        (Request::Solve(found), Asked::Solve(asked)) => found == asked,
        (Request::Check(found), Asked::Check(asked)) => found == asked,
        (Request::Upgrade(found), Asked::Upgrade(asked)) => found == asked,
        (Request::Demo(found), Asked::Demo(asked)) => found == asked,
        (Request::Join(found), Asked::Join(script, out, certs, bound)) => {
            found.script == *script
                && found.out == *out
                && found.certs.as_slice() == *certs
                && found.bound == *bound
        }
        _ => false,
    }
}

fn ask(alloc: Global, words: &[String], asked: &Asked) -> bool {
    match read_words(alloc, words) {
        Ok(found) => is_asked(&found, asked),
        Err(_) => false,
    }
}

// Whether the line asks for this.
fn asks(alloc: Global, line: &str, asked: &Asked) -> bool {
    match words_of(alloc, line) {
        Ok(words) => ask(alloc, &words, asked),
        Err(_) => false,
    }
}

#[test]
fn commands_are_asked(rt: HostRuntime) {
    for (line, asked) in ASKED {
        assert!(rt; asks(rt.alloc(), line, asked), "{line}");
    }
}

// ---- what the checker is asked

// Lines of words for the checker, and what they ask for; none where they are refused.
const CHECKED: &[(&str, Option<CheckWords<'static>>)] = &[
    (
        "dpoly-check s -",
        Some(CheckWords {
            script: "s",
            cert: "-",
            bound: None,
        }),
    ),
    (
        "any --bound=4294967295 check c",
        Some(CheckWords {
            script: "check",
            cert: "c",
            bound: Some(4294967295),
        }),
    ),
    ("dpoly-check", None),
    ("dpoly-check s", None),
    ("dpoly-check check s c", None),
    ("dpoly-check - -", None),
    ("dpoly-check s c --bound 0", None),
    ("dpoly-check s c --workers 1", None),
    ("dpoly-check --help", None),
    ("dpoly-check --version", None),
];

fn check(alloc: Global, words: &[String], asked: &Option<CheckWords<'static>>) -> bool {
    match (read_checker_words(alloc, words), asked) {
        (Ok(found), Some(asked)) => found == *asked,
        (Err(Refused::Usage), None) => true,
        _ => false,
    }
}

// Whether the line asks the checker for this, or is refused for usage.
fn checks(alloc: Global, line: &str, asked: &Option<CheckWords<'static>>) -> bool {
    match words_of(alloc, line) {
        Ok(words) => check(alloc, &words, asked),
        Err(_) => false,
    }
}

#[test]
fn the_checker_is_asked(rt: HostRuntime) {
    for (line, asked) in CHECKED {
        assert!(rt; checks(rt.alloc(), line, asked), "{line}");
    }
}
