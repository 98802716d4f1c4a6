// What standard error says of a run that gave no answer, or one that a hint helps with: for people to read, and promised
// by no clause.
use crate::located::{assertion_with, goal_in_force};
use check_run::Status;
use command_line::{JoinWords, Request, read_words, usage_text};
use file_desk::{FileDesk, Messages, Unfinished};
use root_notes::say_conditional_roots;
use std::alloc::Global;

// The messages of a run on one script and one certificate.
fn messages<'a>(script: &'a str, cert: &'a str) -> Messages<'a> {
    Messages {
        program: "dpoly",
        script,
        cert_in: cert,
        cert_out: cert,
    }
}

// The certificate that the answer of `join` numbers, from 1 on, in its first line; the joined one where it numbers none.
fn numbered<'a>(asked: &JoinWords<'a>, answer: &str) -> &'a str {
    let first = answer.lines().next().unwrap_or("");
    let number = match first.split_once("certificate ") {
        Some(("", number)) => number.parse::<usize>().unwrap_or(0),
        _ => 0,
    };
    match asked.certs.get(number.wrapping_sub(1)) {
        Some(name) => name,
        None => asked.out,
    }
}

// The messages of the run that the words ask for, which has this answer.
fn messages_of<'a>(alloc: Global, words: &'a [String], answer: &str) -> Messages<'a> {
    match read_words(alloc, words) {
        Ok(Request::Solve(asked)) => messages(asked.script, asked.cert),
        Ok(Request::Minimize(asked)) => messages(asked.script, asked.cert),
        Ok(Request::Check(asked)) => messages(asked.script, asked.cert),
        Ok(Request::Demo(asked)) => messages("the demo's script", asked.cert),
        Ok(Request::Upgrade(asked)) => Messages {
            cert_out: asked.out,
            ..messages(asked.script, asked.cert)
        },
        Ok(Request::Resume(asked)) => Messages {
            cert_out: asked.out,
            ..messages(asked.script, asked.cert)
        },
        Ok(Request::Join(asked)) => Messages {
            cert_out: asked.out,
            ..messages(asked.script, numbered(&asked, answer))
        },
        Ok(Request::Plan(asked)) => messages(asked.script, "-"),
        Err(_) => messages("-", "-"),
    }
}

// What would help, behind an answer of `minimize` or of another command that leaves a question open, by the first line of
// it.
const HINTS: [(bool, &str, &str); 7] = [
    (
        false,
        "plan none atom ",
        "no width of 60 bits or fewer is sure to decide this atom. A greater delta, a smaller margin, or tighter bounds of its constants may help",
    ),
    (
        false,
        "plan none axis ",
        "this constant (they count from 0, in the order of declaration) has a bound so large that its numbers stand too far apart for the width that the atoms need. Tighter bounds, a greater delta or a smaller margin may help",
    ),
    (
        false,
        "unknown width",
        "`dpoly plan`, with the same script and options, tells with which `--least-bits` this answer never comes",
    ),
    (
        false,
        "unknown budget ",
        "the budget is spent. A greater `--budget`, or tighter bounds of the constants, may help",
    ),
    (
        true,
        "unknown budget ",
        "the budget of all searches is spent. A greater `--budget` or a smaller `--gap-bits` may help",
    ),
    (
        true,
        "unknown width",
        "at a box of the least width the script, or a limit of its goal, is not decided. More `--least-bits` may help",
    ),
    (
        true,
        "unknown limit",
        "no limit of the goal between these bounds can be told, or the script is too large for one. A smaller `--gap-bits` may help",
    ),
];

// What would help with a script that is refused, by how the answer begins.
const SCRIPT_HINTS: [(&str, &str); 3] = [
    (
        "script fault 9 ",
        "where the constants lie between their bounds a divisor of this quotient may be 0, also where a condition around the quotient does not hold, or it holds an `ite` or a root. Tighter bounds of its constants may help",
    ),
    (
        "script fault 12 BoundTooWide sqrt(",
        "where the constants lie between their bounds the argument of this root has no upper end, or one that is too large. Tighter bounds of its constants may help",
    ),
    (
        "script fault 12 BoundTooWide quotient(",
        "where the constants lie between their bounds this quotient has an end that is too large. Tighter bounds of its constants may help",
    ),
];

// The first lines of answers: each whole, or up to a number.
const FIRST_LINES: [&str; 7] = [
    "unsat",
    "delta-sat",
    "minimum",
    "unknown width",
    "unknown limit",
    "unknown budget ",
    "plan ",
];

// Whether the line is the first one of a check's answer. A line of an axis has a number or a truth behind its name.
fn begins_answer(line: &str) -> bool {
    for first in &FIRST_LINES {
        if line == *first || first.ends_with(" ") && line.starts_with(*first) {
            return true;
        }
    }
    false
}

// The number of the atom that a line names.
fn atom_named(line: &str) -> Option<usize> {
    let (_, number) = line.split_once("atom ")?;
    number.parse::<usize>().ok()
}

// A check by its number, from 0 on, of so many, and whether the answer is one of `minimize`.
#[derive(Clone, Copy)]
struct Which {
    check: usize,
    checks: usize,
    least: bool,
}

// Whether the words ask for `minimize`.
fn asks_least(alloc: Global, words: &[String]) -> bool {
    match read_words(alloc, words) {
        Ok(Request::Minimize(_)) => true,
        _ => false,
    }
}

// The certificate that the search of these words leaves.
fn searched<'a>(alloc: Global, words: &'a [String]) -> Option<Unfinished<'a>> {
    let (script, cert, bound) = match read_words(alloc, words) {
        Ok(Request::Solve(asked)) => (asked.script, asked.cert, asked.options.bound),
        Ok(Request::Resume(asked)) => (asked.script, asked.out, asked.bound),
        _ => return None,
    };
    Some(Unfinished {
        script,
        cert,
        bound,
    })
}

// The certificate that these words have checked, or have gone on with in part.
fn looked_at<'a>(alloc: Global, words: &'a [String]) -> Option<Unfinished<'a>> {
    let (script, cert, bound) = match read_words(alloc, words) {
        Ok(Request::Check(asked)) => (asked.script, asked.cert, asked.bound),
        Ok(Request::Join(asked)) => (asked.script, asked.out, asked.bound),
        Ok(Request::Resume(asked)) => (asked.script, asked.out, asked.bound),
        _ => return None,
    };
    Some(Unfinished {
        script,
        cert,
        bound,
    })
}

// Says of which check the next line is, where there are several.
fn show_check(rt: &HostRuntime, which: Which) {
    if which.checks > 1 {
        let number = which.check.saturating_add(1);
        let _ = eprintln!(rt; "dpoly: check {number} of {}:", which.checks);
    }
}

// Says where the atom that a line names first stands in the script.
fn show_atom(rt: &HostRuntime, messages: &Messages<'_>, desk: &FileDesk, line: &str, check: usize) {
    let Some(atom) = atom_named(line) else {
        return;
    };
    let Some(script) = messages.script_text(rt, desk) else {
        return;
    };
    if let Some(place) = assertion_with(rt.alloc(), &script, check, atom) {
        let (line, column) = (place.line as usize, place.column as usize);
        let _ = eprintln!(rt; "dpoly: atom {atom} first stands in this assertion, {line}:{column}");
        messages.show_place(rt, &script, line, column);
    }
}

// Says what would help with the answer that begins with this line.
fn show_hint(rt: &HostRuntime, line: &str, which: Which) {
    for (least, begins, help) in &HINTS {
        if *least == which.least && line.starts_with(*begins) {
            show_check(rt, which);
            let _ = eprintln!(rt; "dpoly: {help}");
        }
    }
}

// Says what is left of a check whose answer begins with this line, and of the only check how to go on.
fn show_left(rt: &HostRuntime, unfinished: &Unfinished<'_>, line: &str, which: Which) {
    if line.starts_with("unknown ") {
        unfinished.say_left(rt, which.check);
        if which.checks == 1 && line.starts_with("unknown budget ") {
            unfinished.say_resume(rt);
        }
    }
}

// How many checks an answer of `check` or `join` tells of, in which no names stand.
fn checks_told(answer: &str) -> usize {
    let mut count = 0usize;
    for line in answer.lines() {
        if line.starts_with("open ") || line.starts_with("confirmed ") {
            count = count.saturating_add(1);
        }
    }
    count
}

// Says what a certificate that was checked, or resumed in part, leaves, where it is one of one check.
fn show_open(rt: &HostRuntime, unfinished: &Unfinished<'_>, answer: &str) {
    if answer.starts_with("part ") {
        unfinished.say_left(rt, 0);
        let _ = eprintln!(rt; "dpoly: `dpoly join` makes one certificate of those of all parts");
    } else if answer.starts_with("open ") && checks_told(answer) == 1 {
        unfinished.say_left(rt, 0);
        unfinished.say_resume(rt);
    }
}

// How many checks are answered.
fn answers_in(answer: &str) -> usize {
    let mut count = 0usize;
    for line in answer.lines() {
        if begins_answer(line) {
            count = count.saturating_add(1);
        }
    }
    count
}

// Says what would help, behind the first line of a check's answer.
fn show_help(
    rt: &HostRuntime,
    messages: &Messages<'_>,
    desk: &FileDesk,
    unfinished: &Option<Unfinished<'_>>,
    line: &str,
    which: Which,
) {
    show_hint(rt, line, which);
    if let Some(unfinished) = unfinished {
        show_left(rt, unfinished, line, which);
    }
    if line.starts_with("plan none atom ") {
        show_atom(rt, messages, desk, line, which.check);
    }
}

// Says on standard error what would help, behind each answer that leaves a question open.
fn hint(rt: &HostRuntime, words: &[String], messages: &Messages<'_>, desk: &FileDesk) {
    let mut which = Which {
        check: 0,
        checks: answers_in(desk.answer()),
        least: asks_least(rt.alloc(), words),
    };
    let unfinished = searched(rt.alloc(), words);
    let mut names_atom = false;
    for line in desk.answer().lines() {
        if names_atom {
            let check = which.check.saturating_sub(1);
            show_atom(rt, messages, desk, line, check);
        }
        names_atom = line == "unknown width";
        if begins_answer(line) {
            show_help(rt, messages, desk, &unfinished, line, which);
            which.check = which.check.saturating_add(1);
        }
    }
    if let Some(unfinished) = looked_at(rt.alloc(), words) {
        show_open(rt, &unfinished, desk.answer());
    }
}

// Says what would help with a script that is refused.
fn script_hint(rt: &HostRuntime, messages: &Messages<'_>, desk: &FileDesk) {
    if desk.answer().starts_with("script fault 17 NoGoal ") {
        say_no_goal(rt, messages, desk);
    }
    for (begins, help) in &SCRIPT_HINTS {
        if desk.answer().starts_with(*begins) {
            let _ = eprintln!(rt; "dpoly: {help}");
        }
    }
}

// Says of a script for which `minimize` has no goal whether one is in force.
fn say_no_goal(rt: &HostRuntime, messages: &Messages<'_>, desk: &FileDesk) {
    let Some(script) = messages.script_text(rt, desk) else {
        return;
    };
    match goal_in_force(rt.alloc(), &script) {
        Some(place) => {
            let (line, column) = (place.line as usize, place.column as usize);
            let _ = eprintln!(rt; "dpoly: an ite of Reals stands in the goal, {line}:{column}");
            messages.show_place(rt, &script, line, column);
            let _ = eprintln!(rt;
                "dpoly: name its value by a constant z with bounds, (assert (= z (ite c a b))), and ask for (minimize z)"
            );
        }
        None => {
            let _ = eprintln!(rt;
                "dpoly: no goal, as (minimize (+ x y)), is in force at the check"
            );
        }
    }
}

// Whether the words name a script.
fn names_script(alloc: Global, words: &[String]) -> bool {
    match read_words(alloc, words) {
        Ok(Request::Demo(_)) | Err(_) => false,
        _ => true,
    }
}

// Says which roots of the script stand under conditions.
fn show_roots(rt: &HostRuntime, words: &[String], messages: &Messages<'_>, desk: &FileDesk) {
    if !names_script(rt.alloc(), words) {
        return;
    }
    if let Some(script) = messages.script_text(rt, desk) {
        say_conditional_roots(rt, "dpoly", &script);
    }
}

/// Says on standard error why the run of these words gave no answer: which word is wrong, or the help; which file could
/// not be read or written; where the script, or the certificate, is refused. Behind an answer it says which roots of the
/// script stand under conditions, behind one that leaves a question open what would help, and behind each the numbers of
/// its point, box or bounds as decimals.
pub fn explain(rt: &HostRuntime, words: &[String], desk: &FileDesk, status: Status) {
    let messages = messages_of(rt.alloc(), words, desk.answer());
    match status {
        Status::Answered => {
            show_roots(rt, words, &messages, desk);
            hint(rt, words, &messages, desk);
            messages.decimals(rt, desk);
        }
        Status::Usage => {
            if let Ok(text) = usage_text(rt.alloc(), words) {
                let _ = rt.eprint(text);
            }
        }
        Status::ScriptRefused => {
            messages.script_refused(rt, desk);
            script_hint(rt, &messages, desk);
        }
        Status::CertRefused => {
            messages.cert_refused(rt, desk);
            show_roots(rt, words, &messages, desk);
        }
        Status::InFailed | Status::OutFailed => messages.port_failed(rt, desk),
        Status::NoMemory => messages.no_memory(rt),
    }
}
