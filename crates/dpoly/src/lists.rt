// `--list FILE` of `join`: the names of certificates from a file, one a line. What is promised is promised of the words
// with the names in its place.
use check_run::Status;
use file_desk::printable;
use std::alloc::{AllocError, Global};
use std::io::{self, ErrorKind};
use std::{fs, mem};

// What the next word is.
#[derive(Clone, Copy)]
enum Next {
    Word,
    // The name of a list.
    List,
    // A word behind `--`.
    Rest,
}

// Whether the words call `join`.
fn calls_join(words: &[String]) -> bool {
    match words {
        [_, name, ..] => name.as_str() == "join",
        _ => false,
    }
}

// Says why a list cannot be read.
fn say_unread(rt: &HostRuntime, name: &str, error: &io::Error) {
    if let Ok(name) = printable(rt.alloc(), name) {
        let _ = eprintln!(rt; "dpoly: cannot read {name}: {error}");
    }
}

// The text of a list; where it cannot be read, the status of the run.
fn text_of(rt: &HostRuntime, name: &str) -> Result<String, Status> {
    match fs::read_to_string(rt, name) {
        Ok(text) => Ok(text),
        Err(error) => match error.kind() {
            ErrorKind::OutOfMemory => Err(Status::NoMemory),
            _ => {
                say_unread(rt, name, &error);
                Err(Status::InFailed)
            }
        },
    }
}

fn push_word(alloc: Global, word: &str, words: &mut Vec<String>) -> Result<(), AllocError> {
    words.push(word.to_string(alloc)?)?;
    Ok(())
}

// Adds a name as a word that the parser takes for no option.
fn push_name(alloc: Global, name: &str, words: &mut Vec<String>) -> Result<(), AllocError> {
    if name.starts_with("-") && name != "-" {
        words.push(format!(in alloc; "./{name}")?)?;
        Ok(())
    } else {
        push_word(alloc, name, words)
    }
}

fn push_names(alloc: Global, text: &str, words: &mut Vec<String>) -> Result<(), AllocError> {
    for name in text.lines() {
        if !name.is_empty() {
            push_name(alloc, name, words)?;
        }
    }
    Ok(())
}

// The status where there is no memory.
fn taken(pushed: Result<(), AllocError>) -> Result<(), Status> {
    match pushed {
        Ok(()) => Ok(()),
        Err(_) => Err(Status::NoMemory),
    }
}

// Adds the names in a file.
fn push_list(rt: &HostRuntime, file: &str, words: &mut Vec<String>) -> Result<(), Status> {
    let text = text_of(rt, file)?;
    taken(push_names(rt.alloc(), &text, words))
}

// Adds a word that stays as it is, and tells what the one behind it is.
fn push_other(
    alloc: Global,
    next: Next,
    word: &str,
    words: &mut Vec<String>,
) -> Result<Next, Status> {
    if let Next::List = next {
        taken(push_word(alloc, "--list", words))?;
    }
    taken(push_word(alloc, word, words))?;
    Ok(if word == "--" { Next::Rest } else { next })
}

// Adds a word, or what stands in its place, and tells what the one behind it is.
fn push_next(
    rt: &HostRuntime,
    next: Next,
    word: &str,
    words: &mut Vec<String>,
) -> Result<Next, Status> {
    match next {
        Next::List if word != "--" => {
            push_list(rt, word, words)?;
            Ok(Next::Word)
        }
        Next::Word if word == "--list" => Ok(Next::List),
        Next::Word => match word.strip_prefix("--list=") {
            Some(file) => {
                push_list(rt, file, words)?;
                Ok(Next::Word)
            }
            None => push_other(rt.alloc(), next, word, words),
        },
        _ => push_other(rt.alloc(), next, word, words),
    }
}

// Adds all the words, each list replaced by its names.
fn push_all(rt: &HostRuntime, from: &[String], words: &mut Vec<String>) -> Result<(), Status> {
    let mut next = Next::Word;
    for word in from {
        next = push_next(rt, next, word.as_str(), words)?;
    }
    match next {
        Next::List => taken(push_word(rt.alloc(), "--list", words)),
        Next::Word | Next::Rest => Ok(()),
    }
}

/// Puts the names in FILE in the place of `--list FILE` and `--list=FILE` among the words of `join`, up to `--`. Where a
/// file cannot be read it says so on standard error, and answers the status with which the run ends.
pub fn resolve_lists(rt: &HostRuntime, words: &mut Vec<String>) -> Result<(), Status> {
    if !calls_join(words) {
        return Ok(());
    }
    let mut all = Vec::new(rt.alloc());
    let answer = push_all(rt, words, &mut all);
    drop(mem::replace(words, all));
    answer
}
