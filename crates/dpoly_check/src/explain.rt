// What standard error says of a run that gave no answer: for people to read, and promised by no clause.
use check_run::Status;
use command_line::{checker_usage_text, read_checker_words};
use file_desk::{FileDesk, Messages};
use root_notes::say_conditional_roots;
use std::alloc::Global;

// The messages of the run that the words ask for.
fn messages_of<'a>(alloc: Global, words: &'a [String]) -> Messages<'a> {
    let (script, cert) = match read_checker_words(alloc, words) {
        Ok(asked) => (asked.script, asked.cert),
        Err(_) => ("-", "-"),
    };
    Messages {
        program: "dpoly-check",
        script,
        cert_in: cert,
        cert_out: "-",
    }
}

// Says which roots of the script stand under conditions.
fn show_roots(rt: &HostRuntime, messages: &Messages<'_>, desk: &FileDesk) {
    if let Some(script) = messages.script_text(rt, desk) {
        say_conditional_roots(rt, "dpoly-check", &script);
    }
}

/// Says on standard error why the run of these words gave no answer: which word is wrong, or the help; which file could
/// not be read; where the script, or the certificate, is refused. Behind an answer it says which roots of the script stand
/// under conditions, and the bounds of a least value as decimals.
pub fn explain(rt: &HostRuntime, words: &[String], desk: &FileDesk, status: Status) {
    let messages = messages_of(rt.alloc(), words);
    match status {
        Status::Answered => {
            show_roots(rt, &messages, desk);
            messages.decimals(rt, desk);
        }
        Status::Usage => {
            if let Ok(text) = checker_usage_text(rt.alloc(), words) {
                let _ = rt.eprint(text);
            }
        }
        Status::ScriptRefused => messages.script_refused(rt, desk),
        Status::CertRefused => {
            messages.cert_refused(rt, desk);
            show_roots(rt, &messages, desk);
        }
        Status::InFailed | Status::OutFailed => messages.port_failed(rt, desk),
        Status::NoMemory => messages.no_memory(rt),
    }
}
