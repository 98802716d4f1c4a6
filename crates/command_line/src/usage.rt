// What to say to a user whose words are refused.
use crate::program::{checker_command, program_command};
use clap::ArgMatches;
use std::alloc::{AllocError, Global};

const VERSION: &str = "dpoly 2\n";

const CHECKER_VERSION: &str = "dpoly-check 2\n";

const NOT_BELOW: &str =
    "error: the number after '--delta-bits' must be below the one after '--margin-bits'\n";

const ONE_INPUT: &str =
    "error: the script and the certificate cannot both come from standard input\n";

const NO_SHARE: &str = "error: '--part' wants I/N, two numbers with 1 <= I <= N <= 1000000\n";

const PIPED_CERT: &str = "error: a certificate to join cannot come from standard input\n";

// Whether the words ask for the version alone.
fn asks_version(words: &[String]) -> bool {
    match words {
        [_, word] => word.as_str() == "--version" || word.as_str() == "-V",
        _ => false,
    }
}

// Why words that the parser takes are refused all the same.
fn second_refusal(matches: &ArgMatches<'_>) -> &'static str {
    match matches.subcommand() {
        Some(("check", _)) | Some(("upgrade", _)) => ONE_INPUT,
        Some(("join", _)) => PIPED_CERT,
        Some(("resume", inner)) => match (inner.get_str("script"), inner.get_str("cert")) {
            (Some("-"), Some("-")) => ONE_INPUT,
            _ => NO_SHARE,
        },
        _ => NOT_BELOW,
    }
}

/// The text to show for words that `read_words` refuses: the help or the version where they ask for it, else which
/// word is wrong and what is allowed. It is for people to read, and no clause says what it is.
pub fn usage_text(alloc: Global, words: &[String]) -> Result<String, AllocError> {
    if asks_version(words) {
        return VERSION.to_string(alloc);
    }
    let command = program_command(alloc)?;
    match command.try_get_matches_from(words) {
        Ok(matches) => second_refusal(&matches).to_string(alloc),
        Err(error) => format!(in alloc; "{error}"),
    }
}

/// The text to show for words that `read_checker_words` refuses, likewise.
pub fn checker_usage_text(alloc: Global, words: &[String]) -> Result<String, AllocError> {
    if asks_version(words) {
        return CHECKER_VERSION.to_string(alloc);
    }
    let command = checker_command(alloc)?;
    match command.try_get_matches_from(words) {
        Ok(_) => ONE_INPUT.to_string(alloc),
        Err(error) => format!(in alloc; "{error}"),
    }
}
