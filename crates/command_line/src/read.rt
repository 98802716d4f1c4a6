ghost use Rattle.std.specs.Prelude.{◌≡◌, ◌≢◌, ◌&&◌, [], IfOk, IsErrOf, None, Some, codes, option_and_then, option_map};
ghost use Rattle.std.specs.Str.{bytes_eq};
ghost use Rattle.clap.specs.Words.{all_of, fault_of, first_of, found_of, kind_of, one_of, rows_of, subcommand_rows_of};
ghost use Rattle.command_line.specs.Program.{checker, program};
ghost use Rattle.command_line.specs.Words.{are_files, is_file, check_of, checker_of, chosen, chosen_other, command_of, demo_of, join_of, long_number_in, minimize_of, number_in, number_of, options_of, IsInRange, ordered_share, parts_of, plan_of, resume_of, share_by, share_of, share_in, solve_of, upgrade_of};
ghost use Rattle.command_line.specs.Seen.{AreCheckerMatchesOf, AreMatchesOf, seen, seen_check, seen_demo, seen_join, seen_minimize, seen_names, seen_plan, seen_resume, seen_share, seen_solve, seen_upgrade, texts_behind, texts_of};

use crate::program::{checker_command, program_command};
use crate::request::{
    CheckWords, DemoWords, JoinWords, MinimizeWords, Options, PlanWords, Request, ResumeWords,
    Share, SolveWords, UpgradeWords, usual_options,
};
use clap::error::ErrorKind;
use clap::{ArgMatches, Error};
use std::alloc::Global;

/// Why words are refused: they are not the program's, or there was no memory to read them.
#[derive(Clone, Copy, Debug, PartialEq, Eq)]
pub enum Refused {
    Usage,
    Memory,
}

// What the parser makes of the words.
fn parse<'a>(alloc: Global, words: &'a [String]) -> Result<ArgMatches<'a>, Refused>
    ensures ok { IfOk result (AreMatchesOf words.entry.now) }
    ensures usage { IsErrOf result Refused.Usage →
        fault_of program (texts_of words.entry.now) ≢ [] }
{
    let Ok(command) = program_command(alloc) else {
        return Err(Refused::Memory);
    };
    match command.try_get_matches_from(words) {
        Ok(matches) => Ok(matches),
        Err(error) => Err(refusal(&error)),
    }
}

// What the parser makes of the words of the checker's call.
fn parse_checker<'a>(alloc: Global, words: &'a [String]) -> Result<ArgMatches<'a>, Refused>
    ensures ok { IfOk result (AreCheckerMatchesOf words.entry.now) }
    ensures usage { IsErrOf result Refused.Usage →
        fault_of checker (texts_of words.entry.now) ≢ [] }
{
    let Ok(command) = checker_command(alloc) else {
        return Err(Refused::Memory);
    };
    match command.try_get_matches_from(words) {
        Ok(matches) => Ok(matches),
        Err(error) => Err(refusal(&error)),
    }
}

// Words are refused apart where there was no memory to read them.
fn refusal(error: &Error) -> Refused
    ensures usage { result ≡ Refused.Usage → kind_of error.now ≢ ErrorKind.OutOfMemory }
{
    match error.kind() {
        ErrorKind::OutOfMemory => Refused::Memory,
        _ => Refused::Usage,
    }
}

// What was given for an option or a place, as a number.
fn whole_number(matches: &ArgMatches<'_>, id: &str) -> Option<u32>
    ensures { result ≡
        option_and_then (number_of 32) (one_of id.now (rows_of (found_of matches.now))) }
{
    matches.get_one::<u32>(id)
}

// The number in the range that was given for an option or a place.
fn number(matches: &ArgMatches<'_>, id: &str, least: u32, most: u32) -> Option<u32>
    ensures { result ≡ number_in least most id.now (rows_of (found_of matches.now)) }
{
    let number = whole_number(matches, id)?;
    if least <= number && number <= most {
        Some(number)
    } else {
        None
    }
}

// The number below 2 ^ 64 that was given for a place.
fn long_number(matches: &ArgMatches<'_>, id: &str) -> Option<u64>
    ensures { result ≡ long_number_in id.now (rows_of (found_of matches.now)) }
{
    matches.get_one::<u64>(id)
}

// The word that stands for a place.
fn text<'a>(matches: &ArgMatches<'a>, id: &str) -> Option<&'a str>
    ensures { option_map (λ s. s.now) result ≡ first_of id.now (rows_of (found_of matches.now)) }
{
    matches.get_str(id)
}

fn solve_options(matches: &ArgMatches<'_>) -> Option<Options>
    ensures { result ≡ options_of (rows_of (found_of matches.now)) }
{
    let delta_bits = number(matches, "delta-bits", 1, 30)?;
    let margin_bits = number(matches, "margin-bits", 2, 60)?;
    let least_bits = number(matches, "least-bits", 0, 60)?;
    let budget = number(matches, "budget", 0, 1048576)?;
    let workers = number(matches, "workers", 1, 64)?;
    let bound = number(matches, "bound", 1, 4294967295);
    if delta_bits < margin_bits {
        Some(Options {
            delta_bits,
            margin_bits,
            least_bits,
            budget,
            workers,
            bound,
        })
    } else {
        None
    }
}

fn solve_words<'a>(matches: &ArgMatches<'a>) -> Option<SolveWords<'a>>
    ensures { option_map seen_solve result ≡ solve_of (rows_of (found_of matches.now)) }
{
    let script = text(matches, "script")?;
    let cert = text(matches, "cert")?;
    let options = solve_options(matches)?;
    Some(SolveWords {
        script,
        cert,
        options,
    })
}

fn minimize_words<'a>(matches: &ArgMatches<'a>) -> Option<MinimizeWords<'a>>
    ensures { option_map seen_minimize result ≡ minimize_of (rows_of (found_of matches.now)) }
{
    let script = text(matches, "script")?;
    let cert = text(matches, "cert")?;
    let gap_bits = number(matches, "gap-bits", 0, 30)?;
    let options = solve_options(matches)?;
    Some(MinimizeWords {
        script,
        cert,
        gap_bits,
        options,
    })
}

// Whether the script and the certificate both come from standard input.
fn are_both_piped(script: &str, cert: &str) -> bool
    ensures { result ≡ (bytes_eq script.now (codes "-") && bytes_eq cert.now (codes "-")) }
{
    script == "-" && cert == "-"
}

fn check_words<'a>(matches: &ArgMatches<'a>) -> Option<CheckWords<'a>>
    ensures { option_map seen_check result ≡ check_of (rows_of (found_of matches.now)) }
{
    let script = text(matches, "script")?;
    let cert = text(matches, "cert")?;
    let bound = number(matches, "bound", 1, 4294967295);
    if are_both_piped(script, cert) {
        return None;
    }
    Some(CheckWords {
        script,
        cert,
        bound,
    })
}

fn demo_words<'a>(matches: &ArgMatches<'a>) -> Option<DemoWords<'a>>
    ensures { option_map seen_demo result ≡ demo_of (rows_of (found_of matches.now)) }
{
    let seed = long_number(matches, "seed")?;
    let size = number(matches, "size", 1, 10000)?;
    let cert = text(matches, "cert")?;
    let workers = number(matches, "workers", 1, 64)?;
    Some(DemoWords {
        seed,
        size,
        cert,
        options: usual_options(workers),
    })
}

fn upgrade_words<'a>(matches: &ArgMatches<'a>) -> Option<UpgradeWords<'a>>
    ensures { option_map seen_upgrade result ≡ upgrade_of (rows_of (found_of matches.now)) }
{
    let script = text(matches, "script")?;
    let cert = text(matches, "cert")?;
    let out = text(matches, "out")?;
    let bound = number(matches, "bound", 1, 4294967295);
    if are_both_piped(script, cert) {
        return None;
    }
    Some(UpgradeWords {
        script,
        cert,
        out,
        bound,
    })
}

fn plan_words<'a>(matches: &ArgMatches<'a>) -> Option<PlanWords<'a>>
    ensures { option_map seen_plan result ≡ plan_of (rows_of (found_of matches.now)) }
{
    let script = text(matches, "script")?;
    let delta_bits = number(matches, "delta-bits", 1, 30)?;
    let margin_bits = number(matches, "margin-bits", 2, 60)?;
    let bound = number(matches, "bound", 1, 4294967295);
    if delta_bits >= margin_bits {
        return None;
    }
    Some(PlanWords {
        script,
        delta_bits,
        margin_bits,
        bound,
    })
}

// The number that the text writes.
fn numeral(text: &str) -> Option<u32>
    ensures { result ≡ number_of 32 text.now }
{
    text.parse::<u32>().ok()
}

// What stands before the first slash, and behind it.
fn parts(text: &str) -> Option<(&str, &str)>
    ensures { option_map (λ x. (x.0.now, x.1.now)) result ≡ parts_of text.now }
{
    text.split_once('/')
}

// The share of these numbers.
fn ordered(number: u32, count: u32) -> Option<Share>
    ensures { option_map seen_share result
        ≡ ordered_share (record { number = number; count = count }) }
{
    if 1 <= number && number <= count && count <= 1_000_000 {
        Some(Share { number, count })
    } else {
        None
    }
}

// The share whose numbers the texts write.
fn share_by(number: &str, count: &str) -> Option<Share>
    ensures { option_map seen_share result ≡ share_by number.now count.now }
{
    let number = numeral(number)?;
    let count = numeral(count)?;
    ordered(number, count)
}

// The share that the text writes, as I/N.
fn share(text: &str) -> Option<Share>
    ensures { option_map seen_share result ≡ share_of text.now }
{
    let (number, count) = parts(text)?;
    share_by(number, count)
}

// The share that was given.
fn share_word(matches: &ArgMatches<'_>) -> Option<Share>
    ensures { option_map seen_share result ≡ share_in (rows_of (found_of matches.now)) }
{
    share(text(matches, "part")?)
}

fn resume_words<'a>(matches: &ArgMatches<'a>) -> Option<ResumeWords<'a>>
    ensures { option_map seen_resume result ≡ resume_of (rows_of (found_of matches.now)) }
{
    let script = text(matches, "script")?;
    let cert = text(matches, "cert")?;
    let out = text(matches, "out")?;
    let share = share_word(matches)?;
    let least_bits = number(matches, "least-bits", 0, 60)?;
    let budget = number(matches, "budget", 0, 1048576)?;
    let bound = number(matches, "bound", 1, 4294967295);
    let workers = number(matches, "workers", 1, 64)?;
    if are_both_piped(script, cert) {
        return None;
    }
    Some(ResumeWords {
        script,
        cert,
        out,
        share,
        least_bits,
        budget,
        bound,
        workers,
    })
}

// All the words that stand for a place.
fn texts<'m, 'a>(matches: &'m ArgMatches<'a>, id: &str) -> Option<&'m [&'a str]>
    ensures { option_map (λ s. texts_behind s.now) result
        ≡ all_of id.now (rows_of (found_of matches.now)) }
{
    matches.get_strs(id)
}

// Whether the name is that of a file, and not of standard input.
fn is_file(name: &str) -> bool
    ensures { result ≡ is_file name.now }
{
    name != "-"
}

fn are_files(names: &[&str]) -> bool
    ensures { result ≡ are_files (texts_behind names.now) }
{
    names.iter().all(|name| is_file(name))
}

// The names that `join` is asked for.
#[derive(Clone, Copy)]
struct JoinNames<'m, 'a> {
    script: &'a str,
    out: &'a str,
    certs: &'m [&'a str],
    bound: Option<u32>,
}

fn join_names<'m, 'a>(matches: &'m ArgMatches<'a>) -> Option<JoinNames<'m, 'a>>
    ensures { option_map seen_names result ≡ join_of (rows_of (found_of matches.now)) }
{
    let script = text(matches, "script")?;
    let out = text(matches, "out")?;
    let certs = texts(matches, "cert")?;
    let bound = number(matches, "bound", 1, 4294967295);
    if 2 <= certs.len() && certs.len() <= 1_000_000 && are_files(certs) {
        Some(JoinNames {
            script,
            out,
            certs,
            bound,
        })
    } else {
        None
    }
}

fn join_words<'a>(alloc: Global, matches: &ArgMatches<'a>) -> Result<JoinWords<'a>, Refused>
    ensures ok { IfOk result (λ asked.
        join_of (rows_of (found_of matches.now)) ≡ Some (seen_join asked)) }
    ensures usage { IsErrOf result Refused.Usage →
        join_of (rows_of (found_of matches.now)) ≡ None }
{
    let Some(names) = join_names(matches) else {
        return Err(Refused::Usage);
    };
    match Vec::from_slice(alloc, names.certs) {
        Ok(certs) => Ok(JoinWords {
            script: names.script,
            out: names.out,
            certs,
            bound: names.bound,
        }),
        Err(_) => Err(Refused::Memory),
    }
}

// What the subcommand of this name, which is not `join`, asks for.
fn choose<'a>(name: &str, matches: &ArgMatches<'a>) -> Option<Request<'a>>
    ensures { option_map seen result ≡ chosen_other (name.now, rows_of (found_of matches.now)) }
{
    if name == "solve" {
        Some(Request::Solve(solve_words(matches)?))
    } else if name == "minimize" {
        Some(Request::Minimize(minimize_words(matches)?))
    } else if name == "check" {
        Some(Request::Check(check_words(matches)?))
    } else if name == "demo" {
        Some(Request::Demo(demo_words(matches)?))
    } else if name == "upgrade" {
        Some(Request::Upgrade(upgrade_words(matches)?))
    } else if name == "plan" {
        Some(Request::Plan(plan_words(matches)?))
    } else if name == "resume" {
        Some(Request::Resume(resume_words(matches)?))
    } else {
        None
    }
}

// What the subcommand of this name asks for.
fn asked_of<'a>(alloc: Global, name: &str, matches: &ArgMatches<'a>) -> Result<Request<'a>, Refused>
    ensures ok { IfOk result (λ asked.
        chosen (name.now, rows_of (found_of matches.now)) ≡ Some (seen asked)) }
    ensures usage { IsErrOf result Refused.Usage →
        chosen (name.now, rows_of (found_of matches.now)) ≡ None }
{
    if name == "join" {
        match join_words(alloc, matches) {
            Ok(asked) => Ok(Request::Join(asked)),
            Err(refused) => Err(refused),
        }
    } else {
        match choose(name, matches) {
            Some(asked) => Ok(asked),
            None => Err(Refused::Usage),
        }
    }
}

// What the subcommand that was met asks for.
fn asked_in<'a>(alloc: Global, matches: &ArgMatches<'a>) -> Result<Request<'a>, Refused>
    ensures ok { IfOk result (λ asked.
        option_and_then chosen (subcommand_rows_of matches.now) ≡ Some (seen asked)) }
    ensures usage { IsErrOf result Refused.Usage →
        option_and_then chosen (subcommand_rows_of matches.now) ≡ None }
{
    match matches.subcommand() {
        Some((name, inner)) => asked_of(alloc, name, inner),
        None => Err(Refused::Usage),
    }
}

/// Reads the words of a call; the first of them is the program's name.
///
/// Refused for usage exactly where `command_of` has nothing, `--help` and the like included. Out of memory is a refusal of
/// its own.
pub fn read_words<'a>(alloc: Global, words: &'a [String]) -> Result<Request<'a>, Refused>
    ensures ok { IfOk result (λ asked. command_of (texts_of words.entry.now) ≡ Some (seen asked)) }
    ensures range { IfOk result (λ asked. IsInRange (seen asked)) }
    ensures usage { IsErrOf result Refused.Usage → command_of (texts_of words.entry.now) ≡ None }
{
    match parse(alloc, words) {
        Ok(matches) => asked_in(alloc, &matches),
        Err(refused) => Err(refused),
    }
}

/// Reads the words of a call of the checker; the first of them is its name.
///
/// Refused for usage exactly where `checker_of` has nothing, `--help` and the like included. Out of memory is a refusal of
/// its own.
pub fn read_checker_words<'a>(alloc: Global, words: &'a [String]) -> Result<CheckWords<'a>, Refused>
    ensures ok { IfOk result (λ asks.
        checker_of (texts_of words.entry.now) ≡ Some (seen_check asks)) }
    ensures usage { IsErrOf result Refused.Usage → checker_of (texts_of words.entry.now) ≡ None }
{
    let matches = match parse_checker(alloc, words) {
        Ok(matches) => matches,
        Err(refused) => return Err(refused),
    };
    match check_words(&matches) {
        Some(asked) => Ok(asked),
        None => Err(Refused::Usage),
    }
}
