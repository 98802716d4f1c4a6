ghost use Rattle.std.specs.Prelude.{◌≡◌, IfOk, false};
ghost use Rattle.clap.specs.Words.{rule_of, app_of, new_app};
ghost use Rattle.clap.specs.declared.builder.command.Command.TheViews.{out-Command as fields_of};
ghost use Rattle.command_line.specs.Program.{delta_rule, margin_rule, least_rule, budget_rule, bound_rule, workers_rule, share_rule, gap_rule, word_rule, certs_rule, seed_rule, size_rule, rule_in, with_parts, app_in, with_commands, checker, program};

use clap::{Arg, Command, value_parser};
use std::alloc::{AllocError, Global};

const USUAL_MARGIN: &str = "20";

const SCRIPT_HELP: &str = "The file of a script in SMT-LIB 2.6; - stands for standard input";

const CERT_HELP: &str =
    "The certificate's file; - stands for standard output, or input where it is read";

const OUT_HELP: &str = "The file of the certificate that is written";

const PROGRAM_LAST: &str = "\
A file named - is standard input or standard output.
`dpoly COMMAND --help` says which options a command has, `dpoly --version` the version.

Exit status: 0 answered; 1 the certificate, 2 the script, 3 the arguments are refused;
4 a file cannot be read; 5 a file cannot be written; 6 out of memory.";

const CHECKER_LAST: &str = "\
A file named - is standard input. `dpoly-check --version` says the version.

Exit status: 0 answered; 1 the certificate, 2 the script, 3 the arguments are refused;
4 a file cannot be read; 5 the answer cannot be written; 6 out of memory.

Example: dpoly-check braking.smt2 braking.cert";

/// A word or an option of a command.
#[derive(Clone, Copy)]
pub enum Part {
    Script,
    Cert,
    Certs,
    Out,
    Seed,
    Size,
    Delta,
    Margin,
    Least,
    Budget,
    Bound,
    Workers,
    Gap,
    Share,
}

/// A subcommand of the program.
#[derive(Clone, Copy)]
pub enum Name {
    Solve,
    Minimize,
    Check,
    Demo,
    Upgrade,
    Plan,
    Resume,
    Join,
}

fn delta_option<'a>(alloc: Global) -> Arg<'a>
    ensures rule { rule_of result ≡ delta_rule }
    ensures local { result.global ≡ false }
{
    Arg::new(alloc, "delta-bits")
        .long("delta-bits")
        .help("A point may miss each comparison by 2^-D; 1 to 30, and below the margin's")
        .value_parser(value_parser!(u32).range(1..=30))
        .default_value("10")
}

fn bound_option<'a>(alloc: Global) -> Arg<'a>
    ensures rule { rule_of result ≡ bound_rule }
    ensures local { result.global ≡ false }
{
    Arg::new(alloc, "bound")
        .long("bound")
        .help("Where a constant has no bound of its own, -N or N stands for it; 1 to 4294967295")
        .value_parser(value_parser!(u32).range(1..=4294967295))
}

fn margin_option<'a>(alloc: Global) -> Arg<'a>
    ensures rule { rule_of result ≡ margin_rule }
    ensures local { result.global ≡ false }
{
    Arg::new(alloc, "margin-bits")
        .long("margin-bits")
        .help("`unsat` holds with each comparison loosened by 2^-M; 2 to 60")
        .value_parser(value_parser!(u32).range(2..=60))
        .default_value(USUAL_MARGIN)
}

fn least_option<'a>(alloc: Global) -> Arg<'a>
    ensures rule { rule_of result ≡ least_rule }
    ensures local { result.global ≡ false }
{
    Arg::new(alloc, "least-bits")
        .long("least-bits")
        .help("A box is not cut where its widest side is at most 2^-W; 0 to 60")
        .value_parser(value_parser!(u32).range(0..=60))
        .default_value("20")
}

fn budget_option<'a>(alloc: Global) -> Arg<'a>
    ensures rule { rule_of result ≡ budget_rule }
    ensures local { result.global ≡ false }
{
    Arg::new(alloc, "budget")
        .long("budget")
        .help("At most N boxes are split; 0 to 1048576")
        .value_parser(value_parser!(u32).range(0..=1048576))
        .default_value("65536")
}

fn workers_option<'a>(alloc: Global) -> Arg<'a>
    ensures rule { rule_of result ≡ workers_rule }
    ensures local { result.global ≡ false }
{
    Arg::new(alloc, "workers")
        .long("workers")
        .help("The number of threads that search: 1 to 64, or auto for one a processor")
        .value_parser(value_parser!(u32).range(1..=64))
        .default_value("1")
}

fn gap_option<'a>(alloc: Global) -> Arg<'a>
    ensures rule { rule_of result ≡ gap_rule }
    ensures local { result.global ≡ false }
{
    Arg::new(alloc, "gap-bits")
        .long("gap-bits")
        .help("The least value is told to within 2^-G; 0 to 30")
        .value_parser(value_parser!(u32).range(0..=30))
        .default_value("10")
}

fn share_option<'a>(alloc: Global) -> Arg<'a>
    ensures rule { rule_of result ≡ share_rule }
    ensures local { result.global ≡ false }
{
    Arg::new(alloc, "part")
        .long("part")
        .help(
            "I/N: of the open states, counted from 1, number I and each Nth behind it; 1 <= I <= N <= 1000000",
        )
        .default_value("1/1")
}

// A word that has to be there, and its help.
fn word<'a>(alloc: Global, id: &'a str, help: &'a str) -> Arg<'a>
    ensures rule { rule_of result ≡ word_rule id.entry.now }
    ensures local { result.global ≡ false }
{
    Arg::new(alloc, id).required(true).help(help)
}

// The last words, two or more.
fn certs_word<'a>(alloc: Global) -> Arg<'a>
    ensures rule { rule_of result ≡ certs_rule }
    ensures local { result.global ≡ false }
{
    Arg::new(alloc, "cert")
        .required(true)
        .num_args(2..=1000000)
        .help(
            "From 2 to 1000000 certificates, each in a file; `--list FILE` stands for the names in FILE, one a line",
        )
}

fn seed_word<'a>(alloc: Global) -> Arg<'a>
    ensures rule { rule_of result ≡ seed_rule }
    ensures local { result.global ≡ false }
{
    Arg::new(alloc, "seed")
        .required(true)
        .help("A number below 2^64, of which the script is made")
        .value_parser(value_parser!(u64))
}

fn size_word<'a>(alloc: Global) -> Arg<'a>
    ensures rule { rule_of result ≡ size_rule }
    ensures local { result.global ≡ false }
{
    Arg::new(alloc, "size")
        .required(true)
        .help("How large the script is; 1 to 10000")
        .value_parser(value_parser!(u32).range(1..=10000))
}

fn arg_of<'a>(alloc: Global, part: Part) -> Arg<'a>
    ensures rule { rule_of result ≡ rule_in part }
    ensures local { result.global ≡ false }
{
    match part {
        Part::Script => word(alloc, "script", SCRIPT_HELP),
        Part::Cert => word(alloc, "cert", CERT_HELP),
        Part::Certs => certs_word(alloc),
        Part::Out => word(alloc, "out", OUT_HELP),
        Part::Seed => seed_word(alloc),
        Part::Size => size_word(alloc),
        Part::Delta => delta_option(alloc),
        Part::Margin => margin_option(alloc),
        Part::Least => least_option(alloc),
        Part::Budget => budget_option(alloc),
        Part::Bound => bound_option(alloc),
        Part::Workers => workers_option(alloc),
        Part::Gap => gap_option(alloc),
        Part::Share => share_option(alloc),
    }
}

// A command without arguments yet, and what its help says first and last.
fn described<'a>(alloc: Global, name: &'a str, about: &'a str, last: &'a str) -> Command<'a>
    ensures app { app_of result ≡ new_app name.entry.now }
    ensures local { (fields_of result).has_globals ≡ false }
{
    Command::new(alloc, name).about(about).after_help(last)
}

// The command with these parts, in their order.
fn with_parts<'a>(
    alloc: Global,
    command: Command<'a>,
    parts: &[Part],
) -> Result<Command<'a>, AllocError>
    requires { (fields_of command).has_globals ≡ false }
    ensures app { IfOk result (λ c. app_of c ≡ with_parts (app_of command.entry) parts.now) }
    ensures local { IfOk result (λ c. (fields_of c).has_globals ≡ false) }
{
    let mut command = command;
    for part in parts {
        command = command.arg(arg_of(alloc, *part))?;
    }
    Ok(command)
}

const SOLVE: [Part; 8] = [
    Part::Script,
    Part::Cert,
    Part::Delta,
    Part::Margin,
    Part::Least,
    Part::Budget,
    Part::Bound,
    Part::Workers,
];

const MINIMIZE: [Part; 9] = [
    Part::Script,
    Part::Cert,
    Part::Gap,
    Part::Delta,
    Part::Margin,
    Part::Least,
    Part::Budget,
    Part::Bound,
    Part::Workers,
];

const CHECK: [Part; 3] = [Part::Script, Part::Cert, Part::Bound];

const DEMO: [Part; 4] = [Part::Seed, Part::Size, Part::Cert, Part::Workers];

const UPGRADE: [Part; 4] = [Part::Script, Part::Cert, Part::Out, Part::Bound];

const PLAN: [Part; 4] = [Part::Script, Part::Delta, Part::Margin, Part::Bound];

const RESUME: [Part; 8] = [
    Part::Script,
    Part::Cert,
    Part::Out,
    Part::Share,
    Part::Least,
    Part::Budget,
    Part::Bound,
    Part::Workers,
];

const JOIN: [Part; 4] = [Part::Script, Part::Out, Part::Certs, Part::Bound];

fn solve_command<'a>(alloc: Global) -> Result<Command<'a>, AllocError>
    ensures app { IfOk result (λ c. app_of c ≡ app_in Name.Solve) }
    ensures local { IfOk result (λ c. (fields_of c).has_globals ≡ false) }
{
    let command = described(
        alloc,
        "solve",
        "Solves a script, and writes a certificate of the answer",
        "Example: dpoly solve braking.smt2 braking.cert",
    );
    with_parts(alloc, command, &SOLVE)
}

fn minimize_command<'a>(alloc: Global) -> Result<Command<'a>, AllocError>
    ensures app { IfOk result (λ c. app_of c ≡ app_in Name.Minimize) }
    ensures local { IfOk result (λ c. (fields_of c).has_globals ≡ false) }
{
    let command = described(
        alloc,
        "minimize",
        "Finds the least value of the goal of a script, and writes a certificate of it",
        "Example: dpoly minimize fuel.smt2 fuel.cert",
    );
    with_parts(alloc, command, &MINIMIZE)
}

fn check_command<'a>(alloc: Global) -> Result<Command<'a>, AllocError>
    ensures app { IfOk result (λ c. app_of c ≡ app_in Name.Check) }
    ensures local { IfOk result (λ c. (fields_of c).has_globals ≡ false) }
{
    let command = described(
        alloc,
        "check",
        "Checks a certificate of a script",
        "Example: dpoly check braking.smt2 braking.cert",
    );
    with_parts(alloc, command, &CHECK)
}

fn demo_command<'a>(alloc: Global) -> Result<Command<'a>, AllocError>
    ensures app { IfOk result (λ c. app_of c ≡ app_in Name.Demo) }
    ensures local { IfOk result (λ c. (fields_of c).has_globals ≡ false) }
{
    let command = described(
        alloc,
        "demo",
        "Makes a script from a seed, solves it, and writes a certificate",
        "Example: dpoly demo 1 100 demo.cert",
    );
    with_parts(alloc, command, &DEMO)
}

fn upgrade_command<'a>(alloc: Global) -> Result<Command<'a>, AllocError>
    ensures app { IfOk result (λ c. app_of c ≡ app_in Name.Upgrade) }
    ensures local { IfOk result (λ c. (fields_of c).has_globals ≡ false) }
{
    let command = described(
        alloc,
        "upgrade",
        "Checks a certificate of a script, and writes it in the newest format",
        "Example: dpoly upgrade braking.smt2 braking.cert braking.new.cert",
    );
    with_parts(alloc, command, &UPGRADE)
}

fn plan_command<'a>(alloc: Global) -> Result<Command<'a>, AllocError>
    ensures app { IfOk result (λ c. app_of c ≡ app_in Name.Plan) }
    ensures local { IfOk result (λ c. (fields_of c).has_globals ≡ false) }
{
    let command = described(
        alloc,
        "plan",
        "Tells the least width with which `solve` never answers `unknown width`",
        "Example: dpoly plan braking.smt2",
    );
    with_parts(alloc, command, &PLAN)
}

fn resume_command<'a>(alloc: Global) -> Result<Command<'a>, AllocError>
    ensures app { IfOk result (λ c. app_of c ≡ app_in Name.Resume) }
    ensures local { IfOk result (λ c. (fields_of c).has_globals ≡ false) }
{
    let command = described(
        alloc,
        "resume",
        "Checks a certificate of a script, goes on where it is open, and writes the whole",
        "Example: dpoly resume braking.smt2 braking.cert braking.more.cert",
    );
    with_parts(alloc, command, &RESUME)
}

fn join_command<'a>(alloc: Global) -> Result<Command<'a>, AllocError>
    ensures app { IfOk result (λ c. app_of c ≡ app_in Name.Join) }
    ensures local { IfOk result (λ c. (fields_of c).has_globals ≡ false) }
{
    let command = described(
        alloc,
        "join",
        "Makes one certificate of several of a script",
        "Example: dpoly join braking.smt2 braking.cert part1.cert part2.cert",
    );
    with_parts(alloc, command, &JOIN)
}

// The checker's command, as the definitions have it.
pub fn checker_command<'a>(alloc: Global) -> Result<Command<'a>, AllocError>
    ensures app { IfOk result (λ c. app_of c ≡ checker) }
    ensures local { IfOk result (λ c. (fields_of c).has_globals ≡ false) }
{
    let command = described(
        alloc,
        "dpoly-check",
        "Checks a certificate of a script of bounded polynomial constraints",
        CHECKER_LAST,
    );
    with_parts(alloc, command, &CHECK)
}

fn subcommand_of<'a>(alloc: Global, name: Name) -> Result<Command<'a>, AllocError>
    ensures app { IfOk result (λ c. app_of c ≡ app_in name) }
    ensures local { IfOk result (λ c. (fields_of c).has_globals ≡ false) }
{
    match name {
        Name::Solve => solve_command(alloc),
        Name::Minimize => minimize_command(alloc),
        Name::Check => check_command(alloc),
        Name::Demo => demo_command(alloc),
        Name::Upgrade => upgrade_command(alloc),
        Name::Plan => plan_command(alloc),
        Name::Resume => resume_command(alloc),
        Name::Join => join_command(alloc),
    }
}

// The command with these subcommands, in their order.
fn with_commands<'a>(
    alloc: Global,
    command: Command<'a>,
    names: &[Name],
) -> Result<Command<'a>, AllocError>
    requires { (fields_of command).has_globals ≡ false }
    ensures app { IfOk result (λ c. app_of c ≡ with_commands (app_of command.entry) names.now) }
    ensures local { IfOk result (λ c. (fields_of c).has_globals ≡ false) }
{
    let mut command = command;
    for name in names {
        command = command.subcommand(subcommand_of(alloc, *name)?)?;
    }
    Ok(command)
}

const NAMES: [Name; 8] = [
    Name::Solve,
    Name::Minimize,
    Name::Check,
    Name::Demo,
    Name::Upgrade,
    Name::Plan,
    Name::Resume,
    Name::Join,
];

// The program's command, as the definitions have it.
pub fn program_command<'a>(alloc: Global) -> Result<Command<'a>, AllocError>
    ensures app { IfOk result (λ c. app_of c ≡ program) }
    ensures local { IfOk result (λ c. (fields_of c).has_globals ≡ false) }
{
    let command = described(
        alloc,
        "dpoly",
        "Decides bounded polynomial constraints (SMT-LIB 2.6, QF_NRA), with certificates",
        PROGRAM_LAST,
    )
    .subcommand_required(true);
    with_commands(alloc, command, &NAMES)
}
