ghost use Rattle.std.specs.Prelude.{◌≡◌};
ghost use Rattle.command_line.specs.Words.{usual};

/// How a script is solved.
#[derive(Clone, Copy, Debug, PartialEq, Eq)]
pub struct Options {
    /// A point is answered where the script holds at it, loosened by two to the minus this many; from 1 to 30.
    pub delta_bits: u32,
    /// Unsat says that the script holds nowhere, even loosened by two to the minus this many; from 2 to 60.
    pub margin_bits: u32,
    /// A box whose sides are at most two to the minus this many is not cut; from 0 to 60.
    pub least_bits: u32,
    /// How many boxes may be cut at most; from 0 to 1,048,576.
    pub budget: u32,
    /// How many workers search side by side; from 1 to 64.
    pub workers: u32,
    /// The size up to which a constant without a bound of its own is looked at, where one is given; from 1.
    pub bound: Option<u32>,
}

/// What `solve` is asked for: the names of the script and of the certificate that is written, and the options.
#[derive(Clone, Copy, Debug, PartialEq, Eq)]
pub struct SolveWords<'a> {
    pub script: &'a str,
    pub cert: &'a str,
    pub options: Options,
}

/// What `minimize` is asked for: the names of the script and of the certificate that is written, and the options.
#[derive(Clone, Copy, Debug, PartialEq, Eq)]
pub struct MinimizeWords<'a> {
    pub script: &'a str,
    pub cert: &'a str,
    /// The least value is told to within two to the minus this many; from 0 to 30.
    pub gap_bits: u32,
    /// As for `solve`; the budget is that of all searches together.
    pub options: Options,
}

/// What `check` is asked for: the names of the script and of the certificate that is read.
#[derive(Clone, Copy, Debug, PartialEq, Eq)]
pub struct CheckWords<'a> {
    pub script: &'a str,
    pub cert: &'a str,
    /// The size up to which a constant without a bound of its own is looked at, where one is given; from 1.
    pub bound: Option<u32>,
}

/// What `demo` is asked for: the seed and the size, from 1 to 10,000, of the script that it makes, the name of the
/// certificate that is written, and the options.
#[derive(Clone, Copy, Debug, PartialEq, Eq)]
pub struct DemoWords<'a> {
    pub seed: u64,
    pub size: u32,
    pub cert: &'a str,
    pub options: Options,
}

/// What `upgrade` is asked for: the names of the script, of the certificate that is read, and of the one that is
/// written.
#[derive(Clone, Copy, Debug, PartialEq, Eq)]
pub struct UpgradeWords<'a> {
    pub script: &'a str,
    pub cert: &'a str,
    pub out: &'a str,
    /// The size up to which a constant without a bound of its own is looked at, where one is given; from 1.
    pub bound: Option<u32>,
}

/// What `plan` is asked for: the name of the script, and delta and margin.
#[derive(Clone, Copy, Debug, PartialEq, Eq)]
pub struct PlanWords<'a> {
    pub script: &'a str,
    /// As for `solve`.
    pub delta_bits: u32,
    /// As for `solve`, and more than `delta_bits`.
    pub margin_bits: u32,
    /// The size up to which a constant without a bound of its own is looked at, where one is given; from 1.
    pub bound: Option<u32>,
}

/// Which of the states that stay in a cover are searched: of them, counted from 0 in the order of their lines, those whose
/// number is `number - 1` modulo `count`.
#[derive(Clone, Copy, Debug, PartialEq, Eq)]
pub struct Share {
    /// From 1 to `count`.
    pub number: u32,
    /// At most 1,000,000.
    pub count: u32,
}

/// What `resume` is asked for: the names of the script, of the certificate that is read, and of the one that is written.
/// Margin and delta are those of the certificate.
#[derive(Clone, Copy, Debug, PartialEq, Eq)]
pub struct ResumeWords<'a> {
    pub script: &'a str,
    pub cert: &'a str,
    pub out: &'a str,
    pub share: Share,
    /// As for `solve`.
    pub least_bits: u32,
    /// How many boxes may be cut at most beyond those of the certificate; from 0 to 1,048,576.
    pub budget: u32,
    /// As for `solve`.
    pub bound: Option<u32>,
    /// As for `solve`.
    pub workers: u32,
}

/// What `join` is asked for: the names of the script, of the certificate that is written, and of those that are read.
#[derive(Drop)]
pub struct JoinWords<'a> {
    pub script: &'a str,
    pub out: &'a str,
    /// From 2 to 1,000,000; none is `-`.
    pub certs: Vec<&'a str>,
    /// The size up to which a constant without a bound of its own is looked at, where one is given; from 1.
    pub bound: Option<u32>,
}

/// What the words ask for. A name `-` stands for standard input or output.
#[derive(Drop)]
pub enum Request<'a> {
    Solve(SolveWords<'a>),
    Minimize(MinimizeWords<'a>),
    Check(CheckWords<'a>),
    Demo(DemoWords<'a>),
    Upgrade(UpgradeWords<'a>),
    Plan(PlanWords<'a>),
    Resume(ResumeWords<'a>),
    Join(JoinWords<'a>),
}

// The options where none is given but the number of workers.
pub fn usual_options(workers: u32) -> Options
    ensures { result ≡ usual workers }
{
    Options {
        delta_bits: 10,
        margin_bits: 20,
        least_bits: 20,
        budget: 65536,
        workers,
        bound: None,
    }
}
