// The lines up to the cover.
ghost use Rattle.std.specs.Prelude.{◌≡◌, None};
ghost use Rattle.cert_read.specs.Views.{line_of};
ghost use Rattle.cert_least.specs.declared.phase.Phase.TheVariants as phase;
ghost use Rattle.cert_least.specs.Aims.{Aim as AimOf};
ghost use Rattle.cert_least.specs.Judging.{IsReady};
ghost use Rattle.cert_least.specs.Phases.{tells_later};
ghost use Rattle.cert_least.specs.Said.{header_phase, IsCoverIn, IsLeastIn, IsLimitIn, IsLowerIn, IsOpenIn};
ghost use Rattle.cert_least.specs.Steps.{IsAimNext, IsPhaseNext};

use crate::aim::Aim;
use crate::given::give;
use crate::limit::limit_line;
use crate::phase::{Phase, Scope, Told};
use cert_check::{CertFault, Checker};
use cert_read::Line;
use dyadic::Dy;

// The version of a certificate of least values, and the one whose lines it has behind the first.
const LEAST_VERSION: u32 = 4;

const LINES_VERSION: u32 = 2;

// The version of certificates of both kinds: `lower` behind the header tells that it is one of least values.
const OPEN_VERSION: u32 = 5;

// Whether the line begins a certificate of least values.
fn is_least(line: &Line) -> bool
    ensures { IsLeastIn result (line_of line.now) }
{
    match line {
        Line::Version(version) => *version == LEAST_VERSION,
        _ => false,
    }
}

// Whether the line begins a certificate of either kind.
fn is_open(line: &Line) -> bool
    ensures { IsOpenIn result (line_of line.now) }
{
    match line {
        Line::Version(version) => *version == OPEN_VERSION,
        _ => false,
    }
}

// Whether it is still open of which kind the certificate is whose header told so much.
fn tells_later(told: Told) -> bool
    ensures { result ≡ tells_later told }
{
    told.version >= OPEN_VERSION
}

// The lower bound that the line tells.
fn lower_in(line: &Line) -> Option<Option<Dy>>
    ensures { IsLowerIn result (line_of line.now) }
{
    match line {
        Line::Lower(lower) => Some(*lower),
        _ => None,
    }
}

// Whether the line begins a cover.
fn is_cover(line: &Line) -> bool
    ensures { IsCoverIn result (line_of line.now) }
{
    matches!(line, Line::Cover(_))
}

// The bits of a limit of the goal that the line tells, where none was told before.
fn limit_in(before: Option<u32>, line: &Line) -> Option<u32>
    ensures { IsLimitIn before result (line_of line.now) }
{
    match before {
        Some(_) => None,
        None => match line {
            Line::Goal(bits) => Some(*bits),
            _ => None,
        },
    }
}

// What is due behind a line of the header that told so much.
fn behind_header(told: Told, line: &Line) -> Phase
    ensures { result ≡ header_phase told (line_of line.now) }
{
    match line {
        Line::Margin(margin) => Phase::Header(Told {
            margin: *margin,
            ..told
        }),
        Line::Delta(delta) => Phase::Header(Told {
            delta: *delta,
            ..told
        }),
        Line::Bound(_) => Phase::Lower(told),
        _ => Phase::Header(told),
    }
}

/// The first line.
pub fn first_line(checker: &mut Checker<'_>, line: &Line) -> Result<Phase, CertFault>
    ensures { (a : AimOf) →
        IsPhaseNext a phase.Version checker.old (line_of line.now) checker.new result }
{
    if is_least(line) {
        let version = Line::Version(LINES_VERSION);
        let told = Told {
            version: LINES_VERSION,
            margin: 0,
            delta: 0,
        };
        return give(checker, &version, Phase::Header(told));
    }
    if is_open(line) {
        let told = Told {
            version: OPEN_VERSION,
            margin: 0,
            delta: 0,
        };
        return give(checker, line, Phase::Header(told));
    }
    give(checker, line, Phase::Plain)
}

/// A later line of a certificate of the check.
pub fn plain_line(checker: &mut Checker<'_>, line: &Line) -> Result<Phase, CertFault>
    ensures { (a : AimOf) →
        IsPhaseNext a phase.Plain checker.old (line_of line.now) checker.new result }
{
    give(checker, line, Phase::Plain)
}

/// A line of a header behind the first, where `lower` may follow.
pub fn header_line(checker: &mut Checker<'_>, told: Told, line: &Line) -> Result<Phase, CertFault>
    ensures { (a : AimOf) →
        IsPhaseNext a (phase.Header told) checker.old (line_of line.now) checker.new result }
{
    give(checker, line, behind_header(told, line))
}

// Another line than `lower`: where it is open of which kind the certificate is, it is one of the check then.
fn no_lower(checker: &mut Checker<'_>, told: Told, line: &Line) -> Result<Phase, CertFault>
    requires { IsLowerIn None (line_of line.now) }
    ensures { (a : AimOf) →
        IsPhaseNext a (phase.Lower told) checker.old (line_of line.now) checker.new result }
{
    if tells_later(told) {
        return give(checker, line, Phase::Plain);
    }
    Err(CertFault::BadHeader { line: 0 })
}

/// `lower`, or in its place a line of a certificate of the check.
pub fn lower_line(checker: &mut Checker<'_>, told: Told, line: &Line) -> Result<Phase, CertFault>
    ensures { (a : AimOf) →
        IsPhaseNext a (phase.Lower told) checker.old (line_of line.now) checker.new result }
{
    match lower_in(line) {
        Some(lower) => Ok(Phase::Cover(told, Scope { lower, bits: None })),
        None => no_lower(checker, told, line),
    }
}

// `cover`: any other line but one that tells a limit of the goal is a fault.
fn first_of_cover(
    checker: &mut Checker<'_>,
    told: Told,
    scope: Scope,
    line: &Line,
) -> Result<Phase, CertFault>
    requires { IsLimitIn scope.bits None (line_of line.now) }
    ensures { (a : AimOf) →
        IsPhaseNext a (phase.Cover told scope) checker.old (line_of line.now) checker.new result }
{
    if is_cover(line) {
        return give(checker, line, Phase::InCover(scope));
    }
    Err(CertFault::BadHeader { line: 0 })
}

/// `cover`, or `goal` before it.
pub fn cover_line(
    aim: &Aim,
    checker: &mut Checker<'_>,
    told: Told,
    scope: Scope,
    line: &Line,
) -> Result<Phase, CertFault>
    requires { IsReady aim.now }
    ensures { IsAimNext aim.now (phase.Cover told scope) checker.old (line_of line.now)
        checker.new result }
{
    match limit_in(scope.bits, line) {
        Some(bits) => limit_line(aim, checker, told, scope.lower, bits),
        None => first_of_cover(checker, told, scope, line),
    }
}
