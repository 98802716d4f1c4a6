// Which of two faults of a script is told: that as it is written, or that with roots.
ghost use Rattle.std.specs.Prelude.{◌≡◌};
ghost use Rattle.script_reading.specs.Faults.{is_of_building, is_told, stands_before, told};

use script_fault::{FaultKind, Limit, ScriptFault};

// Whether the building of a script meets the limit.
fn is_of_building(limit: Limit) -> bool
    ensures { result ≡ is_of_building limit }
{
    matches!(
        limit,
        Limit::Size | Limit::Nodes | Limit::Atoms | Limit::Forms
    )
}

// Whether the first fault stands before the second one.
fn stands_before(first: &ScriptFault, second: &ScriptFault) -> bool
    ensures { result ≡ stands_before first.now second.now }
{
    first.at.line < second.at.line
        || first.at.line == second.at.line && first.at.column < second.at.column
}

// Whether the fault of a script as it is written is told, and not that with roots.
fn is_told(written: &ScriptFault, rooted: &ScriptFault) -> bool
    ensures { result ≡ is_told written.now rooted.now }
{
    match (&written.kind, &rooted.kind) {
        (FaultKind::NumberTooWide | FaultKind::ZeroDivisor, _) => true,
        (FaultKind::NoBound(_) | FaultKind::BoundTooWide(_), _) => true,
        (FaultKind::TooMany(limit), _) => is_of_building(*limit),
        (FaultKind::DivisorNotConstant, FaultKind::TooMany(Limit::Size)) => {
            stands_before(written, rooted)
        }
        _ => false,
    }
}

/// Of a script's fault as it is written, and its fault with roots, the one that is told.
pub(crate) fn told(written: ScriptFault, rooted: ScriptFault) -> ScriptFault
    ensures { result ≡ told written rooted }
{
    if is_told(&written, &rooted) {
        written
    } else {
        rooted
    }
}
