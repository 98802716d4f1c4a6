//! A certificate in the newest version of its format.
//!
//! What is accepted under an older version is accepted in the newest one, version 5, with the same values; so a certificate
//! that was checked can be written anew.
#![tactic(auto)]

ghost use Rattle.std.specs.Prelude.{◌≡◌, ◌≤◌, ◌++◌, ◌∷◌, [], IfOk, cond, length};
ghost use Rattle.cert_model.specs.Accepted.{most_bytes};
ghost use Rattle.cert_upgrade.specs.Upgraded.{upgraded, UpgradedIsAccepted, UpgradedIsAcceptedOfGoal};
ghost use Rattle.cert_upgrade.specs.Breaks.{behind_break, with_break};

use std::alloc::{AllocError, Global};

// The first line of the newest version, with its break.
const FIRST_LINE: &[u8] = b"dpoly 5\n";

/// A certificate that is accepted is accepted in the newest version, with the same values.
pub fn upgraded_is_accepted()
    ensures { UpgradedIsAccepted }
{}

/// One of a script with a goal, of its check or its least value, is accepted so, too.
pub fn upgraded_is_accepted_of_goal()
    ensures { UpgradedIsAcceptedOfGoal }
{}

// What follows the first line break.
fn behind_first_break(cert: &[u8]) -> &[u8]
    ensures { result.now ≡ behind_break cert.now }
{
    for i in 0..cert.len() {
        if cert[i] == b'\n' {
            return &cert[i + 1..];
        }
    }
    &cert[cert.len()..]
}

// Whether the last line has no line break.
fn lacks_break(rest: &[u8]) -> bool
    ensures { with_break rest.now ≡ cond result (rest.now ++ (10 ∷ [])) rest.now }
{
    !rest.is_empty() && rest[rest.len() - 1] != b'\n'
}

/// The lines of a certificate, each ended by a line break, behind the first line of the newest version.
pub fn upgrade(alloc: Global, cert: &[u8]) -> Result<Vec<u8>, AllocError>
    ensures text { IfOk result (λ text. text.items ≡ upgraded cert.now) }
    ensures fits { IfOk result (λ text. length text.items ≤ most_bytes) }
{
    let rest = behind_first_break(cert);
    let mut text = Vec::new(alloc);
    text.extend_from_slice(FIRST_LINE)?;
    text.extend_from_slice(rest)?;
    if lacks_break(rest) {
        text.push(b'\n')?;
    }
    Ok(text)
}
