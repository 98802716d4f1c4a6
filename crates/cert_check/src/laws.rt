//! What a checker that is fed by pieces answers of all bytes.
//!
//! No code runs here: each function is a law about the definitions in `specs/`, and its contract is the law.
ghost use Rattle.cert_check.specs.Laws.{FaultIsTold, TooLongIsTold, VerdictIsTold, VerdictsAreTold};

/// Where the input ends, what is answered is the verdict of its bytes, or out of memory.
#[tactic(auto, using(crate::proofs::VerdictAnswers::verdict_is_told))]
pub fn verdict_is_told()
    ensures { VerdictIsTold }
{}

/// The same of several checks.
#[tactic(auto, using(crate::proofs::VerdictAnswers::verdicts_are_told))]
pub fn verdicts_are_told()
    ensures { VerdictsAreTold }
{}

/// A fault of the bytes so far is that of all bytes, whatever follows.
#[tactic(auto, using(crate::proofs::VerdictAnswers::fault_is_told))]
pub fn fault_is_told()
    ensures { FaultIsTold }
{}

/// Where more bytes follow than a certificate may have, the fault is answered without reading them.
#[tactic(auto, using(crate::proofs::VerdictAnswers::too_long_is_told))]
pub fn too_long_is_told()
    ensures { TooLongIsTold }
{}
