//! The demo's script has no fault.
//!
//! No code runs here: the function is a law about the definitions of `gen_script` and `script_reading`, and its contract
//! is the law. That the search for such a script leaves nothing is not shown.
#![tactic(auto)]

ghost use Rattle.demo_law.specs.Laws.{DemoIsFaultless};

/// The demo's script has no fault, for every seed and every size up to 10,000, whatever bound the words give.
pub fn demo_is_faultless()
    ensures { DemoIsFaultless }
{}
