//! Where a script's square roots stand under conditions: for people to read, and promised by no clause.
//!
//! What is asserted of a root, that its square is its argument, holds wherever the script does, and so also where a
//! condition around the root does not hold. `conditional_roots` answers the places of the roots of which a reader may
//! expect otherwise. It looks at the text alone: a root that a `let` binds outside of a condition stands under none.
#![tactic(auto)]

mod frames;
mod scan;

pub use scan::conditional_roots;

/// Says on standard error, in the name of a program, which roots of a script stand under conditions; of a script that
/// cannot be read it says nothing.
pub fn say_conditional_roots(rt: &HostRuntime, program: &str, script: &[u8]) {
    let Ok(places) = conditional_roots(rt.alloc(), script) else {
        return;
    };
    for at in &places {
        let _ = eprintln!(rt;
            "{program}: note: {at}: the argument of this root has to be at least 0 wherever the script holds, also where the condition does not"
        );
    }
}
