// What a lock shares.

/// An object of one thread, whose calls and replies are data.
pub trait Object<C, R> {
    // The condition of a call.
    ghost meets: { Self → C → Type 0 };

    // The object before, the call, its reply, and the object after.
    ghost steps: { Self → C → R → Self → Type 0 };

    /// Makes one call.
    fn run(&mut self, call: C) -> R
        requires { meets self.old call }
        ensures { steps self.old call result self.new };

    // The condition of a call outlasts every call.
    ghost lasts: { (b : Self) (c : C) (r : R) (b' : Self) (d : C) → steps b c r b' → meets b d → meets b' d };
}
