// What an expression stands in.
use smt_sexp::{Leaf, Seen, Sexps};

/// What holds of the parts of a group.
#[derive(Clone, Copy, Debug)]
pub(crate) struct Frame {
    /// A condition stands around them.
    pub(crate) is_conditional: bool,
    /// They are compared by `=` or `distinct`: those that are Bools stand under a condition.
    pub(crate) is_equated: bool,
}

/// What stands at the head of a group.
#[derive(Clone, Copy, Debug)]
pub(crate) enum Head<'a> {
    Symbol(&'a [u8]),
    /// `let`, `!`, or a group: what stands around the group stands around its parts.
    Other,
}

const CONDITIONS: [&str; 5] = ["or", "=>", "not", "xor", "ite"];

const EQUALITIES: [&str; 2] = ["=", "distinct"];

const OTHER_BOOLS: [&str; 5] = ["and", "<=", "<", ">=", ">"];

fn is_among(name: &[u8], names: &[&str]) -> bool {
    for it in names {
        if name == it.as_bytes() {
            return true;
        }
    }
    false
}

/// What stands at the head of the group whose first place this is.
pub(crate) fn head_of(sexps: &Sexps, first: usize) -> Head<'_> {
    match sexps.look(first) {
        Seen::Leaf(_, Leaf::Symbol(name), _) => Head::Symbol(name.as_slice()),
        _ => Head::Other,
    }
}

impl Frame {
    /// Nothing stands around an assertion.
    pub(crate) fn top() -> Frame {
        Frame {
            is_conditional: false,
            is_equated: false,
        }
    }

    /// Whether a Bool expression that stands here stands under a condition.
    pub(crate) fn is_condition_of_bool(self) -> bool {
        self.is_conditional || self.is_equated
    }

    /// What holds of the parts of a group with this head that stands here.
    pub(crate) fn within(self, head: Head<'_>) -> Frame {
        let Head::Symbol(name) = head else {
            return self;
        };
        let equates = is_among(name, &EQUALITIES);
        let is_bool = equates || is_among(name, &OTHER_BOOLS);
        let outer = if is_bool {
            self.is_condition_of_bool()
        } else {
            self.is_conditional
        };
        Frame {
            is_conditional: outer || is_among(name, &CONDITIONS),
            is_equated: equates,
        }
    }
}
