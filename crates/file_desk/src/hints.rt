// What would help with a script that is refused, where it was written as other tools take it.

/// What helps where an answer begins so, and this stands at its place in the script.
struct Hint {
    answer: &'static str,
    at: &'static [u8],
    help: &'static str,
}

const HINTS: [Hint; 17] = [
    Hint {
        answer: "script fault 1 BadByte ",
        at: b"e",
        help: "a number has no exponent: 1e-3 is written 0.001, or (/ 1 1000)",
    },
    Hint {
        answer: "script fault 1 BadByte ",
        at: b"E",
        help: "a number has no exponent: 1E-3 is written 0.001, or (/ 1 1000)",
    },
    Hint {
        answer: "script fault 1 BadByte ",
        at: b"[",
        help: "an interval is written with comparisons: [0, 10] as (assert (<= 0 x 10))",
    },
    Hint {
        answer: "script fault 6 UnknownSymbol -",
        at: b"-",
        help: "a negative number is written with the operation: -1 as (- 1)",
    },
    Hint {
        answer: "script fault 6 UnknownSymbol ^ ",
        at: b"(^",
        help: "a power is written as a product: (^ x 2) as (* x x)",
    },
    Hint {
        answer: "script fault 6 UnknownSymbol pow ",
        at: b"(pow",
        help: "a power is written as a product: (pow x 2) as (* x x)",
    },
    Hint {
        answer: "script fault 11 NoBound ",
        at: b"",
        help: "--bound N has -N or N stand where a constant has no bound of its own; or assert its bounds",
    },
    Hint {
        answer: "script fault 15 WrongLogic ",
        at: b"",
        help: "the logics are QF_NRA and QF_LRA; a script needs none",
    },
    Hint {
        answer: "script fault 5 BadCommand ",
        at: b"(maximize",
        help: "the greatest value of t is asked for as (minimize (- t))",
    },
    Hint {
        answer: "script fault 16 LeftOut ",
        at: b"(declare-",
        help: "constants are declared, of sort Real or Bool",
    },
    Hint {
        answer: "script fault 16 LeftOut ",
        at: b"(define-",
        help: "definitions are made by define-fun, with the sorts Real and Bool",
    },
    Hint {
        answer: "script fault 16 LeftOut ",
        at: b"(minimize",
        help: "a script has one goal at most",
    },
    Hint {
        answer: "script fault 16 LeftOut ",
        at: b"(check-sat",
        help: "`minimize`, `resume` and `join` take scripts with one check",
    },
    Hint {
        answer: "script fault 16 LeftOut ",
        at: b"(sqrt",
        help: "a root may stand neither in a goal nor around an ite, nor in a definition where no assertion of the check has one: define it behind the check, or not at all",
    },
    Hint {
        answer: "script fault 16 LeftOut ",
        at: b"(/",
        help: "a goal has no quotient: name its value by a constant z with bounds, (assert (= z (/ a b))), and ask for (minimize z)",
    },
    Hint {
        answer: "script fault 16 LeftOut ",
        at: b"(get-unsat-core",
        help: "`dpoly-smt` tells unsat cores",
    },
    Hint {
        answer: "script fault 14 NoCheck ",
        at: b"",
        help: "the script has no (check-sat)",
    },
];

const FUNCTIONS: [&str; 14] = [
    "sin", "cos", "tan", "asin", "acos", "atan", "sinh", "cosh", "tanh", "exp", "log", "abs",
    "min", "max",
];

const CONVERTED: &str =
    "this function is not in the language; `python3 -m dpoly convert` writes it by what is, or encloses it by a polynomial";

/// What helps where a certificate is refused so, and this is how it begins.
const CERT_HINTS: [Hint; 5] = [
    Hint {
        answer: "certificate fault 1 BadHeader line 1\n",
        at: b"dpoly 4\n",
        help: "it is a certificate of `minimize`: `check` and `upgrade` take it with a script whose goal is in force; `resume` and `join` do not, so call `minimize` again, with a greater `--budget`",
    },
    Hint {
        answer: "certificate fault 1 BadHeader line 1\n",
        at: b"dpoly 3\n",
        help: "it is a certificate of a script with several checks",
    },
    Hint {
        answer: "certificate fault 1 BadHeader line 1\n",
        at: b"",
        help: "it is no certificate of this script by a program that is known here",
    },
    Hint {
        answer: "certificate fault 6 WrongBound ",
        at: b"",
        help: "it was made with another `--bound N`, or with none: its line 4 says which",
    },
    Hint {
        answer: "certificate fault 3 RuleFails ",
        at: b"",
        help: "a certificate holds of the very script that it was made for",
    },
];

fn help_in(hints: &[Hint], answer: &str, at: &[u8]) -> Option<&'static str> {
    for hint in hints {
        if answer.starts_with(hint.answer) && at.starts_with(hint.at) {
            return Some(hint.help);
        }
    }
    None
}

// Whether a script is refused by this answer for a function that other tools know.
fn names_function(answer: &str) -> bool {
    let Some(rest) = answer.strip_prefix("script fault 6 UnknownSymbol ") else {
        return false;
    };
    let Some((name, _)) = rest.split_once(' ') else {
        return false;
    };
    for it in &FUNCTIONS {
        if name == *it {
            return true;
        }
    }
    false
}

/// What would help with the script that is refused by this answer, with this behind the answer's place in it.
pub fn hint_for(answer: &str, behind: &[u8]) -> Option<&'static str> {
    if names_function(answer) {
        return Some(CONVERTED);
    }
    help_in(&HINTS, answer, behind)
}

/// What would help with the certificate that is refused by this answer, and begins so.
pub fn cert_hint_for(answer: &str, begins: &[u8]) -> Option<&'static str> {
    help_in(&CERT_HINTS, answer, begins)
}
