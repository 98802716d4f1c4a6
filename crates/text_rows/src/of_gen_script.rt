// Scripts that are made.
use gen_script::*;
use std::alloc::Global;

// The text of a script, or how many bytes it has.
enum Made {
    Text(&'static [u8]),
    Long(usize),
}

// Seeds, sizes and scripts; the last is that of the last seed and the greatest size.
const MADE: [(u64, u32, Made); 4] = [
    (1, 1, Made::Long(175)),
    (
        1,
        1,
        Made::Text(
            b"(set-logic QF_NRA)
(declare-const x Real)
(declare-const y Real)
(assert (<= 0 x 1))
(assert (<= 0 y 1))
(assert (= (- (* 775 x y) (* 775 y x)) (/ 775 8)))
(check-sat)
(exit)
",
        ),
    ),
    (
        1107,
        3,
        Made::Text(
            b"(set-logic QF_NRA)
(declare-const x Real)
(declare-const y Real)
(assert (<= 0 x 1))
(assert (<= 0 y 1))
(assert (= (- (* 1 x y) (* 1 y x)) (/ 1 8)))
(assert (= (- (* 184 x y) (* 184 y x)) (/ 184 8)))
(assert (= (- (* 70 x y) (* 70 y x)) (/ 70 8)))
(check-sat)
(exit)
",
        ),
    ),
    (18446744073709551615, 10000, Made::Long(506875)),
];

// Whether this script is made.
fn is_made(alloc: Global, seed: u64, size: u32, made: &Made) -> bool {
    if size < 1 || size > 10_000 {
        return false;
    }
    match (make(alloc, seed, size), made) {
        (Ok(script), Made::Text(text)) => script.as_slice() == *text,
        (Ok(script), Made::Long(length)) => script.len() == *length,
        _ => false,
    }
}

#[test]
fn scripts_are_made(rt: HostRuntime) {
    for (seed, size, made) in &MADE {
        assert!(rt; is_made(rt.alloc(), *seed, *size, made), "{seed}");
    }
}
