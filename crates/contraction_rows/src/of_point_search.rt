// Points that a local search finds in a script's box.
use form_truth::{Root, root_space};
use point_search::*;
use poly_graph::Lits;
use problem_build::read_problem;
use sample_problems::scripts::BOOL;
use std::alloc::Global;
use std::test::Fail;

// Whether a point is found in the whole box.
fn finds(alloc: Global, text: &str, start: Start) -> Option<bool> {
    let problem = read_problem(alloc, text.as_bytes(), None).ok()?;
    let Root::Space(space) = root_space(alloc, &problem).ok()? else {
        return None;
    };
    let lits = Lits::new(alloc, problem.atoms().len()).ok()?;
    let search = search_from(alloc, &problem, 10, &lits, &space, start).ok()?;
    match search.point {
        None => Some(false),
        Some(point) => Some(point.len() == space.len()),
    }
}

// Rosenbrock's function, which is least at (1, 1, 1), the corner of the box.
const VALLEY: &str = "(declare-const x Real)
(declare-const y Real)
(declare-const z Real)
(assert (<= (- 1) x 1))
(assert (<= (- 1) y 1))
(assert (<= (- 1) z 1))
(assert (let ((a (- y (* x x))) (b (- z (* y y))) (c (- 1 x)) (d (- 1 y)))
  (<= (+ (* 100 a a) (* 100 b b) (* c c) (* d d)) (/ 1 1000))))
(check-sat)";

// Two disjunctions that hold together at one value of the Bool alone.
const CHOICE: &str = "(declare-const x Real)
(declare-const b Bool)
(assert (<= 0 x 8))
(assert (or b (= (* x x x) 27)))
(assert (or (not b) (= (* x x) 200)))
(check-sat)";

// Four points of the square that are nearly as far apart as its corners. From the middle, where all four are, none moves.
const CORNERS: &str = "(declare-const a Real)
(declare-const b Real)
(declare-const c Real)
(declare-const d Real)
(declare-const e Real)
(declare-const f Real)
(declare-const g Real)
(declare-const h Real)
(assert (and (<= 0 a 1) (<= 0 b 1) (<= 0 c 1) (<= 0 d 1)))
(assert (and (<= 0 e 1) (<= 0 f 1) (<= 0 g 1) (<= 0 h 1)))
(define-fun far ((p Real) (q Real) (r Real) (s Real)) Bool
  (>= (+ (* (- p r) (- p r)) (* (- q s) (- q s))) (/ 3 4)))
(assert (and (far a b c d) (far a b e f) (far a b g h)))
(assert (and (far c d e f) (far c d g h) (far e f g h)))
(check-sat)";

// A sum of squares that is not 0 anywhere.
const NOWHERE: &str = "(declare-const x Real)
(declare-const y Real)
(assert (<= (- 1) x 1))
(assert (<= (- 1) y 1))
(assert (<= (+ (* x x) (* y y)) (- 1)))
(check-sat)";

#[test]
fn a_corner_is_found(rt: HostRuntime) -> Result<(), Fail> {
    assert_eq!(rt; finds(rt.alloc(), VALLEY, Start::Middle), Some(true));
    Ok(())
}

#[test]
fn the_cheaper_value_of_a_bool_is_taken(rt: HostRuntime) -> Result<(), Fail> {
    assert_eq!(rt; finds(rt.alloc(), CHOICE, Start::Middle), Some(true));
    Ok(())
}

#[test]
fn points_far_apart_are_found_from_elsewhere(rt: HostRuntime) -> Result<(), Fail> {
    assert_eq!(rt; finds(rt.alloc(), CORNERS, Start::Middle), Some(false));
    let mut is_found = false;
    for number in 0..8 {
        if finds(rt.alloc(), CORNERS, Start::Scattered(number)) == Some(true) {
            is_found = true;
        }
    }
    assert!(rt; is_found);
    Ok(())
}

#[test]
fn nothing_is_found_where_nothing_is(rt: HostRuntime) -> Result<(), Fail> {
    assert_eq!(rt; finds(rt.alloc(), NOWHERE, Start::Middle), Some(false));
    // A Bool alone is left to its box's split.
    assert_eq!(rt; finds(rt.alloc(), BOOL, Start::Middle), Some(false));
    Ok(())
}
