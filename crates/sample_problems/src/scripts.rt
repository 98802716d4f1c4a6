// The scripts, each with what is known of it.

/// The points with x^2 + y^2 = 1 and x * y = 1, of which there are none.
pub const CIRCLE: &str = "(declare-const x Real)
(declare-const y Real)
(assert (<= 0 x 2))
(assert (<= 0 y 2))
(assert (= (+ (* x x) (* y y)) 1))
(assert (= (* x y) 1))
(check-sat)";

/// The points of the unit interval outside its inner half with x^2 = 1/4, of which there are none.
pub const OUTSIDE: &str = "(declare-const x Real)
(assert (<= 0 x 1))
(assert (or (>= x (/ 3 4)) (<= x (/ 1 4))))
(assert (= (* x x) (/ 1 4)))
(check-sat)";

/// x * y - y * x is no 1/8, which enclosures alone do not tell.
pub const SWAPPED: &str = "(declare-const x Real)
(declare-const y Real)
(assert (<= (- (/ 1 2)) x (/ 1 2)))
(assert (<= (- (/ 1 2)) y (/ 1 2)))
(assert (= (- (* x y) (* y x)) (/ 1 8)))
(check-sat)";

/// A Bool that is true.
pub const BOOL: &str = "(declare-const b Bool)
(assert b)
(check-sat)";
