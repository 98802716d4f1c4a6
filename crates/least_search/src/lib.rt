//! The search for the least value of a goal, by searches for points: each next one looks for a point whose value of the
//! goal is at most a limit. It finds a better point, or shows that there is none, so the limit is a lower bound (bisection of
//! the objective, as in branch and bound over satisfiability problems). From each better point descents in floats lead to
//! still better ones near by, which are tested exactly; where they lead far down, the next limit lies below the best value by
//! the gap: what is closed there ends the search. Else limits lie half way between the bounds, with a small budget each; where
//! that decides nothing, nearer to the best value, and at last below it by the gap. The crate splits no box itself: a function
//! that is passed to it does.
#![tactic(auto)]

mod aim;
mod bounds;
mod descent;
mod found;
mod limits;
mod search;

pub use found::{Ending, Found, Least, Lower};
pub use search::minimize;
