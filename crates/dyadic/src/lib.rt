//! Numbers `m * 2^e` with `|m| <= 2^62` and `-120 <= e <= 60`, exact fractions of small numbers, and their rounding.
//!
//! Each call answers exactly what the definitions in `specs/` say: the exact result, rounded down to the greatest number
//! that is not above it (or minus infinity), or up to the least that is not below it (or plus infinity).
//! A number is a whole number of units of 2^-120. No call takes memory.
#![tactic(auto)]

mod add;
mod bracket;
mod compare;
mod divide;
mod dy;
mod dy_text;
mod exact_root;
mod frac;
mod frac_order;
mod frac_steps;
pub mod laws;
mod margin;
mod middle;
mod normal;
mod number;
mod parts;
mod power;
mod product;
mod quotient;
mod read;
mod reading;
mod root;
mod rounding;
mod sign;
mod size;
mod steps;
mod sum;
mod writing;

pub use add::{add_down, add_up};
pub use compare::{at_most, cmp};
pub use divide::{div_down, div_up};
pub use dy::{Dy, Ext};
pub use dy_text::DyText;
pub use frac::Frac;
pub use frac_order::cmp_frac;
pub use frac_steps::TooWide;
pub use margin::near;
pub use middle::mid;
pub use parts::Parts;
pub use power::{pow2, two_to_minus};
pub use product::{mul_down, mul_up};
pub use quotient::{down_frac, up_frac};
pub use read::read_dy;
pub use root::{sqrt_down, sqrt_up};
pub use sign::{Sign, sign_of};
pub use size::Size;
pub use writing::write_dy;
