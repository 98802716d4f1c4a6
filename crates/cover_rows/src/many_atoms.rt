// How many atoms may be combined.
ghost use Rattle.std.specs.Prelude.{◌≤◌};

use crate::patches::{NOT_COMBINABLE, book_of, led, state_of};
use cover_book::Book;
use cover_rule::{Narrower, Patch};
use dyadic::{Dy, pow2};
use std::alloc::{AllocError, Global};

// With those of the bounds there are 65 atoms, which are inequalities.
const MANY: &str = "(declare-const x Real)
(assert (<= 0 x 1))
(assert (or (<= 0 x) (<=
x 2 x 3 x 4 x 5 x 6 x 7 x 8 x 9 x 10 x 11 x 12 x 13 x 14 x 15 x 16 x 17
x 18 x 19 x 20 x 21 x 22 x 23 x 24 x 25 x 26 x 27 x 28 x 29 x 30 x 31 x 32 x 33)))
(check-sat)";

// The first atoms, so many, each with the multiplier 1.
fn first_atoms(alloc: Global, count: u32) -> Result<Vec<(u32, Dy)>, AllocError> {
    let mut pairs = Vec::new(alloc);
    for j in 0..count {
        pairs.push((j, pow2(0)))?;
    }
    Ok(pairs)
}

// The state of the opening box with the 65 atoms marked yes.
const MARKED: [&str; 3] = [
    "real 0 1b0",
    "yes 0 1 2 3 4 5 6 7 8 9 10 11 12 13 14 15 16 17 18 19 20 21 22 23 24 25 26 27 28 29 30 31 32",
    "yes 33 34 35 36 37 38 39 40 41 42 43 44 45 46 47 48 49 50 51 52 53 54 55 56 57 58 59 60 61 62 63 64",
];

// Whether the patch refuses to combine its first atoms, so many, or does not, as said.
fn refuses(alloc: Global, patch: &mut Patch, count: u32, expected: bool) -> bool {
    match first_atoms(alloc, count) {
        Ok(pairs) => {
            (patch.narrow(Narrower::Combine(&pairs)) == NOT_COMBINABLE) == expected
                && (patch.void(Narrower::Combine(&pairs)) == NOT_COMBINABLE) == expected
        }
        Err(_) => false,
    }
}

// Whether the patch's first atoms may be combined from 1 to so many.
fn are_counted(alloc: Global, patch: &mut Patch, most: u32) -> bool
    requires { most ≤ 65 }
{
    refuses(alloc, patch, 0, true)
        && refuses(alloc, patch, most + 1, true)
        && refuses(alloc, patch, most, false)
}

// The same of the book's 65 atoms, which are marked.
fn are_counted_in(alloc: Global, book: &Book, most: u32) -> bool
    requires { most ≤ 65 }
{
    if book.problem().atoms().len() != 65 {
        return false;
    }
    let Some(state) = state_of(alloc, 65, &MARKED) else {
        return false;
    };
    match led(alloc, book, None, state, &[]) {
        Some(mut patch) => are_counted(alloc, &mut patch, most),
        None => false,
    }
}

// Whether up to 64 of the script's 65 atoms may be combined in version 2, and all of them in version 5.
fn are_combined(alloc: Global, script: &str) -> bool {
    let Some(mut book) = book_of(alloc, script, 20, 0) else {
        return false;
    };
    if !are_counted_in(alloc, &book, 64) {
        return false;
    }
    book.raise();
    are_counted_in(alloc, &book, 65)
}

#[test]
fn up_to_sixty_four_atoms_are_combined_and_more_in_version_5(rt: HostRuntime) {
    assert!(rt; are_combined(rt.alloc(), MANY));
}
