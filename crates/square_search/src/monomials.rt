// Monomials, each by its axes in ascending order, and their numbers.
use std::alloc::{AllocError, Global};
use std::collections::BTreeMap;

/// Monomials with their numbers; 1 has number 0.
#[derive(Drop)]
pub struct Monomials {
    numbers: BTreeMap<Vec<u32>, usize>,
    /// whether each is a square, by number
    squares: Vec<bool>,
}

/// The product of two monomials.
pub fn product(alloc: Global, first: &[u32], second: &[u32]) -> Result<Vec<u32>, AllocError> {
    let mut axes = Vec::from_slice(alloc, first)?;
    axes.extend_from_slice(second)?;
    axes.sort_unstable();
    Ok(axes)
}

/// How often an axis stands in a monomial.
pub fn exponent_of(monomial: &[u32], axis: u32) -> usize {
    let mut count: usize = 0;
    for other in monomial {
        if *other == axis {
            count = count.saturating_add(1);
        }
    }
    count
}

// Whether a monomial is a square.
fn is_square(monomial: &[u32]) -> bool {
    if monomial.len() % 2 == 1 {
        return false;
    }
    for half in 0..monomial.len() / 2 {
        if monomial[2 * half] != monomial[2 * half + 1] {
            return false;
        }
    }
    true
}

impl Monomials {
    /// The monomial 1 alone.
    pub fn new(alloc: Global) -> Result<Monomials, AllocError> {
        let mut monomials = Monomials {
            numbers: BTreeMap::new(alloc),
            squares: Vec::new(alloc),
        };
        monomials.number(Vec::new(alloc))?;
        Ok(monomials)
    }

    /// How many there are.
    pub fn len(&self) -> usize {
        self.squares.len()
    }

    /// The number of a monomial, a new one where it has none yet.
    pub fn number(&mut self, monomial: Vec<u32>) -> Result<usize, AllocError> {
        if let Some(number) = self.numbers.get(&monomial).copied() {
            return Ok(number);
        }
        let number = self.squares.len();
        self.squares.push(is_square(&monomial))?;
        self.numbers.insert(monomial, number)?;
        Ok(number)
    }

    /// Whether the monomial of this number is a square.
    pub fn is_square(&self, number: usize) -> bool {
        number < self.squares.len() && self.squares[number]
    }
}
