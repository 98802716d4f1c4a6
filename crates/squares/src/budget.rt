// How many steps are left.
ghost use Rattle.std.specs.Prelude.{◌≡◌, ◌+◌, ◌*◌};
ghost use Rattle.square_model.specs.Positive.{most_steps};
ghost use Rattle.squares.specs.Views.{Takes};

const MOST_STEPS: u64 = 1_048_576;

/// The steps that are left to a line.
#[derive(Clone, Copy)]
pub struct Budget {
    pub left: u64,
}

impl Budget {
    /// All steps of a line.
    pub fn new() -> Budget
        ensures { result.left ≡ most_steps }
    {
        Budget { left: MOST_STEPS }
    }

    /// Takes the steps of a sum of polynomials, and tells whether so many were left.
    pub fn take_sum(&mut self, first: usize, second: usize) -> bool
        ensures { Takes (first + second) self.old self.new result }
    {
        let left = self.left;
        let Some(steps) = (first as u64).checked_add(second as u64) else {
            return false;
        };
        if left < steps {
            return false;
        }
        self.left = left - steps;
        true
    }

    /// Takes the steps of a product of polynomials, and tells whether so many were left.
    pub fn take_product(&mut self, first: usize, second: usize) -> bool
        ensures { Takes (first * second) self.old self.new result }
    {
        let left = self.left;
        let Some(steps) = (first as u64).checked_mul(second as u64) else {
            return false;
        };
        if left < steps {
            return false;
        }
        self.left = left - steps;
        true
    }

    /// Takes the steps of a polynomial's range, and tells whether so many were left.
    pub fn take_range(&mut self, monomials: usize) -> bool
        ensures { Takes monomials self.old self.new result }
    {
        let left = self.left;
        let steps = monomials as u64;
        if left < steps {
            return false;
        }
        self.left = left - steps;
        true
    }
}
