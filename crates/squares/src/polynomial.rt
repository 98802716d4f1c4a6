// Polynomials, and the operations on them.
ghost use Rattle.std.specs.Prelude.{◌≡◌};
ghost use Rattle.ival.specs.Views.{interval_of};
ghost use Rattle.squares.specs.Views.{total};

use crate::monomial::together;
use ival::Ival;
use std::alloc::{AllocError, Global};
use std::collections::BTreeMap;

// The sum of what is there, if something is, and this.
fn total(own: Option<Ival>, more: Ival) -> Ival
    ensures { interval_of result ≡ total interval_of own (interval_of more) }
{
    match own {
        Some(own) => own.add(more),
        None => more,
    }
}

/// A polynomial in the differences of axes to a centre: its monomials, each with an interval for a coefficient.
#[derive(Drop)]
pub struct Polynomial {
    pub terms: BTreeMap<Vec<u32>, Ival>,
}

impl Polynomial {
    ghost use Rattle.std.specs.Prelude.{◌≡◌, [], length, IfOk, OnOk};
    ghost use Rattle.ival.specs.Views.{interval_of};
    ghost use Rattle.square_model.specs.Polynomial.{given, multiple_given, is_short, polynomial_sum, polynomial_product, polynomial_negated};
    ghost use Rattle.squares.specs.Views.{terms_of, IsAscending};

    /// The polynomial without monomials.
    pub fn new(alloc: Global) -> Self
        ensures { terms_of result ≡ [] }
    {
        Polynomial {
            terms: BTreeMap::new(alloc),
        }
    }

    /// How many monomials it has.
    pub fn len(&self) -> usize
        ensures { result ≡ length (terms_of self.now) }
    {
        self.terms.len()
    }

    // A fact, and no work: the monomials ascend.
    fn ascends(&self)
        ensures { IsAscending self.now }
    {
        let _ = self.terms.len();
    }

    /// Whether no monomial has more than 32 axes.
    pub fn is_short(&self) -> bool
        ensures { result ≡ is_short (terms_of self.now) }
    {
        for (monomial, _coefficient) in &self.terms {
            if monomial.len() > 32 {
                return false;
            }
        }
        true
    }

    /// Gives this much more to the coefficient of a monomial.
    pub fn give(&mut self, monomial: Vec<u32>, more: Ival) -> Result<(), AllocError>
        ensures { OnOk result (terms_of self.new ≡
            given monomial.items (interval_of more) (terms_of self.old)) }
    {
        let own = self.terms.get(&monomial).copied();
        self.terms.insert(monomial, total(own, more))?;
        Ok(())
    }

    /// Gives the coefficients of another polynomial.
    pub fn add(&mut self, alloc: Global, more: &Polynomial) -> Result<(), AllocError>
        ensures { OnOk result (terms_of self.new ≡
            polynomial_sum (terms_of self.old) (terms_of more.now)) }
    {
        for (monomial, coefficient) in &more.terms {
            let axes = Vec::from_slice(alloc, monomial)?;
            self.give(axes, *coefficient)?;
        }
        Ok(())
    }

    /// Gives the opposites of the coefficients of another polynomial.
    pub fn subtract(&mut self, alloc: Global, less: &Polynomial) -> Result<(), AllocError>
        ensures { OnOk result (terms_of self.new ≡
            polynomial_sum (terms_of self.old) (polynomial_negated (terms_of less.now))) }
    {
        for (monomial, coefficient) in &less.terms {
            let axes = Vec::from_slice(alloc, monomial)?;
            self.give(axes, coefficient.neg())?;
        }
        Ok(())
    }

    /// The sum of two polynomials.
    pub fn sum(&self, alloc: Global, other: &Polynomial) -> Result<Polynomial, AllocError>
        ensures { IfOk result (λ sum. terms_of sum ≡
            polynomial_sum (terms_of self.now) (terms_of other.now)) }
    {
        let mut sum = Polynomial::new(alloc);
        sum.add(alloc, self)?;
        sum.add(alloc, other)?;
        self.ascends();
        Ok(sum)
    }

    /// The polynomial with opposite coefficients.
    pub fn negated(&self, alloc: Global) -> Result<Polynomial, AllocError>
        ensures { IfOk result (λ negated. terms_of negated ≡
            polynomial_negated (terms_of self.now)) }
    {
        let mut negated = Polynomial::new(alloc);
        negated.subtract(alloc, self)?;
        self.ascends();
        Ok(negated)
    }

    // Gives a multiple of another polynomial.
    fn give_multiple(
        &mut self,
        alloc: Global,
        monomial: &[u32],
        coefficient: Ival,
        factor: &Polynomial,
    ) -> Result<(), AllocError>
        ensures { OnOk result (terms_of self.new ≡ multiple_given
            monomial.now (interval_of coefficient) (terms_of factor.now) (terms_of self.old)) }
    {
        for (other, more) in &factor.terms {
            let axes = together(alloc, monomial, other)?;
            self.give(axes, coefficient.mul(*more))?;
        }
        Ok(())
    }

    /// The product of two polynomials.
    pub fn product(
        alloc: Global,
        first: &Polynomial,
        second: &Polynomial,
    ) -> Result<Polynomial, AllocError>
        ensures { IfOk result (λ product. terms_of product ≡
            polynomial_product (terms_of first.now) (terms_of second.now)) }
    {
        let mut product = Polynomial::new(alloc);
        for (monomial, coefficient) in &first.terms {
            product.give_multiple(alloc, monomial, *coefficient, second)?;
        }
        Ok(product)
    }
}
