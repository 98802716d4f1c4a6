// What is known of each variable.
ghost use Rattle.std.specs.Prelude.{◌≡◌, ◌+◌, ◌*◌, ℕ, replicate, slice_index_or, All, IfOk, vec_len, length};
ghost use Rattle.clause_search.specs.Table.{value_at, is_true, is_false, is_undecided, bool_place, value_for, IsKept, SetsOne, SameCounts, HasCounts, HasOneLessOpen, AreOpen};

use crate::{Literal, Variable};
use std::alloc::{AllocError, Global};

/// What is known of a variable.
#[derive(Clone, Copy, Debug, PartialEq, Eq)]
pub enum Value {
    Open,
    True,
    False,
}

/// A value for each of so many atoms, Bool values and helpers.
#[derive(Drop)]
pub struct Table {
    atoms: Vec<Value>,
    bools: Vec<Value>,
    helpers: Vec<Value>,
}

// As many open values.
fn open_values(alloc: Global, count: usize) -> Result<Vec<Value>, AllocError>
    ensures { IfOk result (λ v. v.items ≡ replicate count Value.Open) }
{
    let values = vec![in alloc; Value::Open; count]?;
    Ok(values)
}

// Opens each value.
fn open_all(values: &mut [Value])
    ensures { All (λ v. v ≡ Value.Open) values.new }
{
    for value in values.iter_mut() {
        *value = Value::Open;
    }
}

/// Where the value of a Bool axis stands.
pub fn bool_place(axis: u32, value: bool) -> usize
    ensures { result ≡ bool_place axis value }
{
    2 * axis as usize + usize::from(value)
}

impl Table {
    /// Nothing is known of so many atoms, axes and helpers.
    pub fn new(alloc: Global, atoms: u32, axes: u32, helpers: u32) -> Result<Self, AllocError>
        ensures open { IfOk result AreOpen }
        ensures counts { IfOk result (λ t. HasCounts t atoms axes helpers) }
    {
        Ok(Table {
            atoms: open_values(alloc, atoms as usize)?,
            bools: open_values(alloc, 2 * axes as usize)?,
            helpers: open_values(alloc, helpers as usize)?,
        })
    }

    /// What is known of the variable; nothing, where there is no place for it.
    pub fn get(&self, variable: Variable) -> Value
        ensures { result ≡ value_at self.now variable }
    {
        let value = match variable {
            Variable::Atom(j) => self.atoms.get(j as usize),
            Variable::BoolIs(axis, v) => self.bools.get(bool_place(axis, v)),
            Variable::Helper(k) => self.helpers.get(k as usize),
        };
        match value {
            Some(value) => *value,
            None => Value::Open,
        }
    }

    /// Whether nothing is known of the variable.
    pub fn is_open(&self, variable: Variable) -> bool
        ensures { result ≡ is_undecided self.now variable }
    {
        match self.get(variable) {
            Value::Open => true,
            Value::True | Value::False => false,
        }
    }

    /// Whether the literal is known to be true.
    pub fn is_true(&self, literal: Literal) -> bool
        ensures { result ≡ is_true self.now literal }
    {
        match self.get(literal.variable) {
            Value::Open => false,
            Value::True => literal.positive,
            Value::False => !literal.positive,
        }
    }

    /// Whether the literal is known to be false.
    pub fn is_false(&self, literal: Literal) -> bool
        ensures { result ≡ is_false self.now literal }
    {
        match self.get(literal.variable) {
            Value::Open => false,
            Value::True => !literal.positive,
            Value::False => literal.positive,
        }
    }

    /// Notes that the literal is true.
    pub fn make_true(&mut self, literal: Literal)
        requires { IsKept self.old literal.variable }
        ensures set { SetsOne self.old self.new literal.variable (value_for literal.positive) }
        ensures counts { SameCounts self.old self.new }
        ensures open { HasOneLessOpen self.old self.new literal.variable }
    {
        let value = if literal.positive {
            Value::True
        } else {
            Value::False
        };
        match literal.variable {
            Variable::Atom(j) => self.atoms[j as usize] = value,
            Variable::BoolIs(axis, v) => self.bools[bool_place(axis, v)] = value,
            Variable::Helper(k) => self.helpers[k as usize] = value,
        }
    }

    /// Forgets all that is known.
    pub fn clear(&mut self)
        ensures open { AreOpen self.new }
        ensures counts { SameCounts self.old self.new }
    {
        open_all(&mut self.atoms);
        open_all(&mut self.bools);
        open_all(&mut self.helpers);
    }
}
