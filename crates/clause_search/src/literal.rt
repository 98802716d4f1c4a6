// Variables and literals.

/// What is true or false under an assignment.
#[derive(Clone, Copy, Debug, PartialEq, Eq, Hash)]
pub enum Variable {
    /// The atom of this number holds.
    Atom(u32),
    /// The Bool axis has this value. The two values of one axis are independent.
    BoolIs(u32, bool),
    /// A helper that stands for a part of the form.
    Helper(u32),
}

/// A variable, or where it is not positive, the opposite of one.
#[derive(Clone, Copy, Debug, PartialEq, Eq, Hash)]
pub struct Literal {
    pub variable: Variable,
    pub positive: bool,
}
