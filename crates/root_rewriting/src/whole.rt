// Whole numbers that may take more than 128 bits.
ghost use Rattle.root_rewriting.specs.Short.{IsShort};

/// The whole number `factor * 2^power`.
#[derive(Clone, Copy)]
pub(crate) struct Whole {
    pub(crate) factor: u64,
    pub(crate) power: u32,
    ghost short: { IsShort factor power },
}
