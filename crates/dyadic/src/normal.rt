// Numbers with their mantissas put together, as sums and products are computed.
ghost use Rattle.dyadic.specs.Mantissa.{IsNormal};

/// `mantissa * 2^shift` units, in the form of the numbers.
#[derive(Clone, Copy)]
pub struct Normal {
    pub mantissa: i64,
    pub shift: u32,
    pub ghost normal: { IsNormal mantissa shift },
}
