// A set of bytes that is never empty.
ghost use Rattle.std.specs.Prelude.{◌^◌, ◌<◌};
ghost use Rattle.sets.specs.Numbers.{number};

use crate::bitset::Bits;

#[derive(Clone, Copy)]
pub struct Set {
    pub(crate) bits: Bits,
    ghost fits: { number bits < 2 ^ 256 },
    ghost some: { 0 < number bits },
}
