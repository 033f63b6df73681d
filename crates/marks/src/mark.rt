// The marks of a byte's bits.
ghost use Rattle.std.specs.Prelude.{◌≡◌, ◌<◌, bit_and};

// For each of eight bits: may be 0, may be 1, or both.
#[derive(Clone, Copy, PartialEq, Eq, Debug)]
pub struct Marks {
    // the bits that must be 1
    pub(crate) low: u8,
    // the bits that may be 1
    pub(crate) high: u8,
    // never neither
    ghost within: { bit_and low high ≡ low },
    ghost small: { high < 256 },
}
