// One byte.
ghost use Rattle.std.specs.Prelude.{◌<◌};

// The operand whose only member is its value.
#[derive(Clone, Copy, PartialEq, Eq, Debug)]
pub struct Byte {
    pub value: u8,
    ghost small: { value < 256 },
}
