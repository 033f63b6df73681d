// Bytes as operands: what the engine reckons with.
ghost use Rattle.std.specs.Prelude.{◌≡◌, ℕ, ◌+◌, ◌/◌, ◌%◌, bit_xor};
ghost use Rattle.operands.specs.Bytes.{rotated, kept};
ghost use Rattle.operands.specs.Operations.{Operations, Lawful};
ghost use Rattle.operands.specs.Single.{byte_operations, byte_lawful};

use crate::byte::Byte;
use crate::operand::Operand;

// `b` rotated right by `by` places, modulo 8.
pub fn rotated_byte(b: u8, by: u8) -> u8
    ensures { result ≡ rotated (by % 8) b }
{
    b.rotate_right(by as u32 % 8)
}

// The lowest `bits` bits of `b`, modulo 8, and all eight at 0.
pub fn kept_byte(b: u8, bits: u8) -> u8
    ensures { result ≡ kept (bits % 8) b }
{
    match bits % 8 {
        0 => b,
        n => b % (1 << n),
    }
}

// What is carried out of the sum of `a` and `b`: 0 or 1.
pub fn carry_byte(a: u8, b: u8) -> u8
    ensures { result ≡ (a + b) / 256 }
{
    let (_, carried) = a.overflowing_add(b);
    carried as u8
}

fn xored(a: u8, b: u8) -> u8
    ensures { result ≡ bit_xor a b }
{
    a ^ b
}

impl Operand for Byte {
    ghost operations = { byte_operations };

    ghost lawful = { byte_lawful };

    fn constant(b: u8) -> Byte {
        Byte { value: b }
    }

    fn rotate_right(self, by: u8) -> Byte {
        Byte {
            value: rotated_byte(self.value, by),
        }
    }

    fn keep_lowest(self, bits: u8) -> Byte {
        Byte {
            value: kept_byte(self.value, bits),
        }
    }

    fn and(self, other: Byte) -> Byte {
        Byte {
            value: self.value & other.value,
        }
    }

    fn xor(self, other: Byte) -> Byte {
        Byte {
            value: xored(self.value, other.value),
        }
    }

    fn add(self, other: Byte) -> (Byte, Byte) {
        (
            Byte {
                value: self.value.wrapping_add(other.value),
            },
            Byte {
                value: carry_byte(self.value, other.value),
            },
        )
    }

    fn contains(self, b: u8) -> bool {
        self.value == b
    }
}
