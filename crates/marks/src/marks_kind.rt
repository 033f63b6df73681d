// Marks as operands.
ghost use Rattle.std.specs.Prelude.{◌≡◌, Decides, bit_and};
ghost use Rattle.marks.specs.Marks.{marks_operations, marks_lawful};

use crate::ends::{open_in_sum, open_in_xor, opened};
use crate::mark::Marks;
use operands::{Operand, carry_byte, kept_byte, rotated_byte};

// Each bit of `a` is at most that of `b`.
fn is_within(a: u8, b: u8) -> bool
    ensures { Decides result (bit_and a b ≡ a) }
{
    a & b == a
}

impl Operand for Marks {
    ghost operations = { marks_operations };

    ghost lawful = { marks_lawful };

    fn constant(b: u8) -> Marks {
        Marks { low: b, high: b }
    }

    fn rotate_right(self, by: u8) -> Marks {
        Marks {
            low: rotated_byte(self.low, by),
            high: rotated_byte(self.high, by),
        }
    }

    fn keep_lowest(self, bits: u8) -> Marks {
        Marks {
            low: kept_byte(self.low, bits),
            high: kept_byte(self.high, bits),
        }
    }

    fn and(self, other: Marks) -> Marks {
        Marks {
            low: self.low & other.low,
            high: self.high & other.high,
        }
    }

    fn xor(self, other: Marks) -> Marks {
        opened(self.low ^ other.low, open_in_xor(self, other))
    }

    fn add(self, other: Marks) -> (Marks, Marks) {
        let sum = opened(self.low.wrapping_add(other.low), open_in_sum(self, other));
        let carry = Marks {
            low: carry_byte(self.low, other.low),
            high: carry_byte(self.high, other.high),
        };
        (sum, carry)
    }

    fn contains(self, b: u8) -> bool {
        is_within(self.low, b) && is_within(b, self.high)
    }
}
