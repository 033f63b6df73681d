// Marks with the bits open that an operation may give as 0 as well as 1, in a few machine words and with no loop.
ghost use Rattle.std.specs.Prelude.{◌≡◌, ◌+◌, ◌%◌};
ghost use Rattle.marks.specs.Closed.{open_bits, carries_of, open_xor, open_sum, least_of, most_of};

use crate::mark::Marks;

// `b`, with 0 as well as 1 at the bits of `opens`.
pub(crate) fn opened(b: u8, opens: u8) -> Marks
    ensures low { result.low ≡ least_of b opens }
    ensures high { result.high ≡ most_of b opens }
{
    Marks {
        low: (b | opens) ^ opens,
        high: b | opens,
    }
}

// The bits that may be 0 as well as 1.
fn open_bits(x: Marks) -> u8
    ensures { result ≡ open_bits x }
{
    x.low ^ x.high
}

pub(crate) fn open_in_xor(x: Marks, y: Marks) -> u8
    ensures { result ≡ open_xor x y }
{
    open_bits(x) | open_bits(y)
}

// At each bit the carry that comes into it where `a` and `b` are added.
fn carries(a: u8, b: u8) -> u8
    ensures { result ≡ carries_of a b }
{
    a ^ b ^ a.wrapping_add(b)
}

// The least and the greatest members have the least and the greatest carries.
pub(crate) fn open_in_sum(x: Marks, y: Marks) -> u8
    ensures { result ≡ open_sum x y }
{
    open_in_xor(x, y) | (carries(x.low, y.low) ^ carries(x.high, y.high))
}
