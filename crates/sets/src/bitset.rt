// A set of bytes that may be empty, as 256 bits: what an answer is built in.
ghost use Rattle.std.specs.Prelude.{◌≡◌, ℕ, ◌+◌, ◌-◌, ◌*◌, ◌^◌, ◌<◌, ◌≤◌, Decides, bit_or, count_ones};
ghost use Rattle.std.specs.Iterator.{at_most};
ghost use Rattle.sets.specs.Numbers.{number, In, TakesHighest};

// Byte b is bit b % 128 of `low`, or of `high` from 128 on. By default there is none.
#[derive(Clone, Copy, Default, PartialEq, Eq)]
pub(crate) struct Bits {
    pub(crate) low: u128,
    pub(crate) high: u128,
}

impl Bits {
    pub(crate) fn all() -> Bits
        ensures { number result ≡ 2 ^ 256 - 1 }
    {
        Bits {
            low: u128::MAX,
            high: u128::MAX,
        }
    }

    pub(crate) fn only(b: u8) -> Bits
        ensures { number result ≡ 2 ^ b }
    {
        if b < 128 {
            Bits {
                low: 1 << b,
                high: 0,
            }
        } else {
            Bits {
                low: 0,
                high: 1 << (b - 128),
            }
        }
    }

    pub(crate) fn contains(self, b: u8) -> bool
        ensures { Decides result (In (number self) b) }
    {
        if b < 128 {
            (self.low >> b) % 2 == 1
        } else {
            (self.high >> (b - 128)) % 2 == 1
        }
    }

    pub(crate) fn union(self, other: Bits) -> Bits
        ensures { number result ≡ bit_or (number self) (number other) }
    {
        Bits {
            low: self.low | other.low,
            high: self.high | other.high,
        }
    }

    pub(crate) fn is_all(self) -> bool
        ensures { Decides result (number self ≡ 2 ^ 256 - 1) }
    {
        self == Bits::all()
    }

    // How many members there are.
    pub(crate) fn count(self) -> u32
        ensures { result ≡ count_ones (number self) }
    {
        self.low.count_ones() + self.high.count_ones()
    }

    // From the greatest member down.
    pub(crate) fn members(self) -> Members
        ensures { number result.rest ≡ number self }
    {
        Members { rest: self }
    }

    // The greatest member.
    pub(crate) fn highest(self) -> u8
        requires { 0 < number self }
        ensures { (2 ^ result ≤ number self) × (number self < 2 * 2 ^ result) }
    {
        if self.high > 0 {
            128 + highest_bit(self.high)
        } else {
            highest_bit(self.low)
        }
    }

    // The least member.
    pub(crate) fn lowest(self) -> u8
        requires { 0 < number self }
        ensures found { In (number self) result }
        ensures least { (k : ℕ) → In (number self) k → result ≤ k }
    {
        if self.low > 0 {
            lowest_bit(self.low)
        } else {
            128 + lowest_bit(self.high)
        }
    }
}

// The members of a set that are still to come.
#[derive(Drop)]
pub(crate) struct Members {
    rest: Bits,
}

impl Iterator for Members {
    type Item = u8;

    ghost next_gives = { λ s b t. TakesHighest (number s.rest) b (number t.rest) };

    ghost remaining = { λ s. at_most (number s.rest) };

    fn next(&mut self) -> Option<u8> {
        let Bits { low, high } = self.rest;
        if high > 0 {
            let top = highest_bit(high);
            self.rest.high = high - (1 << top);
            Some(128 + top)
        } else if low > 0 {
            let top = highest_bit(low);
            self.rest.low = low - (1 << top);
            Some(top)
        } else {
            None
        }
    }
}

fn highest_bit(w: u128) -> u8
    requires { 0 < w }
    ensures { (result < 128) × (2 ^ result ≤ w) × (w < 2 * 2 ^ result) }
{
    (127 - w.leading_zeros()) as u8
}

fn lowest_bit(w: u128) -> u8
    requires { 0 < w }
    ensures small { result < 128 }
    ensures found { In w result }
    ensures least { (k : ℕ) → In w k → result ≤ k }
{
    w.trailing_zeros() as u8
}
