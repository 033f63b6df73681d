// Numbers without a pattern, the same ones for the same seed.
#![tactic(auto)]

ghost use Rattle.std.specs.Prelude.{◌≡◌};
ghost use Rattle.numbers.specs.Numbers.{first_state, stepped, number_of, byte_of, bit_of};

// Spreads small seeds over all the bits.
const SPREAD: u64 = 0x9e37_79b9_7f4a_7c15;

#[derive(Drop)]
pub struct Numbers {
    state: u64,
}

impl Numbers {
    pub fn new(seed: u64) -> Numbers
        ensures { result.state ≡ first_state seed }
    {
        Numbers {
            state: seed.wrapping_add(1).wrapping_mul(SPREAD),
        }
    }

    // A number of 32 bits.
    pub fn next_number(&mut self) -> u32
        ensures number { result ≡ number_of self.new.state }
        ensures state { self.new.state ≡ stepped self.old.state }
    {
        let mut x = self.state;
        x ^= x << 13;
        x ^= x >> 7;
        x ^= x << 17;
        self.state = x;
        ((x >> 16) & 0xffff_ffff) as u32
    }

    pub fn next_byte(&mut self) -> u8
        ensures byte { result ≡ byte_of self.new.state }
        ensures state { self.new.state ≡ stepped self.old.state }
    {
        (self.next_number() & 0xff) as u8
    }

    pub fn next_bit(&mut self) -> bool
        ensures bit { result ≡ bit_of self.new.state }
        ensures state { self.new.state ≡ stepped self.old.state }
    {
        self.next_number() % 2 == 1
    }
}
