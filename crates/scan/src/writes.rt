// Whether a write may reach a withheld bit.
ghost use Rattle.std.specs.Prelude.{◌≡◌, ℕ, Decides, ◌≢◌, bit_and};
ghost use Rattle.image.specs.Grants.{mask_of};
ghost use Rattle.flow.specs.Breaches.{Exceeds};
ghost use Rattle.flow.specs.Entries.{allows};

use crate::masks::Masks;
use effects::selector;
use flow::Entry;
use instructions::Side;
use operands::Operand;

impl Masks<'_> {
    // Whether some port among the members of `selecting` does not grant all of `bits`.
    fn withhold<K: Operand>(&self, side: Side, bits: u8, selecting: K) -> bool
        ensures { Decides result ((k : ℕ) × (K.Operand.operations.has selecting k × (bit_and bits (mask_of self.now.grants.now side k) ≢ bits))) }
    {
        // over 0..=255u8 the check of the largest image takes a twentieth longer
        (0..256usize).any(|port| {
            selecting.contains(port as u8) && bits & self.granted(side, port) != bits
        })
    }

    // Whether what is covered goes beyond the grants.
    pub(crate) fn exceeded<K: Operand>(&self, covered: Option<(Side, u8)>, entry: &Entry<K>) -> bool
        ensures { Decides result (Exceeds self.now.grants.now covered (allows K.Operand.operations entry.now)) }
    {
        // a match, since the closure of is_some_and would need a contract that repeats this one
        match covered {
            None => false,
            Some((side, bits)) => self.withhold(side, bits, entry.operand(selector(side))),
        }
    }
}
