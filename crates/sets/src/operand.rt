// Sets of bytes as operands.
ghost use Rattle.std.specs.Prelude.{◌≡◌, ◌<◌};
ghost use Rattle.operands.specs.Bytes.{Same};
ghost use Rattle.operands.specs.Bytes.Two.{carry as carry_of};
ghost use Rattle.operands.specs.Exact.{exact_twos};
ghost use Rattle.sets.specs.Numbers.{number};
ghost use Rattle.sets.specs.Sets.{set_has, set_rank, set_joined, set_operations, set_lawful, set_joined_least};
ghost use Rattle.std.proofs.lemmas.Nat.{ones-le};

use crate::bitset::Bits;
use crate::images::{combined, kept_members, rotated_members};
use crate::rows::{and_row, sum_row, xor_row};
use crate::set::Set;
use operands::{LeastJoin, Operand, Spreading, carry_byte};

// An answer is a set once it is known to have a member.
fn made(bits: Bits) -> Set
    requires { 0 < number bits }
    ensures { number result.bits ≡ number bits }
{
    Set { bits }
}

// A carry is 0 or 1, and grows with the bytes: the least members give the least, the greatest the greatest.
fn carries(x: Set, y: Set) -> Set
    ensures { Same (set_has result) (exact_twos carry_of (set_has x) (set_has y)) }
{
    let least = carry_byte(x.bits.lowest(), y.bits.lowest());
    let most = carry_byte(x.bits.highest(), y.bits.highest());
    made(Bits::only(least).union(Bits::only(most)))
}

impl Operand for Set {
    ghost operations = { set_operations };

    ghost lawful = { set_lawful };

    fn constant(b: u8) -> Set {
        made(Bits::only(b))
    }

    fn rotate_right(self, by: u8) -> Set {
        made(rotated_members(by, self.bits))
    }

    fn keep_lowest(self, bits: u8) -> Set {
        made(kept_members(bits, self.bits))
    }

    fn and(self, other: Set) -> Set {
        made(combined(and_row, self.bits, other.bits))
    }

    fn xor(self, other: Set) -> Set {
        made(combined(xor_row, self.bits, other.bits))
    }

    fn add(self, other: Set) -> (Set, Set) {
        (
            made(combined(sum_row, self.bits, other.bits)),
            carries(self, other),
        )
    }

    fn contains(self, b: u8) -> bool {
        self.bits.contains(b)
    }
}

impl Spreading for Set {
    const MAX_RANK: usize = 256;

    ghost MAX_RANK = { 256 };

    ghost rank = { set_rank };

    ghost joined = { set_joined };

    ghost bounded = { λ x. ones-le 256 (number x.bits) x.fits };

    fn all() -> Set {
        made(Bits::all())
    }

    // The union, so a byte was added where the union differs from the first.
    fn join(self, other: Set) -> (Set, bool) {
        let both = self.bits.union(other.bits);
        (made(both), both != self.bits)
    }
}

impl LeastJoin for Set {
    ghost least = { set_joined_least };
}
