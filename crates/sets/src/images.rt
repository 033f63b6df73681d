// What an operation gives from every member.
ghost use Rattle.std.specs.Prelude.{◌≡◌, ◌-◌, ◌%◌, ◌^◌};
ghost use Rattle.operands.specs.Bytes.{Same, Two, one, kept_bits};
ghost use Rattle.operands.specs.Bytes.One.{rotate as rotate_by, keep as keep_bits};
ghost use Rattle.operands.specs.Exact.{exact_twos};
ghost use Rattle.sets.specs.Numbers.{number, In};
ghost use Rattle.sets.specs.Steps.{Image, GivesRows};

use crate::bitset::Bits;
use crate::rows::and_row;
use operands::rotated_byte;

// Each member rotated. All bytes are often met, and stay all bytes.
pub(crate) fn rotated_members(by: u8, xs: Bits) -> Bits
    ensures { Same (In (number result)) (Image (one (rotate_by by)) (In (number xs))) }
{
    if xs.is_all() {
        return xs;
    }
    let mut out = Bits::default();
    for b in xs.members() {
        out = out.union(Bits::only(rotated_byte(b, by)));
    }
    out
}

// The byte whose lowest bits are 1, as many as are kept.
fn kept_bits(bits: u8) -> u8
    ensures { result ≡ 2 ^ kept_bits (bits % 8) - 1 }
{
    match bits % 8 {
        0 => 255,
        n => (1 << n) - 1,
    }
}

// The lowest bits of each member, which AND with those bits keeps.
pub(crate) fn kept_members(bits: u8, xs: Bits) -> Bits
    ensures { Same (In (number result)) (Image (one (keep_bits bits)) (In (number xs))) }
{
    and_row(kept_bits(bits), xs)
}

// What an operation gives from each member of `xs` and each of `ys`, by a row for each of `xs`.
fn rows<F: Fn(u8, Bits) -> Bits>(row: F, xs: Bits, ys: Bits) -> Bits
    requires { F.IsAlwaysCallable row }
    ensures { (f : Two) → GivesRows f (F.post row) → Same (In (number result)) (exact_twos f (In (number xs)) (In (number ys))) }
{
    let mut out = Bits::default();
    for a in xs.members() {
        // no row adds a byte to all bytes
        if out.is_all() {
            return out;
        }
        out = out.union(row(a, ys));
    }
    out
}

// The same; the smaller set has fewer rows, and no operation minds which set is first.
pub(crate) fn combined<F: Fn(u8, Bits) -> Bits>(row: F, xs: Bits, ys: Bits) -> Bits
    requires { F.IsAlwaysCallable row }
    ensures { (f : Two) → GivesRows f (F.post row) → Same (In (number result)) (exact_twos f (In (number xs)) (In (number ys))) }
{
    if xs.count() <= ys.count() {
        rows(row, xs, ys)
    } else {
        rows(row, ys, xs)
    }
}
