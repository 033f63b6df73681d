// What an operation gives from one byte and each member of a set, by whole words.
ghost use Rattle.std.specs.Prelude.{◌≡◌, ℕ, ◌+◌, ◌-◌, ◌%◌, ◌^◌, ◌<◌, bit_xor};
ghost use Rattle.operands.specs.Bytes.{Same, two};
ghost use Rattle.operands.specs.Bytes.Two.{and as and_of, xor as xor_of, sum as sum_of};
ghost use Rattle.bits.specs.Bits.{bit};
ghost use Rattle.sets.specs.Numbers.{number, In};
ghost use Rattle.sets.specs.Mixing.{without, folded_bit, clear_places, BitByBit, ChangesBit};
ghost use Rattle.sets.specs.Steps.{Image};

use crate::bitset::Bits;

// `w` moved up by `by` places, with the top of `below` under it.
fn moved_up(w: u128, below: u128, by: u8) -> u128
    requires { by < 128 }
    ensures above { (k : ℕ) → by + k < 128 → bit result (by + k) ≡ bit w k }
    ensures under { (k : ℕ) → k < by → bit result k ≡ bit below (128 - by + k) }
{
    (w << by) | (below >> 1 >> (127 - by))
}

// All 256 bits turned up by `by` places.
fn turned_up(xs: Bits, by: u8) -> Bits
    requires { by < 128 }
    ensures { (k : ℕ) → k < 256 → bit (number result) k ≡ bit (number xs) ((k + (256 - by)) % 256) }
{
    Bits {
        low: moved_up(xs.low, xs.high, by),
        high: moved_up(xs.high, xs.low, by),
    }
}

// What the sum modulo 256 gives: all bits turned up by `a` places.
pub(crate) fn sum_row(a: u8, ys: Bits) -> Bits
    ensures { Same (In (number result)) (Image (two sum_of a) (In (number ys))) }
{
    let turned = turned_up(ys, a % 128);
    if a < 128 {
        turned
    } else {
        Bits {
            low: turned.high,
            high: turned.low,
        }
    }
}

// For each bit below 7, the places below 128 that lack it.
const CLEAR_PLACES: [u128; 7] = [
    0x5555_5555_5555_5555_5555_5555_5555_5555,
    0x3333_3333_3333_3333_3333_3333_3333_3333,
    0x0f0f_0f0f_0f0f_0f0f_0f0f_0f0f_0f0f_0f0f,
    0x00ff_00ff_00ff_00ff_00ff_00ff_00ff_00ff,
    0x0000_ffff_0000_ffff_0000_ffff_0000_ffff,
    0x0000_0000_ffff_ffff_0000_0000_ffff_ffff,
    0x0000_0000_0000_0000_ffff_ffff_ffff_ffff,
];

fn clear_places(j: u8) -> u128
    requires { j < 7 }
    ensures { result ≡ clear_places j }
{
    CLEAR_PLACES[j as usize]
}

// How many bits a block has.
fn block(j: u8) -> u8
    requires { j < 7 }
    ensures { (result ≡ 2 ^ j) × (result < 128) }
{
    1 << j
}

// Neighbouring blocks of 2 ^ j bits folded into the lower one.
fn folded(w: u128, j: u8) -> u128
    requires { j < 7 }
    ensures { (k : ℕ) → k < 128 → bit result k ≡ folded_bit (bit k j) (bit w k) (bit w (bit_xor (2 ^ j) k)) }
{
    (w | (w >> block(j))) & clear_places(j)
}

// Neighbouring blocks of 2 ^ j bits exchanged.
fn exchanged(w: u128, j: u8) -> u128
    requires { j < 7 }
    ensures { (k : ℕ) → k < 128 → bit result k ≡ bit w (bit_xor (2 ^ j) k) }
{
    let places = clear_places(j);
    let by = block(j);
    ((w >> by) & places) | ((w & places) << by)
}

// Each member without bit `j`.
fn cleared(xs: Bits, j: u8) -> Bits
    requires { j < 8 }
    ensures { Same (In (number result)) (Image (without (2 ^ j)) (In (number xs))) }
{
    if j < 7 {
        Bits {
            low: folded(xs.low, j),
            high: folded(xs.high, j),
        }
    } else {
        Bits {
            low: xs.low | xs.high,
            high: 0,
        }
    }
}

// Each member with the other bit `j`.
fn flipped(xs: Bits, j: u8) -> Bits
    requires { j < 8 }
    ensures { Same (In (number result)) (Image (bit_xor (2 ^ j)) (In (number xs))) }
{
    if j < 7 {
        Bits {
            low: exchanged(xs.low, j),
            high: exchanged(xs.high, j),
        }
    } else {
        Bits {
            low: xs.high,
            high: xs.low,
        }
    }
}

// What `change` makes of the members, one bit of `bits` after another.
fn changed<F: Fn(Bits, u8) -> Bits>(bits: u8, change: F, xs: Bits) -> Bits
    requires { (s : Bits) (j : ℕ) → j < 8 → F.pre change s j }
    ensures { (f : ℕ → ℕ → ℕ) → BitByBit f → ChangesBit f (F.post change) → Same (In (number result)) (Image (f bits) (In (number xs))) }
{
    let mut out = xs;
    for j in 0..8u8 {
        if (bits >> j) % 2 == 1 {
            out = change(out, j);
        }
    }
    out
}

// What AND gives: each member without the bits that `a` lacks.
pub(crate) fn and_row(a: u8, ys: Bits) -> Bits
    ensures { Same (In (number result)) (Image (two and_of a) (In (number ys))) }
{
    changed(!a, cleared, ys)
}

// What XOR gives: each member with the bits of `a` flipped.
pub(crate) fn xor_row(a: u8, ys: Bits) -> Bits
    ensures { Same (In (number result)) (Image (two xor_of a) (In (number ys))) }
{
    changed(a, flipped, ys)
}
