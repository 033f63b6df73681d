// Sets of bytes the slow way: every member is tried.
use std::array;

pub(crate) type Members = [bool; 256];

// The bit of weight 2 to the power of `place`.
fn bit_of(b: u8, place: u8) -> bool {
    (b >> (place % 8)) & 1 == 1
}

pub(crate) fn rotated(b: u8, by: u8) -> u8 {
    let mut out = b;
    for _ in 0..by % 8 {
        out = (out >> 1) | ((out & 1) << 7);
    }
    out
}

pub(crate) fn kept(b: u8, bits: u8) -> u8 {
    let mut out = 0;
    for place in 0..8u8 {
        if (bits % 8 == 0 || place < bits % 8) && bit_of(b, place) {
            out |= 1 << place;
        }
    }
    out
}

pub(crate) fn sum(a: u8, b: u8) -> u8 {
    ((a as u16 + b as u16) % 256) as u8
}

pub(crate) fn carry(a: u8, b: u8) -> u8 {
    ((a as u16 + b as u16) / 256) as u8
}

// The bytes of which a test holds.
pub(crate) fn members_where<F: Fn(u8) -> bool>(is_member: F) -> Members
    requires { F.IsAlwaysCallable is_member }
{
    array::from_fn(|b| is_member(b as u8))
}

// Adds what an operation gives from the members.
fn add_image<F: Fn(u8) -> u8>(out: &mut Members, operation: F, x: &Members)
    requires { F.IsAlwaysCallable operation }
{
    for (a, is_member) in (0..=255u8).zip(x) {
        if *is_member {
            out[operation(a) as usize] = true;
        }
    }
}

pub(crate) fn image_of_one<F: Fn(u8) -> u8>(operation: F, x: &Members) -> Members
    requires { F.IsAlwaysCallable operation }
{
    let mut out = [false; 256];
    add_image(&mut out, operation, x);
    out
}

pub(crate) fn image_of_two<F: Fn(u8, u8) -> u8>(operation: F, x: &Members, y: &Members) -> Members
    requires { F.IsAlwaysCallable operation }
{
    let mut out = [false; 256];
    for (a, is_member) in (0..=255u8).zip(x) {
        if *is_member {
            add_image(&mut out, |b| operation(a, b), y);
        }
    }
    out
}

// For each place, whether some member has `value` there.
fn places_with(x: &Members, value: bool) -> [bool; 8] {
    array::from_fn(|place| (0..=255u8).any(|b| x[b as usize] && bit_of(b, place as u8) == value))
}

// The bytes each of whose bits some member has. The members are gone through once for each place and value, not for each byte.
pub(crate) fn bit_by_bit(x: &Members) -> Members {
    let zeros = places_with(x, false);
    let ones = places_with(x, true);
    members_where(|b| {
        (0..8u8).zip(zeros.iter().zip(&ones)).all(|(place, (zero, one))| if bit_of(b, place) {
            *one
        } else {
            *zero
        })
    })
}

pub(crate) fn union_of(x: &Members, y: &Members) -> Members {
    members_where(|b| x[b as usize] || y[b as usize])
}

pub(crate) fn is_inside(x: &Members, y: &Members) -> bool {
    x.iter().zip(y).all(|(a, b)| *b || !*a)
}
