// Compares every kind of operands with brute force over all bytes, and prints how many answers it compared and how many differ.
#![tactic(auto)]

mod brute;
mod compare;

use crate::brute::{Members, bit_by_bit};
use crate::compare::Comparison;
use marks::Marks;
use numbers::Numbers;
use operands::{Byte, Operand, Spreading};
use sets::Set;
use std::io;

const PAIRS: u32 = 2_000;

const SEED: u64 = 0;

fn some_byte(numbers: &mut Numbers) -> u8 {
    ((numbers.next_number() >> 16) & 0xff) as u8
}

fn compared_bytes() -> Comparison {
    let mut numbers = Numbers::new(SEED);
    let mut comparison = Comparison::default();
    for _ in 0..PAIRS {
        let x = Byte::constant(some_byte(&mut numbers));
        let y = Byte::constant(some_byte(&mut numbers));
        comparison.compare(x, y, |image| image);
    }
    comparison
}

// An operand of some kind: all bytes now and then, else a few bytes joined.
fn some_operand<K: Spreading>(numbers: &mut Numbers) -> K {
    if some_byte(numbers) < 16 {
        return K::all();
    }
    let mut operand = K::constant(some_byte(numbers));
    for _ in 0..some_byte(numbers) % 16 {
        let (joined, _) = operand.join(K::constant(some_byte(numbers)));
        operand = joined;
    }
    operand
}

// `expected` makes what an answer should have from what the members give.
fn compared<K: Spreading, E: Fn(Members) -> Members + Copy>(expected: E) -> Comparison
    requires { E.IsAlwaysCallable expected }
{
    let mut numbers = Numbers::new(SEED);
    let mut comparison = Comparison::default();
    for _ in 0..PAIRS {
        let x: K = some_operand(&mut numbers);
        let y: K = some_operand(&mut numbers);
        comparison.compare(x, y, expected);
        comparison.compare_join(x, y, expected);
    }
    comparison
}

fn main(rt: HostRuntime) -> io::Result<()> {
    let bytes = compared_bytes();
    println!(rt; "byte: {bytes}")?;
    let marks = compared::<Marks, _>(|image| bit_by_bit(&image));
    println!(rt; "marks: {marks}")?;
    let sets = compared::<Set, _>(|image| image);
    println!(rt; "set: {sets}")
}
