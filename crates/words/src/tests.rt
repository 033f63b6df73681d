// Worked examples, and instructions that no word means.
ghost use Rattle.std.specs.Prelude.{◌<◌, ◌≤◌};

use super::*;
use instructions::*;

const R1: Source = Source::Register {
    register: Register::R1,
    rotate: 0,
};

const R1_ROTATED: Source = Source::Register {
    register: Register::R1,
    rotate: 1,
};

const R1_TURNED_ROUND: Source = Source::Register {
    register: Register::R1,
    rotate: 8,
};

const R2: Destination = Destination::Register(Register::R2);

const R7: Destination = Destination::Register(Register::R7);

const R10: Destination = Destination::Register(Register::R10);

fn left_field(length: u8) -> Field
    requires { (0 < length) × (length ≤ 8) }
{
    Field {
        side: Side::Left,
        bit: 7,
        length,
    }
}

fn alu(operation: Operation, source: Source, destination: Destination) -> Instruction {
    Instruction::Alu {
        operation,
        source,
        destination,
    }
}

fn xec(source: Source, offset: u8) -> Instruction {
    Instruction::Xec { source, offset }
}

fn xmit(constant: u8, destination: Destination) -> Instruction {
    Instruction::Xmit {
        constant,
        destination,
    }
}

#[test]
fn worked_examples(rt: HostRuntime) {
    assert_eq!(rt; decode(0xc705), Some(xmit(5, R7)));
    assert_eq!(rt; decode(0x0122), Some(alu(Operation::Move, R1_ROTATED, R2)));
    assert_eq!(rt; decode(0x97bf), Some(xec(Source::Field(left_field(5)), 31)));
    assert_eq!(rt; decode(0x0008), None, "R10 is no destination");
    assert_eq!(rt; decode(0x97df), None, "XEC takes at most 5 bits of a field");
}

#[test]
fn register_is_not_rotated_into_a_field(rt: HostRuntime) {
    let bit = Destination::Field(left_field(1));
    assert_eq!(rt; decode(0x0137), Some(alu(Operation::Move, R1, bit)));
    assert_eq!(rt; encode(alu(Operation::Move, R1_ROTATED, bit)), None);
}

#[test]
fn no_word_means_these(rt: HostRuntime) {
    let two_bits = Destination::Field(left_field(2));
    let three_bits = Source::Field(left_field(3));
    let six_bits = Source::Field(left_field(6));
    assert_eq!(rt; encode(alu(Operation::Add, R1, R10)), None);
    assert_eq!(rt; encode(alu(Operation::Add, R1_TURNED_ROUND, R2)), None);
    assert_eq!(rt; encode(alu(Operation::And, three_bits, two_bits)), None);
    assert_eq!(rt; encode(xec(six_bits, 0)), None);
    assert_eq!(rt; encode(xec(R1_ROTATED, 0)), None);
    assert_eq!(rt; encode(xec(three_bits, 32)), None);
    assert_eq!(rt; encode(xmit(0, R10)), None);
    assert_eq!(rt; encode(xmit(32, two_bits)), None);
    assert_eq!(rt; encode(Instruction::Jmp { address: 8_192 }), None);
}

#[test]
fn code_ends_with_its_last_whole_word(rt: HostRuntime) {
    let code = [0xc7, 0x05, 0xd7, 0x43, 0xe0];
    assert_eq!(rt; word_count(&code), 2);
    assert_eq!(rt; fetch(&code, 1), Some(0xd743));
    assert_eq!(rt; fetch(&code, 2), None);
}
