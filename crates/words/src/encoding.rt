// From an instruction back to its word.
ghost use Rattle.std.specs.Prelude.{◌≡◌, ℕ, ◌<◌, if◌then◌else◌, Some, None, Decides};
ghost use Rattle.words.specs.Rebuilding.{Rebuilt, field_number, source_number, destination_number, length_number, coded_length, word_of, parts_word};
ghost use Rattle.instructions.specs.Classes.{class_number};
ghost use Rattle.words.specs.Words.{meaning, permitted};

use crate::decoding::decode;
use instructions::{Class, Destination, Field, Instruction, Side, Source};

fn field_number(field: Field) -> u8
    ensures value { result ≡ field_number field }
    ensures bound { result < 32 }
{
    match field.side {
        Side::Left => 16 + field.bit,
        Side::Right => 24 + field.bit,
    }
}

// One match for each of the two types: they share no trait, and one would be longer than both.
fn source_number(source: Source) -> u8
    ensures value { result ≡ source_number source }
    ensures bound { result < 32 }
{
    match source {
        Source::Register { register, .. } => register.number(),
        Source::Field(field) => field_number(field),
    }
}

fn destination_number(destination: Destination) -> u8
    ensures value { result ≡ destination_number destination }
    ensures bound { result < 32 }
{
    match destination {
        Destination::Register(register) => register.number(),
        Destination::Field(field) => field_number(field),
    }
}

// Bits 8-10 of a word with a source and a destination.
fn length_number(source: Source, destination: Destination) -> u8
    ensures { result ≡ length_number source destination }
{
    match (source, destination) {
        (Source::Field(field), _) | (_, Destination::Field(field)) => field.length % 8,
        (Source::Register { rotate, .. }, Destination::Register(_)) => rotate,
    }
}

// What a bank field, or none, takes of bits 8-10 of a word with a constant.
fn coded_length(field: Option<Field>) -> u8
    ensures value { result ≡ coded_length field }
    ensures bound { result < 8 }
{
    field.map_or(0, |field| field.length % 8)
}

fn word_of(class: Class, s: u8, l: u8, d: u16) -> u16
    requires { (s < 32) × (word_of (class_number class) s l d < 65536) }
    ensures { result ≡ word_of (class_number class) s l d }
{
    class.number() as u16 * 8192 + s as u16 * 256 + l as u16 * 32 + d
}

// The word that the parts of an instruction make, whether or not it means the instruction.
fn parts_word(instruction: Instruction) -> u16
    ensures { result ≡ parts_word instruction }
{
    let class = instruction.class();
    match instruction {
        Instruction::Alu {
            operation: _,
            source,
            destination,
        } => word_of(
            class,
            source_number(source),
            length_number(source, destination),
            destination_number(destination) as u16,
        ),
        Instruction::Xec { source, offset } | Instruction::Nzt { source, offset } => word_of(
            class,
            source_number(source),
            coded_length(source.field()),
            offset as u16,
        ),
        Instruction::Xmit {
            constant,
            destination,
        } => word_of(
            class,
            destination_number(destination),
            coded_length(destination.field()),
            constant as u16,
        ),
        Instruction::Jmp { address } => word_of(class, 0, 0, address % 8192),
    }
}

// The only word that may mean the instruction.
fn candidate(instruction: Instruction) -> u16
    ensures { (w : ℕ) → w < 65536 → meaning w ≡ Some instruction → w ≡ result }
{
    parts_word(instruction)
}

fn means(word: u16, instruction: Instruction) -> bool
    ensures { Decides result (meaning word ≡ Some instruction) }
{
    decode(word) == Some(instruction)
}

// The word that means the instruction, or none where no word does.
pub fn encode(instruction: Instruction) -> Option<u16>
    ensures { Rebuilt instruction result }
{
    let word = candidate(instruction);
    means(word, instruction).then_some(word)
}

// A word decoded and rebuilt: itself where it is permitted.
pub fn rebuild(word: u16) -> Option<u16>
    ensures { result ≡ (if permitted word then Some word else None) }
{
    decode(word).and_then(encode)
}
