// A line of the word list: the word in hex and `-`, or its class, source, destination and rebuilt word.
// `R1>3` is a register and its rotation, `R1` one that is not rotated, `l4.2` and `r4.2` a bank field by bit and length, `#5` a constant.
ghost use Rattle.std.specs.Prelude.{◌≡◌, ◌+◌, ◌<◌, is_some, if◌then◌else◌};
ghost use Rattle.words.specs.Words.{meaning, permitted};

use instructions::{Destination, Field, Instruction, Side, Source};
use std::fmt;
use words::{decode, encode};

#[derive(Clone, Copy)]
pub(crate) struct Line {
    word: u16,
    meaning: Option<Instruction>,
}

impl From<u16> for Line {
    ghost from_gives = { λ w r. (r.word ≡ w) × (r.meaning ≡ meaning w) × (is_some r.meaning ≡ permitted w) };

    fn from(word: u16) -> Line {
        Line {
            word,
            meaning: decode(word),
        }
    }
}

impl Line {
    // The number of permitted words with this one.
    pub(crate) fn counted(&self, before: u32) -> u32
        requires { before < 65536 }
        ensures { result ≡ (if is_some self.now.meaning then 1 else 0) + before }
    {
        if self.meaning.is_some() {
            before + 1
        } else {
            before
        }
    }
}

// Functions, and no newtype with `Display`: an instruction's own `Display` is the listing's, and a wrapper for this one would have to be bound to a name before each `write!`.
fn write_field<W: fmt::Write>(f: &mut fmt::Formatter<W>, field: Field) -> fmt::Result {
    let bit = field.bit;
    let length = field.length;
    match field.side {
        Side::Left => write!(f, "l{bit}.{length}"),
        Side::Right => write!(f, "r{bit}.{length}"),
    }
}

// A source without the rotation of a register.
fn write_source<W: fmt::Write>(f: &mut fmt::Formatter<W>, source: Source) -> fmt::Result {
    match source {
        Source::Register { register, .. } => write!(f, "{register}"),
        Source::Field(field) => write_field(f, field),
    }
}

fn write_destination<W: fmt::Write>(
    f: &mut fmt::Formatter<W>,
    destination: Destination,
) -> fmt::Result {
    match destination {
        Destination::Register(register) => write!(f, "{register}"),
        Destination::Field(field) => write_field(f, field),
    }
}

// Source and destination. A word rotates only from register to register; a jump has no destination.
fn write_operands<W: fmt::Write>(
    f: &mut fmt::Formatter<W>,
    instruction: Instruction,
) -> fmt::Result {
    match instruction {
        Instruction::Alu {
            operation: _,
            source,
            destination,
        } => {
            write_source(f, source)?;
            if let (Source::Register { rotate, .. }, Destination::Register(_)) = (
                source,
                destination,
            ) {
                write!(f, ">{rotate}")?;
            }
            f.write_str(" ")?;
            write_destination(f, destination)
        }
        Instruction::Xec { source, offset } | Instruction::Nzt { source, offset } => {
            write_source(f, source)?;
            write!(f, " #{offset}")
        }
        Instruction::Xmit {
            constant,
            destination,
        } => {
            write!(f, "#{constant} ")?;
            write_destination(f, destination)
        }
        Instruction::Jmp { address } => write!(f, "#{address} -"),
    }
}

fn write_meaning<W: fmt::Write>(
    f: &mut fmt::Formatter<W>,
    instruction: Instruction,
) -> fmt::Result {
    let class = instruction.class();
    write!(f, " {class} ")?;
    write_operands(f, instruction)?;
    match encode(instruction) {
        Some(word) => write!(f, " {word:04x}"),
        None => f.write_str(" not rebuilt"),
    }
}

impl fmt::Display for Line {
    fn fmt<W: fmt::Write>(&self, f: &mut fmt::Formatter<W>) -> fmt::Result {
        let word = self.word;
        write!(f, "{word:04x}")?;
        match self.meaning {
            Some(instruction) => write_meaning(f, instruction),
            None => f.write_str(" -"),
        }
    }
}
