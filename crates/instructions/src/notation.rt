// Instructions as people of the chip write them: `MOVE R4(5),R4`, `MOVE LIV4,3,R2`, `XEC 40(R1)`, `XMIT 5,R7`.
// Numbers are octal. LIV and RIV with a digit are a field of the left or the right bank by its lowest bit;
// the length of a field stands between the operands, where the word has it.
use crate::field::{Field, Side};
use crate::instruction::{Class, Destination, Instruction, Source};
use crate::register::Register;
use std::fmt;

impl fmt::Display for Class {
    fn fmt<W: fmt::Write>(&self, f: &mut fmt::Formatter<W>) -> fmt::Result {
        f.write_str(self.mnemonic())
    }
}

impl fmt::Display for Register {
    fn fmt<W: fmt::Write>(&self, f: &mut fmt::Formatter<W>) -> fmt::Result {
        let number = self.number();
        write!(f, "R{number:o}")
    }
}

impl fmt::Display for Side {
    fn fmt<W: fmt::Write>(&self, f: &mut fmt::Formatter<W>) -> fmt::Result {
        match *self {
            Side::Left => f.write_str("left"),
            Side::Right => f.write_str("right"),
        }
    }
}

// The bank and the lowest bit.
impl fmt::Display for Field {
    fn fmt<W: fmt::Write>(&self, f: &mut fmt::Formatter<W>) -> fmt::Result {
        let bit = self.bit;
        match self.side {
            Side::Left => write!(f, "LIV{bit:o}"),
            Side::Right => write!(f, "RIV{bit:o}"),
        }
    }
}

impl fmt::Display for Source {
    fn fmt<W: fmt::Write>(&self, f: &mut fmt::Formatter<W>) -> fmt::Result {
        match *self {
            Source::Register {
                register,
                rotate: 0,
            } => write!(f, "{register}"),
            Source::Register { register, rotate } => write!(f, "{register}({rotate:o})"),
            Source::Field(field) => write!(f, "{field}"),
        }
    }
}

impl fmt::Display for Destination {
    fn fmt<W: fmt::Write>(&self, f: &mut fmt::Formatter<W>) -> fmt::Result {
        match *self {
            Destination::Register(register) => write!(f, "{register}"),
            Destination::Field(field) => write!(f, "{field}"),
        }
    }
}

// The length of a field, which the word codes.
fn write_length<W: fmt::Write>(f: &mut fmt::Formatter<W>, field: Option<Field>) -> fmt::Result {
    match field {
        Some(Field { length, .. }) => write!(f, ",{length:o}"),
        None => Ok(()),
    }
}

impl fmt::Display for Instruction {
    fn fmt<W: fmt::Write>(&self, f: &mut fmt::Formatter<W>) -> fmt::Result {
        let class = self.class();
        match *self {
            Instruction::Alu {
                operation: _,
                source,
                destination,
            } => {
                write!(f, "{class} {source}")?;
                write_length(f, source.field().or(destination.field()))?;
                write!(f, ",{destination}")
            }
            Instruction::Xec { source, offset } => {
                write!(f, "{class} {offset:o}({source}")?;
                write_length(f, source.field())?;
                f.write_str(")")
            }
            Instruction::Nzt { source, offset } => {
                write!(f, "{class} {source}")?;
                write_length(f, source.field())?;
                write!(f, ",{offset:o}")
            }
            Instruction::Xmit {
                constant,
                destination,
            } => {
                write!(f, "{class} {constant:o}")?;
                write_length(f, destination.field())?;
                write!(f, ",{destination}")
            }
            Instruction::Jmp { address } => write!(f, "{class} {address:o}"),
        }
    }
}
