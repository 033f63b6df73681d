// Why a line of a script is refused.
use std::{fmt, io};

#[derive(Clone, Copy, Debug)]
pub enum LineFault<'a> {
    // the line begins with a word that names nothing
    UnknownWord { word: &'a str },
    // fewer words than the line wants
    MissingWord,
    // more words than the line wants
    ExtraWord,
    // other than 16 registers
    RegisterCount,
    // a word that is not one or two hex digits
    NotByte { word: &'a str },
    // a bank that is neither L nor R
    NotBank { word: &'a str },
    // a reset or halt line that is neither 0 nor 1
    NotLevel { word: &'a str },
    // a count of cycles that is no decimal number, or too large for a usize
    NotCount { word: &'a str },
    // registers that are given twice
    RegistersAgain,
    // registers or a port after the first call
    LateSetup,
}

impl fmt::Display for LineFault<'_> {
    fn fmt<W: fmt::Write>(&self, f: &mut fmt::Formatter<W>) -> fmt::Result {
        match *self {
            LineFault::UnknownWord { word } => write!(f, "unknown word: {word}"),
            LineFault::MissingWord => f.write_str("a word is missing"),
            LineFault::ExtraWord => f.write_str("too many words"),
            LineFault::RegisterCount => f.write_str("expected 16 registers"),
            LineFault::NotByte { word } => write!(f, "not a byte in hex: {word}"),
            LineFault::NotBank { word } => write!(f, "not a bank, L or R: {word}"),
            LineFault::NotLevel { word } => write!(f, "not a level, 0 or 1: {word}"),
            LineFault::NotCount { word } => write!(f, "not a count in decimal: {word}"),
            LineFault::RegistersAgain => f.write_str("the registers are given already"),
            LineFault::LateSetup => f.write_str("regs and port come before the first call"),
        }
    }
}

// Why a script is not played to its end.
#[derive(Drop)]
pub enum ScriptFault<'a> {
    // a line that is refused, by its number; the first line is 1
    Line { number: usize, fault: LineFault<'a> },
    // an answer that cannot be written
    Output(io::Error),
}

impl<'a> From<io::Error> for ScriptFault<'a> {
    fn from(error: io::Error) -> ScriptFault<'a> {
        ScriptFault::Output(error)
    }
}

// The place of a line's fault goes before it: `line 7: too many words`.
impl fmt::Display for ScriptFault<'_> {
    fn fmt<W: fmt::Write>(&self, f: &mut fmt::Formatter<W>) -> fmt::Result {
        match self {
            ScriptFault::Line { number, fault } => write!(f, "line {number}: {fault}"),
            ScriptFault::Output(error) => write!(f, "{error}"),
        }
    }
}
