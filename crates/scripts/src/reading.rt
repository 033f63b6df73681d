// How a line is read, word by word.
use crate::fault::LineFault;
use crate::line::Line;
use banks::Port;
use bench::{Call, hex_byte};
use engine::Lines;
use instructions::Side;
use std::str::SplitWhitespace;

fn next_word<'a>(words: &mut SplitWhitespace<'a>) -> Result<&'a str, LineFault<'a>> {
    words.next().ok_or(LineFault::MissingWord)
}

fn byte_of<'a>(word: &'a str) -> Result<u8, LineFault<'a>> {
    hex_byte(word).ok_or(LineFault::NotByte { word })
}

fn next_byte<'a>(words: &mut SplitWhitespace<'a>) -> Result<u8, LineFault<'a>> {
    byte_of(next_word(words)?)
}

fn next_side<'a>(words: &mut SplitWhitespace<'a>) -> Result<Side, LineFault<'a>> {
    match next_word(words)? {
        "L" => Ok(Side::Left),
        "R" => Ok(Side::Right),
        word => Err(LineFault::NotBank { word }),
    }
}

fn next_level<'a>(words: &mut SplitWhitespace<'a>) -> Result<bool, LineFault<'a>> {
    match next_word(words)? {
        "0" => Ok(false),
        "1" => Ok(true),
        word => Err(LineFault::NotLevel { word }),
    }
}

fn next_count<'a>(words: &mut SplitWhitespace<'a>) -> Result<usize, LineFault<'a>> {
    let word = next_word(words)?;
    word.parse::<usize>()
        .map_err(|_| LineFault::NotCount { word })
}

// A word that is left is a fault.
fn no_more<'a>(words: &mut SplitWhitespace<'a>, fault: LineFault<'a>) -> Result<(), LineFault<'a>> {
    match words.next() {
        Some(_) => Err(fault),
        None => Ok(()),
    }
}

// All the words that are left.
fn registers<'a>(words: &mut SplitWhitespace<'a>) -> Result<[u8; 16], LineFault<'a>> {
    let mut registers = [0; 16];
    for register in registers.iter_mut() {
        *register = byte_of(words.next().ok_or(LineFault::RegisterCount)?)?;
    }
    no_more(words, LineFault::RegisterCount)?;
    Ok(registers)
}

fn port<'a>(words: &mut SplitWhitespace<'a>) -> Result<Line, LineFault<'a>> {
    let side = next_side(words)?;
    let number = next_byte(words)?;
    let byte = next_byte(words)?;
    let mask = next_byte(words)?;
    Ok(Line::Port {
        side,
        number,
        port: Port { byte, mask },
    })
}

fn drive<'a>(words: &mut SplitWhitespace<'a>) -> Result<Call, LineFault<'a>> {
    let side = next_side(words)?;
    let port = next_byte(words)?;
    let value = next_byte(words)?;
    Ok(Call::Drive { side, port, value })
}

fn cycle<'a>(words: &mut SplitWhitespace<'a>) -> Result<Call, LineFault<'a>> {
    let reset = next_level(words)?;
    let halt = next_level(words)?;
    Ok(Call::Cycle(Lines { reset, halt }))
}

fn run<'a>(words: &mut SplitWhitespace<'a>) -> Result<Call, LineFault<'a>> {
    let cycles = next_count(words)?;
    Ok(Call::Run { cycles })
}

// What a line says. A line of blanks says nothing.
pub fn read_line<'a>(text: &'a str) -> Result<Option<Line>, LineFault<'a>> {
    let mut words = text.split_whitespace();
    let Some(name) = words.next() else {
        return Ok(None);
    };
    let line = match name {
        "regs" => Line::Regs(registers(&mut words)?),
        "port" => port(&mut words)?,
        "drive" => Line::Call(drive(&mut words)?),
        "cycle" => Line::Call(cycle(&mut words)?),
        "run" => Line::Call(run(&mut words)?),
        "state" => Line::Call(Call::State),
        word => return Err(LineFault::UnknownWord { word }),
    };
    no_more(&mut words, LineFault::ExtraWord)?;
    Ok(Some(line))
}
