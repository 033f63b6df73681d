// How a script is played: a bench is made from the lines before the first call, and then the calls are made on it.
use crate::answer::Answer;
use crate::fault::{LineFault, ScriptFault};
use crate::line::Line;
use crate::reading::read_line;
use bench::{Call, Setup};
use std::io::Write;

// The answer for a line, or its fault with its number.
fn numbered<'a, T>(index: usize, res: Result<T, LineFault<'a>>) -> Result<T, ScriptFault<'a>> {
    res.map_err(|fault| ScriptFault::Line {
        number: index.saturating_add(1),
        fault,
    })
}

// What the lines before the first call say, and how many they are.
fn read_setup<'a>(script: &'a str) -> Result<(Setup, usize), ScriptFault<'a>> {
    let mut setup = Setup::new();
    for (index, text) in script.lines().enumerate() {
        match numbered(index, read_line(text))? {
            Some(Line::Regs(registers)) => {
                let taken = setup.set_registers(registers);
                numbered(index, taken.map_err(|_| LineFault::RegistersAgain))?;
            }
            Some(Line::Port { side, number, port }) => setup.set_port(side, number, port),
            Some(Line::Call(_)) => return Ok((setup, index)),
            None => {}
        }
    }
    Ok((setup, script.lines().count()))
}

// The call of a line after the setup, if it has one.
fn read_call<'a>(text: &'a str) -> Result<Option<Call>, LineFault<'a>> {
    match read_line(text)? {
        Some(Line::Call(call)) => Ok(Some(call)),
        Some(_) => Err(LineFault::LateSetup),
        None => Ok(None),
    }
}

// Plays a script on the code, and writes a line for each call. The answers before a refused line are written.
pub fn play<'a, W: Write>(
    script: &'a str,
    code: &[u8],
    out: &mut W,
) -> Result<(), ScriptFault<'a>> {
    let (setup, before_calls) = read_setup(script)?;
    let mut bench = setup.bench();
    for (index, text) in script.lines().enumerate().skip(before_calls) {
        if let Some(call) = numbered(index, read_call(text))? {
            let outcome = bench.call(code, call);
            let answer = Answer { call, outcome };
            writeln!(out, "{answer}")?;
        }
    }
    Ok(())
}
