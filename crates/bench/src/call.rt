// What is asked of the bench.
use engine::Lines;
use instructions::Side;
use std::fmt;

#[derive(Clone, Copy)]
pub enum Call {
    // a value driven on a port from the outside
    Drive { side: Side, port: u8, value: u8 },
    // one cycle, with the lines as given
    Cycle(Lines),
    // so many cycles with neither line active, up to the first fault
    Run { cycles: usize },
    // what the bench holds
    State,
}

// The letter by which a call names a bank.
fn letter(side: Side) -> char {
    match side {
        Side::Left => 'L',
        Side::Right => 'R',
    }
}

// The call as a script has it: `drive L 05 ff`.
impl fmt::Display for Call {
    fn fmt<W: fmt::Write>(&self, f: &mut fmt::Formatter<W>) -> fmt::Result {
        match *self {
            Call::Drive { side, port, value } => {
                let bank = letter(side);
                write!(f, "drive {bank} {port:02x} {value:02x}")
            }
            Call::Cycle(lines) => {
                let reset = u8::from(lines.reset);
                let halt = u8::from(lines.halt);
                write!(f, "cycle {reset} {halt}")
            }
            Call::Run { cycles } => write!(f, "run {cycles}"),
            Call::State => f.write_str("state"),
        }
    }
}
