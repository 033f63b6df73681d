// What can differ from what the check promises.
use engine::EngineFault;
use instructions::Side;
use std::fmt;

#[derive(Clone, Copy)]
pub(crate) enum Difference {
    // a cycle is refused
    Refused(EngineFault),
    // a run does not finish, or one that is too long is not refused
    Run { cycles: usize, finished: usize },
    // an address lies outside the code
    Address { pc: u16, ar: u16 },
    // the table does not say that the program counter can stand there
    Unreached { pc: u16 },
    // a register holds a byte that the table excludes
    Register { number: usize, byte: u8 },
    // a port of a bank has changed in a bit that is withheld
    Port { side: Side, port: usize },
}

impl fmt::Display for Difference {
    fn fmt<W: fmt::Write>(&self, f: &mut fmt::Formatter<W>) -> fmt::Result {
        match self {
            Difference::Refused(fault) => write!(f, "cycle refused: {fault}"),
            Difference::Run { cycles, finished } => {
                write!(f, "run of {cycles} finished {finished}")
            }
            Difference::Address { pc, ar } => write!(f, "outside: pc {pc} ar {ar}"),
            Difference::Unreached { pc } => write!(f, "pc {pc} not in the table"),
            Difference::Register { number, byte } => write!(f, "register {number} holds {byte}"),
            Difference::Port { side, port } => write!(f, "{side} port {port}"),
        }
    }
}
