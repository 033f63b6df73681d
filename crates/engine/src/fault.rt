// Why the engine refuses a call.
ghost use Rattle.std.specs.Prelude.{◌≡◌, Some};
ghost use Rattle.engine.specs.Faults.{reported, fault_text};

use faults::{Fault, write_report};
use std::error::Error;
use std::fmt;

#[derive(Clone, Copy, PartialEq, Eq, Debug)]
pub enum EngineFault {
    // a run of more than 65,536 cycles
    RunLength,
    // the address register is outside the code
    Outside { address: u16 },
    // the word at the address register is not permitted
    NotPermitted { address: u16 },
    // the word uses a bank that is not ready
    NotReady { address: u16 },
}

impl Fault for EngineFault {
    // an address
    type Place = u16;

    ghost reported = { reported };

    fn report(self) -> (u8, u16) {
        match self {
            EngineFault::RunLength => (16, 0),
            EngineFault::Outside { address } => (17, address),
            EngineFault::NotPermitted { address } => (18, address),
            EngineFault::NotReady { address } => (19, address),
        }
    }
}

// Layer, number and place, as `engine 19 at 4`.
impl fmt::Display for EngineFault {
    ghost output = { λ f. Some (fault_text f) };

    fn fmt<W: fmt::Write>(&self, f: &mut fmt::Formatter<W>) -> fmt::Result {
        write_report(f, "engine", self.report())
    }
}

impl Error for EngineFault {}
