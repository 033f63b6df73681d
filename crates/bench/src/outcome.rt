// What comes of a call.
use engine::{EngineFault, Machine};
use std::fmt;

#[derive(Clone, Copy)]
pub enum Outcome {
    // a drive is always made; a cycle may be refused
    Made(Result<(), EngineFault>),
    // how many cycles of a run were finished, and the fault that ended it
    Ran {
        finished: usize,
        fault: Option<EngineFault>,
    },
    State(Snapshot),
}

// A machine, and the checksum of each of its banks.
#[derive(Clone, Copy)]
pub struct Snapshot {
    pub machine: Machine,
    pub left: u64,
    pub right: u64,
}

// Both addresses, which banks are ready, the registers and the checksums, all in hex.
impl fmt::Display for Snapshot {
    fn fmt<W: fmt::Write>(&self, f: &mut fmt::Formatter<W>) -> fmt::Result {
        let machine = self.machine;
        let pc = machine.pc;
        let ar = machine.ar;
        let left_ready = u8::from(machine.left_ready);
        let right_ready = u8::from(machine.right_ready);
        write!(
            f,
            "pc {pc:04x} ar {ar:04x} ready {left_ready}{right_ready} regs"
        )?;
        for register in machine.registers {
            write!(f, " {register:02x}")?;
        }
        let left = self.left;
        let right = self.right;
        write!(f, " left {left:016x} right {right:016x}")
    }
}
