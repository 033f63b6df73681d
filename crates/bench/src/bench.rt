// A machine and the two banks that it works on.
ghost use Rattle.std.specs.Prelude.{◌≡◌};
ghost use Rattle.engine.specs.Cycles.{cycle_of};
ghost use Rattle.engine.specs.Runs.{Ran, run_call};
ghost use Rattle.bench.specs.Benches.{state_at, started, driven_on};
ghost use Rattle.bench.specs.Calls.{snapshot_of, called_on, outcome_of};

use crate::call::Call;
use crate::checksum::bank_checksum;
use crate::outcome::{Outcome, Snapshot};
use banks::{Bank, Port, PortBank};
use engine::{EngineFault, Lines, Machine};
use instructions::Side;

#[derive(Drop)]
pub struct Bench {
    machine: Machine,
    left: PortBank,
    right: PortBank,
}

impl Bench {
    // A new machine with these registers, and banks of these ports.
    pub fn new(registers: [u8; 16], left: [Port; 256], right: [Port; 256]) -> Bench
        ensures { state_at result ≡ started registers left right }
    {
        Bench {
            machine: Machine::new(registers),
            left: PortBank::new(left),
            right: PortBank::new(right),
        }
    }

    // A value driven on a port from the outside.
    // Both sides are written out, as in `Setup`: a type for two sides would take more lines than these arms.
    pub fn drive(&mut self, side: Side, port: u8, value: u8)
        ensures { state_at self.new ≡ driven_on side port value (state_at self.old) }
    {
        match side {
            Side::Left => self.left.drive(port, value),
            Side::Right => self.right.drive(port, value),
        }
    }

    // One cycle on the code, with the lines as given.
    pub fn cycle(&mut self, code: &[u8], lines: Lines) -> Result<(), EngineFault>
        ensures answer { result ≡ (cycle_of code.now lines.reset lines.halt (state_at self.old)).0 }
        ensures state { state_at self.new ≡ (cycle_of code.now lines.reset lines.halt (state_at self.old)).1 }
    {
        self.machine
            .cycle(code, &mut self.left, &mut self.right, lines)
    }

    // A run of so many cycles on the code: how many were finished, and the fault that ended it.
    pub fn run(&mut self, code: &[u8], cycles: usize) -> (usize, Option<EngineFault>)
        ensures { run_call code.now cycles (state_at self.old) ≡ record { finished = result.0; fault = result.1; after = state_at self.new } }
    {
        self.machine
            .run(code, &mut self.left, &mut self.right, cycles)
    }

    pub fn snapshot(&self) -> Snapshot
        ensures { result ≡ snapshot_of self.now }
    {
        Snapshot {
            machine: self.machine,
            left: bank_checksum(&self.left),
            right: bank_checksum(&self.right),
        }
    }

    // Makes a call on the code.
    pub fn call(&mut self, code: &[u8], call: Call) -> Outcome
        ensures outcome { result ≡ outcome_of code.now call self.old }
        ensures state { state_at self.new ≡ called_on code.now call (state_at self.old) }
    {
        match call {
            Call::Drive { side, port, value } => {
                self.drive(side, port, value);
                Outcome::Made(Ok(()))
            }
            Call::Cycle(lines) => Outcome::Made(self.cycle(code, lines)),
            Call::Run { cycles } => {
                let (finished, fault) = self.run(code, cycles);
                Outcome::Ran { finished, fault }
            }
            Call::State => Outcome::State(self.snapshot()),
        }
    }
}
