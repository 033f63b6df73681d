// One cycle of the machine.
ghost use Rattle.std.specs.Prelude.{◌≡◌, ◌<◌};
ghost use Rattle.engine.specs.States.{to};
ghost use Rattle.engine.specs.Effects.{source_byte, performed, served};
ghost use Rattle.engine.specs.Cycles.{core_of, state_of, executed, step_of, cycle_of};
ghost use Rattle.engine.specs.Loans.{Does, Gives};
ghost use Rattle.engine.specs.Laws.{CycleLaws};

use crate::beside::Beside;
use crate::fault::EngineFault;
use crate::lines::Lines;
use crate::machine::Machine;
use banks::Bank;
use effects::{in_page, next_address, uses};
use instructions::{Instruction, Side};
use words::{decode, fetch};

impl Machine {
    // Whether every bank that the instruction uses is ready.
    fn serves(&self, instruction: Instruction) -> bool
        ensures { result ≡ served instruction (core_of self.now) }
    {
        (self.left_ready || !uses(instruction, Side::Left))
            && (self.right_ready || !uses(instruction, Side::Right))
    }

    // Both addresses.
    fn go_to(&mut self, address: u16)
        requires { address < 8192 }
        ensures { core_of self.new ≡ to address address (core_of self.old) }
    {
        self.pc = address;
        self.ar = address;
    }
}

impl<'a, L: Bank, R: Bank> Beside<'a, L, R> {
    fn perform(&mut self, instruction: Instruction)
        ensures { Does L.Bank.ports R.Bank.ports (performed instruction) self.old self.new }
    {
        let pc = self.machine.pc;
        let next = next_address(pc);
        match instruction {
            Instruction::Alu {
                operation,
                source,
                destination,
            } => {
                self.compute(operation, source, destination);
                self.machine.go_to(next);
            }
            Instruction::Xmit {
                constant,
                destination,
            } => {
                self.transmit(constant, destination);
                self.machine.go_to(next);
            }
            Instruction::Nzt { source, offset } => {
                if self.source(source) == 0 {
                    self.machine.go_to(next);
                } else {
                    self.machine.go_to(in_page(source, pc, offset as u16));
                }
            }
            Instruction::Xec { source, offset } => {
                let byte = self.source(source);
                self.machine.ar = in_page(source, pc, offset as u16 + byte as u16);
            }
            Instruction::Jmp { address } => self.machine.go_to(address % 8_192),
        }
    }

    // Runs an instruction, if the banks that it uses are ready.
    fn execute(&mut self, instruction: Option<Instruction>) -> Result<(), EngineFault>
        ensures { Gives L.Bank.ports R.Bank.ports (executed instruction) self.old self.new result }
    {
        let instruction = instruction.ok_or(EngineFault::NotPermitted {
            address: self.machine.ar,
        })?;
        if !self.machine.serves(instruction) {
            return Err(EngineFault::NotReady {
                address: self.machine.ar,
            });
        }
        self.perform(instruction);
        Ok(())
    }

    // Runs the word at the address register.
    fn step(&mut self, code: &[u8]) -> Result<(), EngineFault>
        ensures { Gives L.Bank.ports R.Bank.ports (step_of code.now) self.old self.new result }
    {
        let word = fetch(code, self.machine.ar as usize).ok_or(EngineFault::Outside {
            address: self.machine.ar,
        })?;
        self.execute(decode(word))
    }

    // One cycle with the lines as given.
    pub(crate) fn advance(&mut self, code: &[u8], lines: Lines) -> Result<(), EngineFault>
        ensures { Gives L.Bank.ports R.Bank.ports (cycle_of code.now lines.reset lines.halt) self.old self.new result }
    {
        if lines.reset {
            self.machine.go_to(0);
            return Ok(());
        }
        if lines.halt {
            return Ok(());
        }
        self.step(code)
    }
}

impl Machine {
    // One cycle with the lines as given. A refusal changes neither machine nor banks.
    pub fn cycle<L: Bank, R: Bank>(
        &mut self,
        code: &[u8],
        left: &mut L,
        right: &mut R,
        lines: Lines,
    ) -> Result<(), EngineFault>
        ensures answer { result ≡ (cycle_of code.now lines.reset lines.halt (state_of self.old (L.Bank.ports left.old) (R.Bank.ports right.old))).0 }
        ensures state { state_of self.new (L.Bank.ports left.new) (R.Bank.ports right.new) ≡ (cycle_of code.now lines.reset lines.halt (state_of self.old (L.Bank.ports left.old) (R.Bank.ports right.old))).1 }
        ensures laws { CycleLaws code.now lines.reset lines.halt (state_of self.old (L.Bank.ports left.old) (R.Bank.ports right.old)) result (state_of self.new (L.Bank.ports left.new) (R.Bank.ports right.new)) }
    {
        Beside {
            machine: self,
            left,
            right,
        }
        .advance(code, lines)
    }
}
