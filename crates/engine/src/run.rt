// Runs of many cycles.
ghost use Rattle.std.specs.Prelude.{◌≡◌, ◌≤◌};
ghost use Rattle.engine.specs.Cycles.{state_of};
ghost use Rattle.engine.specs.Loans.{seen, SameLoans};
ghost use Rattle.engine.specs.Runs.{Ran, run_of, run_call};

use crate::beside::Beside;
use crate::fault::EngineFault;
use crate::lines::Lines;
use crate::machine::Machine;
use banks::Bank;

// The most cycles of a run.
pub const LONGEST_RUN: usize = 65_536;

impl<'a, L: Bank, R: Bank> Beside<'a, L, R> {
    // Cycles with neither line active, up to the first fault: how many were finished, and the fault.
    fn run_on(&mut self, code: &[u8], cycles: usize) -> (usize, Option<EngineFault>)
        ensures ran { run_of code.now cycles (seen L.Bank.ports R.Bank.ports self.old) ≡ record { finished = result.0; fault = result.1; after = seen L.Bank.ports R.Bank.ports self.new } }
        ensures loans { SameLoans self.old self.new }
    {
        for finished in 0..cycles {
            if let Err(fault) = self.advance(code, Lines::default()) {
                return (finished, Some(fault));
            }
        }
        (cycles, None)
    }
}

impl Machine {
    // A run of so many cycles, at most 65,536: how many were finished, and the fault that ended it. A longer run is refused.
    pub fn run<L: Bank, R: Bank>(
        &mut self,
        code: &[u8],
        left: &mut L,
        right: &mut R,
        cycles: usize,
    ) -> (usize, Option<EngineFault>)
        ensures { run_call code.now cycles (state_of self.old (L.Bank.ports left.old) (R.Bank.ports right.old)) ≡ record { finished = result.0; fault = result.1; after = state_of self.new (L.Bank.ports left.new) (R.Bank.ports right.new) } }
    {
        if cycles > LONGEST_RUN {
            return (0, Some(EngineFault::RunLength));
        }
        Beside {
            machine: self,
            left,
            right,
        }
        .run_on(code, cycles)
    }
}
