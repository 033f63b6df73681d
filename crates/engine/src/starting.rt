// A machine as it starts.
ghost use Rattle.std.specs.Prelude.{◌≡◌};
ghost use Rattle.engine.specs.Cycles.{core_of, fresh};

use crate::machine::Machine;
use instructions::Register;

impl Machine {
    // A machine with these registers, of which R10 keeps its lowest bit. Both addresses are 0 and no bank is ready.
    pub fn new(registers: [u8; 16]) -> Machine
        ensures { core_of result ≡ fresh registers }
    {
        let mut registers = registers;
        registers[Register::R10.number() as usize] %= 2;
        Machine {
            registers,
            pc: 0,
            ar: 0,
            left_ready: false,
            right_ready: false,
        }
    }
}
