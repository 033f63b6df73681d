// The engine for callers in C or Rust, to measure and compare it from outside.
#![tactic(auto)]

ghost use Rattle.std.specs.Prelude.{◌≡◌, ◌%◌, get_or};
ghost use Rattle.engine.specs.Runs.{run_call};
ghost use Rattle.speed.specs.Runs.{begun, told};

use banks::{Port, PortBank};
use engine::{LONGEST_RUN, Machine};

const WRITABLE: Port = Port { byte: 0, mask: 255 };

// The register of that number, by its lowest four bits.
fn register_of(registers: [u8; 16], number: u8) -> u8
    ensures { result ≡ get_or registers (number % 16) 0 }
{
    registers[number as usize % 16]
}

// A run on a new machine with two new banks: the cycles finished, and in the lowest eight bits the register of that number.
#[unsafe(no_mangle)]
pub extern "C" fn measured_run(code: &[u8], cycles: u32, register: u8) -> u64
    ensures { result ≡ told (run_call code.now cycles begun) register }
{
    let mut machine = Machine::new([0; 16]);
    let mut left = PortBank::new([WRITABLE; 256]);
    let mut right = PortBank::new([WRITABLE; 256]);
    let (finished, _) = machine.run(code, &mut left, &mut right, cycles as usize);
    finished.min(LONGEST_RUN) as u64 * 256 + register_of(machine.registers, register) as u64
}
