// What a bench is made with.
ghost use Rattle.std.specs.Prelude.{◌≡◌, is_some, is_err};
ghost use Rattle.bench.specs.Benches.{state_at};
ghost use Rattle.bench.specs.Setups.{unset, with_registers, with_port, bench_of};

use crate::bench::Bench;
use banks::Port;
use instructions::Side;

// A port that no call of `set_port` names.
const UNNAMED: Port = Port { byte: 0, mask: 255 };

// Registers were given before.
#[derive(Clone, Copy, PartialEq, Eq, Debug)]
pub struct RegistersGiven;

#[derive(Drop)]
pub struct Setup {
    registers: Option<[u8; 16]>,
    left: [Port; 256],
    right: [Port; 256],
}

impl Setup {
    pub fn new() -> Setup
        ensures { result ≡ unset }
    {
        Setup {
            registers: None,
            left: [UNNAMED; 256],
            right: [UNNAMED; 256],
        }
    }

    // Registers that were given before stay, and others are refused.
    pub fn set_registers(&mut self, registers: [u8; 16]) -> Result<(), RegistersGiven>
        ensures answer { is_err result ≡ is_some self.old.registers }
        ensures state { self.new ≡ with_registers registers self.old }
    {
        if self.registers.is_some() {
            return Err(RegistersGiven);
        }
        self.registers = Some(registers);
        Ok(())
    }

    // Both sides are written out, as in `Bench::drive`.
    pub fn set_port(&mut self, side: Side, number: u8, port: Port)
        ensures { self.new ≡ with_port side number port self.old }
    {
        match side {
            Side::Left => self.left[number as usize] = port,
            Side::Right => self.right[number as usize] = port,
        }
    }

    // Registers that were not given are 0.
    pub fn bench(self) -> Bench
        ensures { state_at result ≡ bench_of self }
    {
        Bench::new(self.registers.unwrap_or([0; 16]), self.left, self.right)
    }
}
