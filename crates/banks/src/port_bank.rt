// A bank whose ports each have a mask of their own.
ghost use Rattle.std.specs.Prelude.{◌≡◌, length};

use crate::bank::Bank;
use crate::port::Port;

#[derive(Drop)]
pub struct PortBank {
    ports: [Port; 256],
    ghost full: { length ports ≡ 256 },
}

impl PortBank {
    // A bank of these ports. Their masks stay as they are.
    pub fn new(ports: [Port; 256]) -> PortBank
        ensures { result.ports ≡ ports }
    {
        PortBank { ports }
    }
}

impl Bank for PortBank {
    ghost ports = { λ b. b.ports };

    ghost full = { λ b. b.full };

    fn read(&self, port: u8) -> u8 {
        self.ports[port as usize].byte
    }

    fn write(&mut self, port: u8, value: u8) {
        self.ports[port as usize].write(value);
    }

    fn drive(&mut self, port: u8, value: u8) {
        self.ports[port as usize].drive(value);
    }
}
