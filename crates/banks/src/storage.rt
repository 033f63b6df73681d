// Working storage: a bank whose bits are all writable.
ghost use Rattle.std.specs.Prelude.{◌≡◌, length};
ghost use Rattle.std.proofs.Common.{◌∙◌};
ghost use Rattle.std.proofs.lemmas.List.{length-map};
ghost use Rattle.banks.specs.Ports.{merged, stored, stored_ports};

use crate::bank::Bank;
use crate::port::merge;

// The mask of a port whose bits are all writable.
const EVERY_BIT: u8 = 255;

// Every bit from `new`.
fn replaced(new: u8, old: u8) -> u8
    ensures { result ≡ merged 255 new old }
{
    merge(EVERY_BIT, new, old)
}

#[derive(Drop)]
pub struct Storage {
    bytes: [u8; 256],
    ghost full: { length bytes ≡ 256 },
}

impl Storage {
    pub fn new(bytes: [u8; 256]) -> Storage
        ensures { result.bytes ≡ bytes }
    {
        Storage { bytes }
    }
}

impl Bank for Storage {
    ghost ports = { λ b. stored_ports b.bytes };

    ghost full = { λ b. length-map b.bytes stored ∙ b.full };

    fn read(&self, port: u8) -> u8 {
        self.bytes[port as usize]
    }

    fn write(&mut self, port: u8, value: u8) {
        let byte = &mut self.bytes[port as usize];
        *byte = replaced(value, *byte);
    }

    // No bit is left to drive.
    fn drive(&mut self, port: u8, value: u8) {
        let byte = &mut self.bytes[port as usize];
        *byte = replaced(*byte, value);
    }
}
