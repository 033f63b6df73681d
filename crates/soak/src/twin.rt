// Two banks that start alike.
use crate::difference::Difference;
use banks::{Bank, Port, PortBank};
use instructions::Side;
use numbers::Numbers;
use std::array;

// A bank that a machine works on, and beside it one that only the outside drives.
#[derive(Drop)]
pub(crate) struct Twin {
    pub(crate) bank: PortBank,
    driven: PortBank,
    // a port whose drives do not come to the second bank
    missed: Option<u8>,
}

// A port in four has every bit writable, the others any of them.
fn some_port(numbers: &mut Numbers) -> Port {
    let byte = numbers.next_byte();
    let mask = numbers.next_byte();
    if numbers.next_number() % 4 == 0 {
        return Port { byte, mask: 255 };
    }
    Port { byte, mask }
}

fn some_ports(numbers: &mut Numbers) -> [Port; 256] {
    array::from_fn(|_| some_port(numbers))
}

impl Twin {
    pub(crate) fn new(numbers: &mut Numbers, missed: Option<u8>) -> Twin {
        let ports = some_ports(numbers);
        Twin {
            bank: PortBank::new(ports),
            driven: PortBank::new(ports),
            missed,
        }
    }

    pub(crate) fn drive(&mut self, port: u8, value: u8) {
        self.bank.drive(port, value);
        if self.missed != Some(port) {
            self.driven.drive(port, value);
        }
    }

    // The bits of a port in which the banks differ.
    fn bits(&self, port: u8) -> u8 {
        self.bank.read(port) ^ self.driven.read(port)
    }

    // Whether the banks agree in the withheld bits of each port of a side; if not, the first port that differs.
    pub(crate) fn compare(&self, side: Side, withheld: &[u8; 256]) -> Result<(), Difference> {
        let differs = (0..=255u8)
            .zip(withheld)
            .position(|(port, withheld)| self.bits(port) & *withheld != 0);
        match differs {
            Some(port) => Err(Difference::Port { side, port }),
            None => Ok(()),
        }
    }

    // How many ports differ in any bit.
    pub(crate) fn changed(&self) -> u64 {
        (0..=255u8).filter(|port| self.bits(*port) != 0).count() as u64
    }
}
