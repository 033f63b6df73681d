// A million cycles of a program that has every class of instructions. Its time is what docs/BENCHMARKS.md gives.
#![tactic(auto)]

use banks::{Bank, Port, PortBank};
use engine::{Lines, Machine};

const CYCLES: u32 = 1_000_000;

#[rattlefmt::skip]
const CODE: [u8; 36] = [
    0xc7, 0x05, 0xcf, 0x09, 0xc0, 0x01, 0x21, 0x01, 0x17, 0x62, 0xcf, 0x09, 0x62, 0x43, 0xa3, 0x09, 0xe0, 0x09,
    0x01, 0x9f, 0xd6, 0x41, 0x5b, 0xa4, 0x9f, 0x30, 0xb7, 0x8f, 0xe0, 0x03, 0xe0, 0x03, 0x25, 0x26, 0x1f, 0x94,
];

// A bank whose ports all hold the same byte, with every bit writable.
fn bank(byte: u8) -> PortBank {
    PortBank::new([Port { byte, mask: 255 }; 256])
}

fn main(rt: HostRuntime) -> anyhow::Result<()> {
    let mut machine = Machine::new([0; 16]);
    let mut left = bank(0x35);
    let mut right = bank(0);
    for _ in 0..CYCLES {
        machine.cycle(&CODE, &mut left, &mut right, Lines::default())?;
    }
    for register in machine.registers {
        print!(rt; "{register} ")?;
    }
    let left = left.read(5);
    let right = right.read(9);
    println!(rt;
        "pc {} ar {} left {left} right {right}",
        machine.pc, machine.ar
    )?;
    Ok(())
}
