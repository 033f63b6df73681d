// Words run by the engine.
use super::*;
use banks::{Bank, Port, PortBank, Storage};
use engine::{EngineFault, Lines, Machine};
use faults::Fault;

// A machine beside two banks of storage, of which the left one holds the same byte everywhere.
#[derive(Drop)]
struct Bench {
    machine: Machine,
    left: Storage,
    right: Storage,
}

impl Bench {
    fn holding(r0: u8, r1: u8, byte: u8) -> Bench {
        let mut machine = Machine::new([r0, r1, 0, 0, 0, 0, 0, 0, 0, 0, 0, 0, 0, 0, 0, 0]);
        machine.left_ready = true;
        machine.right_ready = true;
        Bench {
            machine,
            left: Storage::new([byte; 256]),
            right: Storage::new([0; 256]),
        }
    }

    fn run(&mut self, word: u16) -> Result<(), EngineFault> {
        self.machine.cycle(
            &word.to_be_bytes(),
            &mut self.left,
            &mut self.right,
            Lines::default(),
        )
    }
}

#[test]
fn sum_of_255_has_no_carry(rt: HostRuntime) {
    let mut bench = Bench::holding(100, 155, 0);
    assert_eq!(rt; bench.run(0x2102), Ok(()));
    let registers = bench.machine.registers;
    let (sum, carry) = (registers[2], registers[8]);
    assert_eq!(rt; sum, 255);
    assert_eq!(rt; carry, 0);
}

// MOVE R1 to three bits of the left bank: L is the length of the field there and no rotation.
#[test]
fn register_is_not_rotated_into_a_bank(rt: HostRuntime) {
    let mut bench = Bench::holding(0, 0b101, 0);
    assert_eq!(rt; bench.run(0x0177), Ok(()));
    assert_eq!(rt; bench.left.read(0), 0b101);
}

// XEC by R1 = 2 with the constant 255 goes to word 1 of the page.
#[test]
fn xec_keeps_program_counter_and_overflow(rt: HostRuntime) {
    let mut bench = Bench::holding(0, 2, 0);
    bench.machine.pc = 300;
    assert_eq!(rt; bench.run(0x81ff), Ok(()));
    assert_eq!(rt; bench.machine.ar, 257);
    assert_eq!(rt; bench.machine.pc, 300);
    let overflow = bench.machine.registers[8];
    assert_eq!(rt; overflow, 0);
}

#[test]
fn reset_keeps_registers_and_selects(rt: HostRuntime) {
    let mut bench = Bench::holding(7, 9, 0);
    bench.machine.pc = 300;
    let answer = bench.machine.cycle(
        &[],
        &mut bench.left,
        &mut bench.right,
        Lines {
            reset: true,
            halt: true,
        },
    );
    assert_eq!(rt; answer, Ok(()));
    assert_eq!(rt; bench.machine.pc, 0);
    let registers = bench.machine.registers;
    let (r0, r1) = (registers[0], registers[1]);
    assert_eq!(rt; r0, 7);
    assert_eq!(rt; r1, 9);
    assert_eq!(rt; bench.machine.left_ready, true);
}

#[test]
fn halt_runs_no_word(rt: HostRuntime) {
    let mut bench = Bench::holding(0, 0, 0);
    let answer = bench.machine.cycle(
        &[],
        &mut bench.left,
        &mut bench.right,
        Lines {
            reset: false,
            halt: true,
        },
    );
    assert_eq!(rt; answer, Ok(()));
}

#[test]
fn new_machine_keeps_one_bit_of_r10(rt: HostRuntime) {
    let machine = Machine::new([255; 16]);
    let r10 = machine.registers[8];
    assert_eq!(rt; r10, 1);
    assert_eq!(rt; machine.left_ready, false);
}

#[test]
fn refusals_have_numbers_and_places(rt: HostRuntime) {
    let mut bench = Bench::holding(0, 0, 0);
    bench.machine.left_ready = false;
    assert_eq!(rt;
        bench.run(0xd743),
        Err(EngineFault::NotReady { address: 0 })
    );
    assert_eq!(rt;
        bench.run(0x0008),
        Err(EngineFault::NotPermitted { address: 0 })
    );
    bench.machine.ar = 1;
    assert_eq!(rt; bench.run(0xe000), Err(EngineFault::Outside { address: 1 }));
    assert_eq!(rt; EngineFault::Outside { address: 1 }.number(), 17);
    assert_eq!(rt; EngineFault::NotPermitted { address: 1 }.place(), 1);
    assert_eq!(rt; EngineFault::NotReady { address: 1 }.number(), 19);
    assert_eq!(rt; EngineFault::RunLength.number(), 16);
}

// XMIT to R12 writes the left port whole, and R12 stays.
#[test]
fn transmit_to_r12_writes_the_left_port(rt: HostRuntime) {
    let mut bench = Bench::holding(0, 0, 0);
    assert_eq!(rt; bench.run(0xcaa5), Ok(()));
    assert_eq!(rt; bench.left.read(0), 0xa5);
    let r12 = bench.machine.registers[10];
    assert_eq!(rt; r12, 0);
}

#[test]
fn masks_divide_writes_and_drives(rt: HostRuntime) {
    let port = Port {
        byte: 0xf0,
        mask: 0x3c,
    };
    let mut bank = PortBank::new([port; 256]);
    bank.write(5, 0x0f);
    assert_eq!(rt; bank.read(5), 0xcc);
    bank.drive(5, 0x33);
    assert_eq!(rt; bank.read(5), 0x0f);
    assert_eq!(rt; bank.read(4), 0xf0);
}
