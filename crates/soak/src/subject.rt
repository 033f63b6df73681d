// An accepted image.
use crate::difference::Difference;
use engine::Machine;
use flow::{Entry, Status, entry_at};
use image::{Image, mask};
use instructions::Side;
use marks::Marks;
use operands::Operand;
use std::array;
use words::word_count;

// Code, the table that the check leaves of it, and for each port the bits that the grants withhold.
#[derive(Clone, Copy)]
pub(crate) struct Subject<'a> {
    pub(crate) code: &'a [u8],
    operands: &'a [Marks],
    status: &'a [u8],
    pub(crate) left: [u8; 256],
    pub(crate) right: [u8; 256],
}

fn withheld(grants: &[u8], side: Side) -> [u8; 256] {
    array::from_fn(|port| 255 ^ mask(grants, side, port as u8))
}

fn compare_registers(entry: &Entry<Marks>, registers: &[u8; 16]) -> Result<(), Difference> {
    for (number, (operand, byte)) in entry.operands.iter().zip(registers).enumerate() {
        if !operand.contains(*byte) {
            return Err(Difference::Register {
                number,
                byte: *byte,
            });
        }
    }
    Ok(())
}

impl<'a> Subject<'a> {
    pub(crate) fn new(image: Image<'a>, operands: &'a [Marks], status: &'a [u8]) -> Subject<'a> {
        let grants = image.grants.bytes();
        Subject {
            code: image.code.bytes(),
            operands,
            status,
            left: withheld(grants, Side::Left),
            right: withheld(grants, Side::Right),
        }
    }

    // The same image, as if nothing were granted.
    pub(crate) fn without_grants(self) -> Subject<'a> {
        Subject {
            left: [255; 256],
            right: [255; 256],
            ..self
        }
    }

    // The same image, with the table's operands of each address at the one before.
    pub(crate) fn with_moved_table(self) -> Subject<'a> {
        Subject {
            operands: self.operands.get(16..).unwrap_or(self.operands),
            ..self
        }
    }

    // The first port of the left bank that has withheld bits.
    pub(crate) fn withheld_port(&self) -> Option<u8> {
        (0..=255u8)
            .zip(&self.left)
            .find(|(_, withheld)| **withheld != 0)
            .map(|(port, _)| port)
    }

    // The entry of an address that the program counter can stand at.
    fn entry(&self, pc: u16) -> Option<Entry<Marks>> {
        let status = Status(*self.status.get(pc as usize)?);
        if !status.has_entry() {
            return None;
        }
        entry_at(self.operands, self.status, pc)
    }

    // Whether the table allows what a machine holds.
    pub(crate) fn compare(&self, machine: &Machine) -> Result<(), Difference> {
        let words = word_count(self.code);
        let pc = machine.pc;
        let ar = machine.ar;
        if pc as usize >= words || ar as usize >= words {
            return Err(Difference::Address { pc, ar });
        }
        let entry = self.entry(pc).ok_or(Difference::Unreached { pc })?;
        compare_registers(&entry, &machine.registers)
    }
}
