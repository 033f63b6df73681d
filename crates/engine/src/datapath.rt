// What flows between registers, banks and the arithmetic and logic unit.
ghost use Rattle.std.specs.Prelude.{◌≡◌, ◌<◌};
ghost use Rattle.engine.specs.States.{register_of, port_byte, stored, with_byte};
ghost use Rattle.effects.specs.Usage.{selector as selector_of};
ghost use Rattle.engine.specs.Effects.{source_byte, latch_side, bus_byte, delivered, computed, transmitted, overflowed};
ghost use Rattle.engine.specs.Cycles.{core_of};
ghost use Rattle.engine.specs.Loans.{seen, Does};

use crate::beside::Beside;
use crate::bytes::{compute, field_byte, rotated};
use crate::machine::Machine;
use banks::{Bank, merge};
use effects::{field_mask, raised, select_side, selector, source_side, whole_port};
use instructions::{Destination, Field, Operation, Register, Side, Source};

// What is written to the port of a field: the latch, its bits in the field from the value.
fn bus_byte(field: Field, value: u8, latch: u8) -> u8
    ensures { result ≡ bus_byte field value latch }
{
    merge(field_mask(field), raised(value, field), latch)
}

// The bank whose port fills the bits outside a field that is written: that of the data, if they came from a bank.
fn latch_side(origin: Option<Side>, field: Field) -> Side
    ensures { result ≡ latch_side origin field }
{
    origin.unwrap_or(field.side)
}

impl Machine {
    fn register(&self, register: Register) -> u8
        ensures { result ≡ register_of self.now.registers register }
    {
        self.registers[register.number() as usize]
    }

    // The number of a bank's selected port.
    fn selected(&self, side: Side) -> u8
        ensures { result ≡ register_of self.now.registers (selector_of side) }
    {
        self.register(selector(side))
    }

    // A value stored in a register. A store in R7 or R17 selects a port of its bank.
    fn store(&mut self, register: Register, value: u8)
        ensures { core_of self.new ≡ stored register value (core_of self.old) }
    {
        self.registers[register.number() as usize] = value;
        match select_side(register) {
            Some(Side::Left) => self.left_ready = true,
            Some(Side::Right) => self.right_ready = true,
            None => {}
        }
    }

    // The carry of ADD stored in R10.
    pub(crate) fn overflow(&mut self, carry: Option<u8>)
        ensures { core_of self.new ≡ overflowed carry (core_of self.old) }
    {
        if let Some(carry) = carry {
            self.store(Register::R10, carry);
        }
    }
}

impl<'a, L: Bank, R: Bank> Beside<'a, L, R> {
    // The byte of a bank's selected port.
    fn read(&self, side: Side) -> u8
        ensures { result ≡ port_byte side (seen L.Bank.ports R.Bank.ports self.now) }
    {
        let port = self.machine.selected(side);
        match side {
            Side::Left => self.left.read(port),
            Side::Right => self.right.read(port),
        }
    }

    // A value written to a bank's selected port.
    fn write(&mut self, side: Side, value: u8)
        ensures { Does L.Bank.ports R.Bank.ports (with_byte side value) self.old self.new }
    {
        let port = self.machine.selected(side);
        match side {
            Side::Left => self.left.write(port, value),
            Side::Right => self.right.write(port, value),
        }
    }

    pub(crate) fn source(&self, source: Source) -> u8
        ensures { result ≡ source_byte source (seen L.Bank.ports R.Bank.ports self.now) }
    {
        match source {
            Source::Register { register, rotate } => {
                rotated(self.machine.register(register), rotate)
            }
            Source::Field(field) => field_byte(self.read(field.side), field),
        }
    }

    // A result goes to a register, or to a field of its bank's selected port.
    fn deliver(&mut self, destination: Destination, value: u8, origin: Option<Side>)
        ensures { Does L.Bank.ports R.Bank.ports (delivered destination value origin) self.old self.new }
    {
        match destination {
            Destination::Register(register) => self.machine.store(register, value),
            Destination::Field(field) => {
                let byte = bus_byte(field, value, self.read(latch_side(origin, field)));
                self.write(field.side, byte);
            }
        }
    }

    // MOVE, ADD, AND and XOR, but for the addresses.
    pub(crate) fn compute(&mut self, operation: Operation, source: Source, destination: Destination)
        ensures { Does L.Bank.ports R.Bank.ports (computed operation source destination) self.old self.new }
    {
        let byte = self.source(source);
        let (result, carry) = compute(operation, byte, self.machine.register(Register::R0));
        self.machine.overflow(carry);
        self.deliver(destination, result, source_side(source));
    }

    // XMIT, but for the addresses.
    pub(crate) fn transmit(&mut self, constant: u8, destination: Destination)
        ensures { Does L.Bank.ports R.Bank.ports (transmitted destination constant) self.old self.new }
    {
        match whole_port(destination) {
            Some(side) => self.write(side, constant),
            None => self.deliver(destination, constant, None),
        }
    }
}
