// What an instruction makes of an entry.
ghost use Rattle.std.specs.Prelude.{◌≡◌, not, ◌&&◌};
ghost use Rattle.operands.specs.Bytes.{Only};
ghost use Rattle.instructions.specs.declared.field.Side.TheVariants.{Left, Right};
ghost use Rattle.instructions.specs.Registers.{number_of};
ghost use Rattle.effects.specs.Usage.{is_side, whole_port};
ghost use Rattle.flow.specs.States.{Alike, stored_in, carried_by, delivered_in, computed_in, transmitted_in, after, start};
ghost use Rattle.flow.specs.Entries.{allows};

use crate::entry::Entry;
use effects::{result, select_side, whole_port};
use instructions::{Destination, Instruction, Operation, Register, Side, Source};
use operands::{Operand, Spreading};

impl<K: Operand> Entry<K> {
    // The entry after a select, which makes the bank ready.
    fn selected(self, side: Option<Side>) -> Entry<K>
        ensures operands { result.operands ≡ self.operands }
        ensures left { result.left ≡ (self.left && not (is_side Left side)) }
        ensures right { result.right ≡ (self.right && not (is_side Right side)) }
    {
        match side {
            Some(Side::Left) => Entry {
                left: false,
                ..self
            },
            Some(Side::Right) => Entry {
                right: false,
                ..self
            },
            None => self,
        }
    }

    // An operand stored in a register. A store in R7 or R17 makes its bank ready.
    fn stored(self, register: Register, operand: K) -> Entry<K>
        ensures { Alike (allows K.Operand.operations result) (stored_in register (K.Operand.operations.has operand) (allows K.Operand.operations self)) }
    {
        let mut entry = self;
        entry.operands[register.number() as usize] = operand;
        entry.selected(select_side(register))
    }

    // The carry of ADD stored in R10.
    fn carried(self, carry: Option<K>) -> Entry<K>
        ensures { Alike (allows K.Operand.operations result) (carried_by K.Operand.operations carry (allows K.Operand.operations self)) }
    {
        match carry {
            Some(carry) => self.stored(Register::R10, carry),
            None => self,
        }
    }

    // What goes to a bank leaves the entry as it is.
    fn delivered(self, destination: Destination, operand: K) -> Entry<K>
        ensures { Alike (allows K.Operand.operations result) (delivered_in destination (K.Operand.operations.has operand) (allows K.Operand.operations self)) }
    {
        match destination {
            Destination::Register(register) => self.stored(register, operand),
            Destination::Field(_) => self,
        }
    }
}

impl<K: Spreading> Entry<K> {
    // MOVE, ADD, AND and XOR.
    fn computed(self, operation: Operation, source: Source, destination: Destination) -> Entry<K>
        ensures { Alike (allows K.Operand.operations result) (computed_in K.Operand.operations operation source destination (allows K.Operand.operations self)) }
    {
        let operand = self.source(source);
        let r0 = self.operand(Register::R0);
        let (value, carry) = result(operation, operand, r0);
        self.carried(carry).delivered(destination, value)
    }

    // XMIT: what goes to R12 or R13 goes to a bank.
    fn transmitted(self, constant: u8, destination: Destination) -> Entry<K>
        ensures { Alike (allows K.Operand.operations result) (transmitted_in (whole_port destination) destination (Only constant) (allows K.Operand.operations self)) }
    {
        match whole_port(destination) {
            Some(_) => self,
            None => self.delivered(destination, K::constant(constant)),
        }
    }

    // What stands after an instruction.
    pub fn after(&self, instruction: Instruction) -> Entry<K>
        ensures { Alike (allows K.Operand.operations result) (after K.Operand.operations instruction (allows K.Operand.operations self.now)) }
    {
        let entry = *self;
        match instruction {
            Instruction::Alu {
                operation,
                source,
                destination,
            } => entry.computed(operation, source, destination),
            Instruction::Xmit {
                constant,
                destination,
            } => entry.transmitted(constant, destination),
            _ => entry,
        }
    }

    // Where a machine starts: any bytes, in R10 the lowest bit of any byte, and no bank ready.
    pub fn start() -> Entry<K>
        ensures { Alike (allows K.Operand.operations result) (start K.Operand.operations) }
    {
        let mut operands = [K::all(); 16];
        operands[Register::R10.number() as usize] = K::all().keep_lowest(1);
        Entry {
            operands,
            left: true,
            right: true,
        }
    }
}
