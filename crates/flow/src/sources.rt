// What registers and sources may give.
ghost use Rattle.operands.specs.Bytes.{Same};
ghost use Rattle.instructions.specs.Registers.{number_of};
ghost use Rattle.flow.specs.States.{source_bytes};
ghost use Rattle.flow.specs.Entries.{allows};

use crate::entry::Entry;
use effects::field_value;
use instructions::{Register, Source};
use operands::{Operand, Spreading};

impl<K: Operand> Entry<K> {
    // The operand of a register.
    pub fn operand(&self, register: Register) -> K
        ensures { Same (K.Operand.operations.has result) (allows K.Operand.operations self.now (number_of register)) }
    {
        self.operands[register.number() as usize]
    }
}

impl<K: Spreading> Entry<K> {
    // A register's operand, rotated; or what a field may give of a port that may hold any byte.
    pub fn source(&self, source: Source) -> K
        ensures { Same (K.Operand.operations.has result) (source_bytes K.Operand.operations source (allows K.Operand.operations self.now)) }
    {
        match source {
            Source::Register { register, rotate } => self.operand(register).rotate_right(rotate),
            Source::Field(field) => field_value(K::all(), field),
        }
    }
}
