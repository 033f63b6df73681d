// Where an instruction goes on.
ghost use Rattle.std.specs.Prelude.{◌≡◌, ℕ, Some, Decides, ◌≢◌};
ghost use Rattle.effects.specs.Addresses.{next_address};
ghost use Rattle.flow.specs.Ways.{GoesOn, Jumps};
ghost use Rattle.flow.specs.Entries.{allows};

use crate::entry::Entry;
use effects::{in_page, next_address};
use instructions::Instruction;
use operands::{Operand, Spreading};

// Whether there is a member other than 0.
fn has_more<K: Operand>(x: K) -> bool
    ensures { Decides result ((b : ℕ) × (K.Operand.operations.has x b × (b ≢ 0))) }
{
    (1..256usize).any(|b| x.contains(b as u8))
}

impl<K: Spreading> Entry<K> {
    // Whether the next address in order may follow.
    fn goes_on(&self, instruction: Instruction) -> bool
        ensures { Decides result (GoesOn K.Operand.operations instruction (allows K.Operand.operations self.now)) }
    {
        match instruction {
            Instruction::Nzt { source, .. } => self.source(source).contains(0),
            Instruction::Xec { .. } | Instruction::Jmp { .. } => false,
            _ => true,
        }
    }

    // The next address in order, if it may follow.
    pub fn onward(&self, instruction: Instruction, address: u16) -> Option<u16>
        ensures { (q : ℕ) → (result ≡ Some q → (q ≡ next_address address) × GoesOn K.Operand.operations instruction (allows K.Operand.operations self.now)) × ((q ≡ next_address address) × GoesOn K.Operand.operations instruction (allows K.Operand.operations self.now) → result ≡ Some q) }
    {
        self.goes_on(instruction).then_some(next_address(address))
    }

    // The address to which the instruction may jump.
    pub fn jump(&self, instruction: Instruction, address: u16) -> Option<u16>
        ensures { (q : ℕ) → (result ≡ Some q → Jumps K.Operand.operations instruction (allows K.Operand.operations self.now) address q) × (Jumps K.Operand.operations instruction (allows K.Operand.operations self.now) address q → result ≡ Some q) }
    {
        match instruction {
            Instruction::Nzt { source, offset } => {
                has_more(self.source(source)).then_some(in_page(source, address, offset as u16))
            }
            Instruction::Jmp { address } => Some(address % 8_192),
            _ => None,
        }
    }
}
