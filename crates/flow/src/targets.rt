// Which words run at an address.
ghost use Rattle.std.specs.Prelude.{◌≡◌, ℕ, ◌+◌, ◌%◌, ◌<◌, ◌⊎◌, if◌then◌else◌, None, Decides, nat_lt};
ghost use Rattle.words.specs.Code.{words_in};
ghost use Rattle.effects.specs.Addresses.{page_size, in_page};
ghost use Rattle.flow.specs.States.{source_bytes};
ghost use Rattle.flow.specs.Ways.{instruction_at, is_xec, Reaches, ReachesBy};
ghost use Rattle.flow.specs.Spans.{first_target, target_count, Hits};
ghost use Rattle.flow.specs.Entries.{allows};

use crate::entry::Entry;
use effects::page_size;
use instructions::{Instruction, Source};
use operands::{Operand, Spreading};
use words::{decode, fetch};

// What the word at an address means; none outside the code too.
pub fn instruction_at(code: &[u8], address: u16) -> Option<Instruction>
    ensures { result ≡ (if nat_lt address (words_in code.now) then instruction_at code.now address else None) }
{
    decode(fetch(code, address as usize)?)
}

pub fn is_xec(instruction: Instruction) -> bool
    ensures { result ≡ is_xec instruction }
{
    matches!(instruction, Instruction::Xec { .. })
}

// The lowest address that an instruction at `address` can make run.
pub fn first_target(instruction: Option<Instruction>, address: u16) -> u16
    ensures { result ≡ first_target instruction address }
{
    match instruction {
        Some(Instruction::Xec { source, .. }) => {
            let page = page_size(source);
            address / page * page
        }
        _ => address,
    }
}

// How many addresses follow from there on.
pub fn target_count(instruction: Option<Instruction>) -> u16
    ensures { result ≡ target_count instruction }
{
    match instruction {
        Some(Instruction::Xec { source, .. }) => page_size(source),
        _ => 1,
    }
}

// Whether some member x has (offset + x) modulo `page` at `place`: the least byte that does, or one that lies pages above it.
fn hits<K: Operand>(x: K, page: u16, offset: u8, place: u16) -> bool
    requires pages { (page ≡ 32) ⊎ (page ≡ 256) }
    requires inside { place < page }
    ensures { Decides result (Hits (K.Operand.operations.has x) page offset place) }
{
    let least = (place + page - offset as u16 % page) % page;
    (0..256 / page).any(|k| x.contains((least + page * k) as u8))
}

// Whether an XEC at `from`, by the operand x of its source, may run the word at `to`. The page stands as a number in
// each arm: as page_size(source), a check by marks took an eighth more instructions.
fn executes<K: Operand>(source: Source, x: K, offset: u8, from: u16, to: u16) -> bool
    ensures { Decides result ((b : ℕ) × (K.Operand.operations.has x b × (to ≡ in_page (page_size source) from (offset + b)))) }
{
    match source {
        Source::Register { .. } => from / 256 == to / 256 && hits(x, 256, offset, to % 256),
        Source::Field(_) => from / 32 == to / 32 && hits(x, 32, offset, to % 32),
    }
}

impl<K: Spreading> Entry<K> {
    // Whether an instruction at `from` may make the word at `to` run: itself, or a target of an XEC.
    fn leads(&self, instruction: Instruction, from: u16, to: u16) -> bool
        ensures { Decides result (Reaches K.Operand.operations (allows K.Operand.operations self.now) from instruction to) }
    {
        match instruction {
            Instruction::Xec { source, offset } => {
                executes(source, self.source(source), offset, from, to)
            }
            _ => to == from,
        }
    }

    // Whether the word at `to` may run while the program counter is `from`, where `instruction` stands.
    pub fn reaches(&self, instruction: Option<Instruction>, from: u16, to: u16) -> bool
        ensures { Decides result (ReachesBy K.Operand.operations (allows K.Operand.operations self.now) from instruction to) }
    {
        match instruction {
            Some(instruction) => self.leads(instruction, from, to),
            None => to == from,
        }
    }
}
