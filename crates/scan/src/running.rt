// What an instruction shows as it runs.
ghost use Rattle.std.specs.Prelude.{◌≡◌, ℕ, ◌≤◌, Some, Decides};
ghost use Rattle.words.specs.Code.{words_in};
ghost use Rattle.flow.specs.Breaches.{UsesUnready};
ghost use Rattle.flow.specs.Entries.{allows};
ghost use Rattle.scan.specs.Signs.{Strays, RunShows};
ghost use Rattle.scan.specs.Verdicts.{First};

use crate::covers::cover;
use crate::program::Program;
use effects::uses;
use flow::{Breach, Entry};
use instructions::{Instruction, Side};
use operands::{Operand, Spreading};
use words::word_count;

// Whether the instruction uses a bank that may be unready.
pub(crate) fn uses_unready<K: Operand>(instruction: Instruction, entry: &Entry<K>) -> bool
    ensures { Decides result (UsesUnready instruction (allows K.Operand.operations entry.now)) }
{
    (entry.left && uses(instruction, Side::Left)) || (entry.right && uses(instruction, Side::Right))
}

// Whether an address is outside the image.
pub(crate) fn lacks(code: &[u8], address: u16) -> bool
    ensures { Decides result (words_in code.now ≤ address) }
{
    address as usize >= word_count(code)
}

impl Program<'_> {
    fn lacks_some(&self, address: Option<u16>) -> bool
        ensures { Decides result ((q : ℕ) × ((address ≡ Some q) × (words_in self.now.code.now ≤ q))) }
    {
        let code = self.code;
        address.is_some_and(|q| lacks(code, q))
    }

    // Whether the instruction, run at `p`, may go on outside the image.
    fn strays<K: Spreading>(&self, instruction: Instruction, entry: &Entry<K>, p: u16) -> bool
        ensures { Decides result (Strays K.Operand.operations (words_in self.now.code.now) (allows K.Operand.operations entry.now) p instruction) }
    {
        self.lacks_some(entry.onward(instruction, p)) || self.lacks_some(entry.jump(instruction, p))
    }

    // The first breach that the instruction shows, run at `p`.
    pub(crate) fn run_breach<K: Spreading>(
        &self,
        instruction: Instruction,
        entry: &Entry<K>,
        p: u16,
    ) -> Option<Breach>
        ensures { First (RunShows K.Operand.operations (words_in self.now.code.now) self.now.masks.grants.now (allows K.Operand.operations entry.now) p instruction) result }
    {
        if self.strays(instruction, entry, p) {
            Some(Breach::Outside)
        } else if uses_unready(instruction, entry) {
            Some(Breach::Unready)
        } else {
            self.masks
                .exceeded(cover(instruction), entry)
                .then_some(Breach::Withheld)
        }
    }
}
