// What the words show that run at an address.
ghost use Rattle.std.specs.Prelude.{◌≡◌, ◌<◌, Option};
ghost use Rattle.flow.specs.declared.breach.Breach.{Breach};
ghost use Rattle.words.specs.Code.{words_in};
ghost use Rattle.flow.specs.Breaches.{Occurs};
ghost use Rattle.flow.specs.Entries.{allows};
ghost use Rattle.scan.specs.Signs.{earlier as earlier_of, WordShows, HereShows, ReachedShows};
ghost use Rattle.scan.specs.Verdicts.{First};

use crate::program::Program;
use crate::running::{lacks, uses_unready};
use flow::{Breach, Entry, first_target, instruction_at, is_xec, target_count};
use instructions::Instruction;
use operands::{Operand, Spreading};

// The one that is told first.
fn earlier(x: Option<Breach>, y: Option<Breach>) -> Option<Breach>
    ensures { result ≡ earlier_of x y }
{
    match (x, y) {
        (Some(a), Some(b)) => Some(a.min(b)),
        _ => x.or(y),
    }
}

// The breach that an instruction shows whatever it reaches.
fn here_breach<K: Operand>(here: Option<Instruction>, entry: &Entry<K>) -> Option<Breach>
    ensures { First (HereShows here (allows K.Operand.operations entry.now)) result }
{
    uses_unready(here?, entry).then_some(Breach::Unready)
}

impl Program<'_> {
    // The first breach that the word at `a` shows as it is reached from `p`.
    fn word_breach<K: Spreading>(&self, entry: &Entry<K>, p: u16, a: u16) -> Option<Breach>
        ensures { First (WordShows K.Operand.operations self.now.code.now self.now.masks.grants.now (allows K.Operand.operations entry.now) p a) result }
    {
        if lacks(self.code, a) {
            return Some(Breach::Outside);
        }
        let Some(instruction) = instruction_at(self.code, a) else {
            return Some(Breach::NotPermitted);
        };
        if is_xec(instruction) {
            return Some(Breach::Chain);
        }
        self.run_breach(instruction, entry, p)
    }

    // The same, or none where the word is not reached.
    fn reached_breach<K: Spreading>(
        &self,
        here: Option<Instruction>,
        entry: &Entry<K>,
        p: u16,
        a: u16,
    ) -> Option<Breach>
        ensures { First (ReachedShows K.Operand.operations self.now.code.now self.now.masks.grants.now (allows K.Operand.operations entry.now) p here a) result }
    {
        if entry.reaches(here, p, a) {
            self.word_breach(entry, p, a)
        } else {
            None
        }
    }

    // The first breach at `p`, from the state that `held` allows.
    pub(crate) fn address_breach<K: Spreading>(&self, held: &Entry<K>, p: u16) -> Option<Breach>
        requires { p < words_in self.now.code.now }
        ensures { First (Occurs K.Operand.operations self.now.code.now self.now.masks.grants.now (allows K.Operand.operations held.now) p) result }
    {
        let here = instruction_at(self.code, p);
        let first = first_target(here, p);
        let end = first + target_count(here);
        (first..end).fold(
            here_breach(here, held),
            |found, a|
                ensures { (word : Option Breach) × ((result ≡ earlier_of found word) × First (ReachedShows K.Operand.operations self.entry.now.code.now self.entry.now.masks.grants.now (allows K.Operand.operations held.entry.now) p here a) word) }
            { earlier(found, self.reached_breach(here, held, p, a)) },
        )
    }
}
