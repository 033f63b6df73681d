// The growth: from the entry of the start, each word that is due is sent on, the lowest first, until none is.
ghost use Rattle.std.specs.Prelude.{◌≡◌, ℕ, ◌<◌, ◌≤◌, length, Some, None, slice_index, MatchOption, count_by};
ghost use Rattle.words.specs.Code.{words_in};
ghost use Rattle.flow.specs.Tables.{has_entry};
ghost use Rattle.growth.specs.Memory.{Room, Quiet, entries_in};
ghost use Rattle.growth.specs.Growth.{Grown, Lacks};

use crate::due::is_due;
use crate::send::send;
use crate::step::step;
use flow::{Entry, Status};
use operands::{Operand, Spreading};
use words::word_count;

// No word has an entry. Here and in `lowest` the status bytes are lent whole, with n beside them, since all that is said of the
// growth is said of the whole memory: over a part, each call would have to be carried back to it.
fn clear(status: &mut [u8], n: usize)
    requires { n ≤ length status.old }
    ensures zero { (k : ℕ) → k < n → slice_index status.new k ≡ 0 }
    ensures rest { (k : ℕ) → n ≤ k → slice_index status.new k ≡ slice_index status.old k }
{
    status[..n].fill(0);
}

// The lowest of these words that is due.
fn first_due(status: &[u8]) -> Option<usize>
    ensures { MatchOption result (Quiet status.now (length status.now)) (λ p. (p < length status.now) × (8 ≤ slice_index status.now p) × Quiet status.now p) }
{
    status.iter().position(|byte| is_due(Status(*byte)))
}

// The lowest word that is due; none is due below `low`.
fn lowest(status: &[u8], low: usize, n: usize) -> Option<usize>
    requires bytes { n ≤ length status.now }
    requires quiet { Quiet status.now low }
    ensures { MatchOption result (Quiet status.now n) (λ p. (p < n) × (8 ≤ slice_index status.now p) × Quiet status.now p) }
{
    let left = status.get(low..n)?;
    let found = first_due(left)?;
    Some(low + found)
}

// How many of these words have an entry.
fn count_entries(status: &[u8]) -> usize
    ensures { result ≡ count_by has_entry status.now }
{
    status
        .iter()
        .filter(|byte| Status(**byte).has_entry())
        .count()
}

fn fill<K: Spreading>(code: &[u8], operands: &mut [K], status: &mut [u8])
    requires room { Room (words_in code.now) status.old operands.old }
    requires full { 0 < words_in code.now }
    ensures { Grown K.Operand.operations K.Spreading.joined code.now status.old operands.old status.new operands.new }
{
    let n = word_count(code);
    clear(status, n);
    send(operands, status, 0, &Entry::start());
    let mut low = 0;
    while let Some(p) = lowest(status, low, n) {
        low = step(code, operands, status, p as u16);
    }
}

// Grows the table of the code in memory, and returns how many words have an entry; none if there is no word or too little
// memory, which is then left as it was.
pub fn grow<K: Spreading>(code: &[u8], operands: &mut [K], status: &mut [u8]) -> Option<usize>
    ensures refused { Lacks (words_in code.now) status.old operands.old → (result ≡ None) × ((status.new ≡ status.old) × (operands.new ≡ operands.old)) }
    ensures grown { (Lacks (words_in code.now) status.old operands.old → ⊥) → (result ≡ Some (entries_in status.new (words_in code.now))) × Grown K.Operand.operations K.Spreading.joined code.now status.old operands.old status.new operands.new }
{
    let n = word_count(code);
    if n == 0 || status.len() < n || operands.len() < 16 * n {
        return None;
    }
    fill(code, operands, status);
    Some(count_entries(&status[..n]))
}
