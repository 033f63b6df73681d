// The scan of a table in memory.
ghost use Rattle.std.specs.Prelude.{◌<◌, ◌≤◌, Decides};
ghost use Rattle.words.specs.Code.{words_in};
ghost use Rattle.flow.specs.Entries.{Room};
ghost use Rattle.flow.specs.Tables.{table_of};
ghost use Rattle.scan.specs.Verdicts.{First, EntryShows, Suffices, Scanned};

use crate::fault::ScanFault;
use crate::masks::Masks;
use crate::program::Program;
use flow::{Breach, Status, entry_at};
use operands::{Operand, Spreading};
use words::word_count;

// Whether the memory has room for the entries of n words.
fn suffices<K: Operand>(n: usize, operands: &[K], status: &[u8]) -> bool
    requires { n ≤ 8192 }
    ensures { Decides result (Suffices n status.now operands.now) }
{
    n <= status.len() && 16 * n <= operands.len()
}

impl Program<'_> {
    // The first breach of the entry that the memory holds at `p`; none too where it holds no entry.
    fn entry_breach<K: Spreading>(&self, operands: &[K], status: &[u8], p: u16) -> Option<Breach>
        requires { (p < words_in self.now.code.now) × (Room p status.now operands.now) }
        ensures { First (EntryShows K.Operand.operations self.now.code.now self.now.masks.grants.now (table_of K.Operand.operations status.now operands.now) p) result }
    {
        if Status(status[p as usize]).has_entry() {
            self.address_breach(&entry_at(operands, status, p)?, p)
        } else {
            None
        }
    }
}

// Passes a table in which no entry has a breach.
pub fn scan<K: Spreading>(
    code: &[u8],
    grants: &[u8],
    operands: &[K],
    status: &[u8],
) -> Result<(), ScanFault>
    ensures { Scanned K.Operand.operations code.now grants.now status.now operands.now result }
{
    let n = word_count(code);
    if !suffices(n, operands, status) {
        return Err(ScanFault::Memory);
    }
    let program = Program {
        code,
        masks: Masks::read(grants),
    };
    for address in 0..n as u16 {
        if let Some(breach) = program.entry_breach(operands, status, address) {
            return Err(ScanFault::Breach { breach, address });
        }
    }
    Ok(())
}
