// Entries in memory.
ghost use Rattle.std.specs.Prelude.{◌≡◌, Some, None};
ghost use Rattle.flow.specs.Entries.{Room, Entered};

use crate::entry::Entry;
use crate::status::Status;
use instructions::Side;
use operands::Operand;

// The entry of an address, or none where the memory is too short for it.
pub fn entry_at<K: Operand>(operands: &[K], status: &[u8], address: u16) -> Option<Entry<K>>
    ensures short { result ≡ None → Room address status.now operands.now → ⊥ }
    ensures entry { (e : Entry K) → result ≡ Some e → Room address status.now operands.now × Entered K.Operand.operations status.now operands.now address e }
{
    let word = address as usize;
    let status = Status(*status.get(word)?);
    let operands = operands.get(16 * word..)?.first_chunk::<16>()?;
    Some(Entry {
        operands: *operands,
        left: status.may_be_unready(Side::Left),
        right: status.may_be_unready(Side::Right),
    })
}
