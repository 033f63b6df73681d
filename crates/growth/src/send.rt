// Sending an entry to a word: the word's entry then allows what it allowed and what the new one allows.
ghost use Rattle.std.specs.Prelude.{◌≡◌, ◌+◌, not, ◌&&◌};
ghost use Rattle.flow.specs.Tables.{has_entry, has_mark};
ghost use Rattle.growth.specs.Memory.{Room};
ghost use Rattle.growth.specs.Growth.{Blended, Flowed, Sent};

use crate::due::due;
use flow::{Entry, Status};
use instructions::Side;
use operands::{Operand, Spreading};

// Puts an operand of a new entry to the old one of a word, and tells whether that changed it. A word without an entry has no
// old operand.
fn blend<K: Spreading>(bare: bool, operand: &mut K, new: K) -> bool
    ensures { Blended K.Operand.operations K.Spreading.joined K.Spreading.rank bare operand.old new operand.new result }
{
    if bare {
        *operand = new;
        return true;
    }
    // The operand is stored in either case: without a branch, those of a word are joined side by side.
    let old = *operand;
    let (joined, added) = old.join(new);
    *operand = if added { joined } else { old };
    added
}

// Whether a word has an entry in which a bank may be unready.
fn had_mark(status: Status, side: Side) -> bool
    ensures { result ≡ (has_entry status.0 && has_mark side status.0) }
{
    status.has_entry() && status.may_be_unready(side)
}

fn is_new(mark: bool, had: bool) -> bool
    ensures { result ≡ (mark && not had) }
{
    mark && !had
}

// Sends an entry to the word q. Here and in what calls it the operands and the status bytes are lent as two slices: in a struct with
// methods, each contract would have to say as well that both loans and both lengths stay.
pub(crate) fn send<K: Spreading>(operands: &mut [K], status: &mut [u8], q: usize, new: &Entry<K>)
    requires { Room (q + 1) status.old operands.old }
    ensures { Flowed K.Operand.operations K.Spreading.joined K.Spreading.rank K.Spreading.MAX_RANK q new.now status.old operands.old status.new operands.new }
{
    let old = Status(status[q]);
    let bare = !old.has_entry();
    let left = had_mark(old, Side::Left);
    let right = had_mark(old, Side::Right);
    let mut risen = bare | is_new(new.left, left) | is_new(new.right, right);
    let cells = &mut operands[16 * q..16 * q + 16];
    // The new operands by index: in and after a loop over iter_mut().zip(..) a proof does not know what the cells hold.
    for (r, cell) in cells.iter_mut().enumerate() {
        risen |= blend(bare, cell, new.operands[r]);
    }
    if risen {
        status[q] = due(new.left | left, new.right | right).0;
    }
}

// Sends an entry on, if there is an address and it lies below n. `low` falls with the lowest word that may be due.
pub(crate) fn send_on<K: Spreading>(
    n: usize,
    operands: &mut [K],
    status: &mut [u8],
    target: Option<u16>,
    new: &Entry<K>,
    low: usize,
) -> usize
    requires { Room n status.old operands.old }
    ensures { Sent K.Operand.operations K.Spreading.joined K.Spreading.rank K.Spreading.MAX_RANK n low target new.now status.old operands.old result status.new operands.new }
{
    if let Some(q) = target {
        let q = q as usize;
        if q < n {
            send(operands, status, q, new);
            return low.min(q);
        }
    }
    low
}
