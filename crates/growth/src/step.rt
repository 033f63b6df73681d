// A step of the growth: a word that is due is sent on.
ghost use Rattle.std.specs.Prelude.{◌≡◌, ◌<◌, ◌≤◌, Some, slice_index};
ghost use Rattle.words.specs.Code.{words_in};
ghost use Rattle.flow.specs.Ways.{instruction_at};
ghost use Rattle.flow.specs.Entries.{allows};
ghost use Rattle.growth.specs.Measures.{load};
ghost use Rattle.growth.specs.Memory.{Room, Quiet, Kept};
ghost use Rattle.growth.specs.Growth.{RunsAs, Went, Growing};

use crate::due::take_up;
use crate::send::send_on;
use flow::{Entry, entry_at, first_target, instruction_at, is_xec, target_count};
use instructions::Instruction;
use operands::{Operand, Spreading};
use words::word_count;

// The instruction at a, if it may run while the program counter is p, where `here` stands, and is no XEC.
fn runs_at<K: Spreading>(
    code: &[u8],
    here: Option<Instruction>,
    entry: &Entry<K>,
    p: u16,
    a: u16,
) -> Option<Instruction>
    requires { here ≡ instruction_at code.now p }
    ensures { (i : Instruction) → (result ≡ Some i → RunsAs K.Operand.operations code.now (allows K.Operand.operations entry.now) p a i) × (RunsAs K.Operand.operations code.now (allows K.Operand.operations entry.now) p a i → result ≡ Some i) }
{
    if !entry.reaches(here, p, a) {
        return None;
    }
    instruction_at(code, a).filter(|instruction| !is_xec(*instruction))
}

// Sends an instruction that runs at p on to where it goes.
fn pass<K: Spreading>(
    n: usize,
    operands: &mut [K],
    status: &mut [u8],
    p: u16,
    instruction: Instruction,
    entry: &Entry<K>,
    low: usize,
) -> usize
    requires { Room n status.old operands.old }
    ensures { Went K.Operand.operations K.Spreading.joined K.Spreading.rank K.Spreading.MAX_RANK n p low instruction entry.now status.old operands.old result status.new operands.new }
{
    let new = entry.after(instruction);
    let low = send_on(n, operands, status, entry.onward(instruction, p), &new, low);
    send_on(n, operands, status, entry.jump(instruction, p), &new, low)
}

// Takes up the word p, which is due and the lowest that is, and sends on every word that runs there. No word below the
// result is due then.
pub(crate) fn step<K: Spreading>(
    code: &[u8],
    operands: &mut [K],
    status: &mut [u8],
    p: u16,
) -> usize
    requires room { Room (words_in code.now) status.old operands.old }
    requires inside { p < words_in code.now }
    requires due { 8 ≤ slice_index status.old p }
    requires quiet { Quiet status.old p }
    requires growing { Growing K.Operand.operations K.Spreading.joined code.now status.old operands.old }
    ensures growing { Growing K.Operand.operations K.Spreading.joined code.now status.new operands.new }
    ensures kept { Kept K.Operand.operations (words_in code.now) status.old operands.old status.new operands.new }
    ensures falls { load K.Operand.operations K.Spreading.rank K.Spreading.MAX_RANK (words_in code.now) status.new operands.new < load K.Operand.operations K.Spreading.rank K.Spreading.MAX_RANK (words_in code.now) status.old operands.old }
    ensures quiet { Quiet status.new result }
{
    let Some(saved) = entry_at(operands, status, p) else {
        return 0;
    };
    take_up(status, p as usize);
    let here = instruction_at(code, p);
    let first = first_target(here, p);
    let n = word_count(code);
    let mut low = p as usize;
    for a in first..first + target_count(here) {
        if let Some(instruction) = runs_at(code, here, &saved, p, a) {
            low = pass(n, operands, status, p, instruction, &saved, low);
        }
    }
    low
}
