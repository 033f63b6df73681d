// What may stand when a word runs.
use operands::Operand;

// An operand for each register, and for each bank whether it may be unready.
#[derive(Clone, Copy)]
pub struct Entry<K: Operand> {
    pub operands: [K; 16],
    pub left: bool,
    pub right: bool,
}
