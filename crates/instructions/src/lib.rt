// What the 8X305 can be told: registers, bank fields, the eight classes of instructions, and how people write them.
// A value of these types is mostly one that some word means; the crate `words` has the words.
#![tactic(auto)]

mod field;
mod instruction;
mod notation;
mod register;

pub use field::{Field, Side};
pub use instruction::{Class, Destination, Instruction, Operation, Source};
pub use register::Register;
