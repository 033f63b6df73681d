// Operands: bytes, and what stands for several bytes at once.
#![tactic(auto)]

mod byte;
mod bytes;
mod operand;
mod worked;

pub use byte::Byte;
pub use bytes::{carry_byte, kept_byte, rotated_byte};
pub use operand::{LeastJoin, Operand, Spreading};
pub use worked::zero_or_one_plus_one;
