// Sets of bytes as operands: each answer has exactly the bytes that members give.
#![tactic(auto)]

mod bitset;
mod images;
mod operand;
mod rows;
mod set;
mod worked;

pub use set::Set;
pub use worked::zero_or_one_plus_one;
