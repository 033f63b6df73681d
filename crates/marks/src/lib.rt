// Marks: operands of which each bit is known on its own.
#![tactic(auto)]

mod ends;
mod mark;
mod marks_join;
mod marks_kind;
mod worked;

pub use mark::Marks;
pub use worked::zero_or_one_plus_one;
