// The table of a program over any kind of operands, grown until it keeps the rules.
#![tactic(auto)]

mod due;
mod send;
mod step;
mod table;

pub use table::grow;
