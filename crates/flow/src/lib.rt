// The flow of a program over any kind of operands: which words run at an address, what they make of a state, where they go on,
// and the table of states that a check grows.
#![tactic(auto)]

mod after;
mod breach;
mod entry;
mod memory;
mod sources;
mod status;
mod targets;
mod ways;

pub use breach::Breach;
pub use entry::Entry;
pub use memory::entry_at;
pub use status::Status;
pub use targets::{first_target, instruction_at, is_xec, target_count};
