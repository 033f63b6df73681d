// What refusals have in common: each is reported by a number and a place.
#![tactic(auto)]

mod fault;
mod report;

pub use fault::Fault;
pub use report::write_report;
