// The check before burning: a file, judged over any kind of operands in lent memory.
#![tactic(auto)]

mod acceptance;
mod fault;
mod judging;

pub use acceptance::Acceptance;
pub use fault::CheckFault;
pub use judging::{check, judge};
