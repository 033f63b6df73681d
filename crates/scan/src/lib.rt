// The scan of a flow table for breaches, lowest address first.
#![tactic(auto)]

mod covers;
mod fault;
mod masks;
mod program;
mod reaching;
mod running;
mod scanning;
mod writes;

pub use covers::cover;
pub use fault::ScanFault;
pub use scanning::scan;
