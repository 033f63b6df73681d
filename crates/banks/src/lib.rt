// Banks of 256 ports, and which bits of a port a program and the outside can change.
#![tactic(auto)]

mod bank;
mod port;
mod port_bank;
mod storage;

pub use bank::Bank;
pub use port::{Port, merge};
pub use port_bank::PortBank;
pub use storage::Storage;
