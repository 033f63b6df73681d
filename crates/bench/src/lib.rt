// A machine beside its two banks: what it is made with, the calls on it and what they answer, the checksums of its banks, and bytes in hex.
#![tactic(auto)]

mod bench;
mod call;
mod checksum;
mod hex;
mod outcome;
mod setup;

pub use bench::Bench;
pub use call::Call;
pub use checksum::bank_checksum;
pub use hex::hex_byte;
pub use outcome::{Outcome, Snapshot};
pub use setup::{RegistersGiven, Setup};
