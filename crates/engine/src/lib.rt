// The engine of a module: the machine, its cycle on any code with any two banks, and why it refuses.
#![tactic(auto)]

mod beside;
mod bytes;
mod cycle;
mod datapath;
mod fault;
mod lines;
mod machine;
mod run;
mod starting;

pub use fault::EngineFault;
pub use lines::Lines;
pub use machine::Machine;
pub use run::LONGEST_RUN;
