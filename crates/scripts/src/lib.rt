// Scripts of calls on a bench: how a line is read, how a script is played, and the line that answers a call.
#![tactic(auto)]

mod answer;
mod fault;
mod line;
mod playing;
mod reading;

pub use answer::Answer;
pub use fault::{LineFault, ScriptFault};
pub use line::Line;
pub use playing::play;
pub use reading::read_line;

#[cfg(test)]
mod tests;
