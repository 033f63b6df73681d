// What a call is answered, as a line of text.
use bench::{Call, Outcome};
use std::fmt;

#[derive(Clone, Copy)]
pub struct Answer {
    pub call: Call,
    pub outcome: Outcome,
}

// The call and its outcome: `cycle 0 0: engine 19 at 4`, `run 9: finished 3 engine 17 at 8`, `state pc 0001 ..`.
impl fmt::Display for Answer {
    fn fmt<W: fmt::Write>(&self, f: &mut fmt::Formatter<W>) -> fmt::Result {
        let call = self.call;
        write!(f, "{call}")?;
        match self.outcome {
            Outcome::Made(Ok(())) => f.write_str(": ok"),
            Outcome::Made(Err(fault)) => write!(f, ": {fault}"),
            Outcome::Ran {
                finished,
                fault: None,
            } => write!(f, ": finished {finished}"),
            Outcome::Ran {
                finished,
                fault: Some(fault),
            } => write!(f, ": finished {finished} {fault}"),
            Outcome::State(snapshot) => write!(f, " {snapshot}"),
        }
    }
}
