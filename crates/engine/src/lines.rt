// The lines into a machine.

// Which lines are active; by default neither is.
#[derive(Clone, Copy, PartialEq, Eq, Debug, Default)]
pub struct Lines {
    pub reset: bool,
    pub halt: bool,
}
