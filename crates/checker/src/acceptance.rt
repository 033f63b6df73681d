// What is told of an accepted image.
ghost use Rattle.std.specs.Prelude.{Some};
ghost use Rattle.checker.specs.Acceptances.{acceptance_text};

use std::fmt;

#[derive(Clone, Copy, PartialEq, Eq, Debug)]
pub struct Acceptance {
    // the words of the code
    pub words: usize,
    // the addresses at which the program counter can stand
    pub reached: usize,
}

// As `accept words 3 reached 3`.
impl fmt::Display for Acceptance {
    ghost output = { λ a. Some (acceptance_text a) };

    fn fmt<W: fmt::Write>(&self, f: &mut fmt::Formatter<W>) -> fmt::Result {
        let words = self.words;
        let reached = self.reached;
        write!(f, "accept words {words} reached {reached}")
    }
}
