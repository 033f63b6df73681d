// A word of a listing: its address, the word and what it means.
ghost use Rattle.std.specs.Prelude.{◌≡◌};
ghost use Rattle.listing.specs.Lines.{ListsWord};

use instructions::Instruction;
use std::fmt;
use words::{decode, fetch};

#[derive(Clone, Copy)]
pub struct WordLine {
    pub address: usize,
    pub word: u16,
    pub meaning: Option<Instruction>,
}

// The line for an address, or none outside the code.
pub fn word_at(code: &[u8], address: usize) -> Option<WordLine>
    ensures { ListsWord code.now address result }
{
    fetch(code, address).map(|word| WordLine {
        address,
        word,
        meaning: decode(word),
    })
}

// Address and word in octal, the word in hex, and the instruction: `00000  143405 c705  XMIT 5,R7`.
impl fmt::Display for WordLine {
    fn fmt<W: fmt::Write>(&self, f: &mut fmt::Formatter<W>) -> fmt::Result {
        let address = self.address;
        let word = self.word;
        write!(f, "{address:05o}  {word:06o} {word:04x}  ")?;
        match self.meaning {
            Some(instruction) => write!(f, "{instruction}"),
            None => f.write_str("not permitted"),
        }
    }
}
