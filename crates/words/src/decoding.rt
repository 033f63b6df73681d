// From a word to the instruction that it means.
ghost use Rattle.std.specs.Prelude.{◌≡◌, ◌+◌, ◌<◌, is_some, IfSome, if◌then◌else◌};
ghost use Rattle.words.specs.Words.{meaning, permitted, permitted_below, Alone, opcode};
ghost use Rattle.instructions.specs.Classes.{class_of, class_number};

use crate::parts::Parts;
use instructions::{Class, Instruction};

// The instruction that a word means, or none where the word is not permitted.
pub fn decode(word: u16) -> Option<Instruction>
    ensures meaning { result ≡ meaning word }
    ensures permitted { is_some result ≡ permitted word }
    ensures alone { Alone word result }
    ensures class { IfSome result (λ i. class_number (class_of i) ≡ opcode word) }
{
    Parts::of(word).instruction(Class::of((word >> 13) as u8))
}

// How many of the 65,536 words are permitted.
pub fn permitted_words() -> u32
    ensures counted { result ≡ permitted_below 65536 }
    ensures value { result ≡ 62720 }
{
    (0..=u16::MAX)
        .filter(|&word| decode(word).is_some())
        .count() as u32
}
