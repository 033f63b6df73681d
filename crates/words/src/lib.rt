// Instruction words: what each of the 65,536 words means, the word that means a given instruction, and the words of code.
#![tactic(auto)]

mod code;
mod decoding;
mod encoding;
mod parts;

pub use code::{MOST_WORDS, fetch, word_count};
pub use decoding::{decode, permitted_words};
pub use encoding::{encode, rebuild};

#[cfg(test)]
mod tests;
