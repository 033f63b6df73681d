// The listing of an image: the header's facts, each word with its instruction, each grant, and a last line that counts them.
#![tactic(auto)]

mod grant_line;
mod listing;
mod word_line;

pub use grant_line::{GrantLine, grant_at};
pub use listing::Listing;
pub use word_line::{WordLine, word_at};

#[cfg(test)]
mod tests;
