// The words that bytes of code hold.
ghost use Rattle.std.specs.Prelude.{◌≡◌, if◌then◌else◌, Some, None, nat_lt};
ghost use Rattle.words.specs.Code.{words_in, word_at};

// The largest number of words that the chip can address.
pub const MOST_WORDS: usize = 8_192;

// How many words the code has: half its length rounded down, and at most 8,192.
pub fn word_count(code: &[u8]) -> usize
    ensures { result ≡ words_in code.now }
{
    (code.len() / 2).min(MOST_WORDS)
}

// The word at an address, or none outside the code.
pub fn fetch(code: &[u8], address: usize) -> Option<u16>
    ensures { result ≡ (if nat_lt address (words_in code.now) then Some (word_at code.now address) else None) }
{
    if address < word_count(code) {
        Some(u16::from_be_bytes([code[2 * address], code[2 * address + 1]]))
    } else {
        None
    }
}
