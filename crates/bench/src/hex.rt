// Bytes as people write them in hex.
ghost use Rattle.std.specs.Prelude.{◌≡◌};
ghost use Rattle.bench.specs.Hex.{digit_value, byte_of};

fn digit(character: u8) -> Option<u8>
    ensures { result ≡ digit_value character }
{
    char::from(character).to_digit(16).map(|digit| digit as u8)
}

// The byte that one or two hex digits stand for.
pub fn hex_byte(word: &str) -> Option<u8>
    ensures { result ≡ byte_of word.now }
{
    match word.as_bytes() {
        [low] => digit(*low),
        [high, low] => Some(digit(*high)? * 16 + digit(*low)?),
        _ => None,
    }
}
