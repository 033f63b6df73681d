// Bit fields of the two port banks.
ghost use Rattle.std.specs.Prelude.{◌<◌, ◌≤◌};

// One of the two port banks.
#[derive(Clone, Copy, PartialEq, Eq, Debug)]
pub enum Side {
    Left,
    Right,
}

// `length` adjacent bits of a bank's selected port, the lowest of them at `bit`; bit 0 is the most significant one.
#[derive(Clone, Copy, PartialEq, Eq, Debug)]
pub struct Field {
    pub side: Side,
    pub bit: u8,
    pub length: u8,
    ghost placed: { bit < 8 },
    ghost nonempty: { 0 < length },
    ghost short: { length ≤ 8 },
}
