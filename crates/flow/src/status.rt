// Status bytes.
ghost use Rattle.std.specs.Prelude.{◌≡◌};
ghost use Rattle.flow.specs.Tables.{has_entry, has_mark};

use instructions::Side;

// The status byte of a word: 0 without an entry, else 1, and 2 for the left mark and 4 for the right. A mark says of a bank that
// it may be unready. The memory of a table is lent as bytes, so a byte becomes a Status where it is read.
#[derive(Clone, Copy, PartialEq, Eq, Debug)]
pub struct Status(pub u8);

impl Status {
    // Whether the word has an entry.
    pub fn has_entry(self) -> bool
        ensures { result ≡ has_entry self.0 }
    {
        self.0 % 2 == 1
    }

    // Whether a bank may be unready.
    pub fn may_be_unready(self, side: Side) -> bool
        ensures { result ≡ has_mark side self.0 }
    {
        match side {
            Side::Left => self.0 / 2 % 2 == 1,
            Side::Right => self.0 / 4 % 2 == 1,
        }
    }
}
