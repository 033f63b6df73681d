// Why a file is refused.
ghost use Rattle.std.specs.Prelude.{◌≡◌, Some};
ghost use Rattle.image.specs.Faults.{reported, fault_text};

use faults::{Fault, write_report};
use std::fmt;

#[derive(Clone, Copy, PartialEq, Eq, Debug)]
pub enum FileFault {
    // fewer than 20 bytes, or more than 32,768
    Size,
    // a format other than 1
    Format,
    // no words, or more than 8,192
    WordCount,
    // code that begins inside the header or ends after the file
    CodePlace,
    // more than 512 grants
    GrantCount,
    // grants that begin inside the header or end after the file
    GrantPlace,
    // a byte that is both code and grants
    Overlap,
    // a grant with a bank above 1 or a spare byte other than 0
    Entry { place: usize },
    // a grant that does not follow the one before it by bank, then port
    Order { place: usize },
}

impl Fault for FileFault {
    // a byte of the file
    type Place = usize;

    ghost reported = { reported };

    fn report(self) -> (u8, usize) {
        match self {
            FileFault::Size => (1, 0),
            FileFault::Format => (2, 0),
            FileFault::WordCount => (3, 4),
            FileFault::CodePlace => (4, 8),
            FileFault::GrantCount => (5, 12),
            FileFault::GrantPlace => (6, 16),
            FileFault::Overlap => (7, 16),
            FileFault::Entry { place } => (8, place),
            FileFault::Order { place } => (9, place),
        }
    }
}

// Layer, number and place, as `file 4 at 8`.
impl fmt::Display for FileFault {
    ghost output = { λ f. Some (fault_text f) };

    fn fmt<W: fmt::Write>(&self, f: &mut fmt::Formatter<W>) -> fmt::Result {
        write_report(f, "file", self.report())
    }
}
