// The two parts of an image.
ghost use Rattle.std.specs.Prelude.{◌≡◌};
ghost use Rattle.image.specs.Parts.{part_bytes, part_place};

// A part of a file: the file's own bytes from a place on.
// Two cases that each have a slice and a place, and no struct beside a kind: a rule of the project fixes this form.
#[derive(Clone, Copy)]
pub enum Part<'a> {
    // instruction words, two bytes each, the most significant one first
    Code { bytes: &'a [u8], place: usize },
    // grants, four bytes each: bank, port, mask and a spare byte
    Grants { bytes: &'a [u8], place: usize },
}

impl<'a> Part<'a> {
    pub fn bytes(self) -> &'a [u8]
        ensures { result.now ≡ part_bytes self.entry }
    {
        match self {
            Part::Code { bytes, .. } => bytes,
            Part::Grants { bytes, .. } => bytes,
        }
    }

    // Where the part begins in the file.
    pub fn place(self) -> usize
        ensures { result ≡ part_place self.entry }
    {
        match self {
            Part::Code { place, .. } => place,
            Part::Grants { place, .. } => place,
        }
    }
}

#[derive(Clone, Copy)]
pub struct Image<'a> {
    pub code: Part<'a>,
    pub grants: Part<'a>,
}
