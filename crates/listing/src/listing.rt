// A whole listing.
ghost use Rattle.std.specs.Iterator.{IsFinite};

use crate::grant_line::grant_at;
use crate::word_line::word_at;
use image::Image;
use std::fmt;
use words::word_count;

#[derive(Clone, Copy)]
pub struct Listing<'a> {
    pub image: Image<'a>,
}

// Each on a line of its own.
fn write_lines<L: fmt::Display + Copy, Lines: Iterator<Item = L>, W: fmt::Write>(
    f: &mut fmt::Formatter<W>,
    lines: Lines,
) -> fmt::Result
    requires can { Lines.Iterator.can_next lines }
    requires ends { IsFinite (Lines.Iterator.remaining lines) }
{
    for line in lines {
        writeln!(f, "{line}")?;
    }
    Ok(())
}

impl fmt::Display for Listing<'_> {
    fn fmt<W: fmt::Write>(&self, f: &mut fmt::Formatter<W>) -> fmt::Result {
        let code = self.image.code;
        let grants = self.image.grants;
        let words = word_count(code.bytes());
        let entries = grants.bytes().len() / 4;
        let code_place = code.place();
        let grant_place = grants.place();
        writeln!(f, "format 1")?;
        writeln!(f, "words {words} at byte {code_place}")?;
        writeln!(f, "grants {entries} at byte {grant_place}")?;
        write_lines(
            f,
            (0..words).filter_map(|address| word_at(code.bytes(), address)),
        )?;
        write_lines(
            f,
            (0..entries).filter_map(|entry| grant_at(grants.bytes(), entry)),
        )?;
        write!(f, "image words {words} grants {entries}")
    }
}
