// Prints every word: what it means and the word rebuilt from that, or that it is not permitted; last how many are permitted.
#![tactic(auto)]

mod line;

ghost use Rattle.std.specs.Prelude.{◌≡◌, IfOk};
ghost use Rattle.words.specs.Words.{permitted_below};

use crate::line::Line;
use std::io;
use std::io::{BufWriter, Write};

// A line for each word. Answers how many of them are permitted.
fn write_words<W: Write>(out: &mut W) -> io::Result<u32>
    ensures { IfOk result (λ n. n ≡ permitted_below 65536) }
{
    let mut permitted = 0u32;
    for word in 0..=u16::MAX {
        let line = Line::from(word);
        writeln!(out, "{line}")?;
        permitted = line.counted(permitted);
    }
    Ok(permitted)
}

fn main(rt: HostRuntime) -> io::Result<()> {
    let mut out = BufWriter::new(rt.alloc(), rt.stdout())?;
    let permitted = write_words(&mut out)?;
    writeln!(out, "permitted {permitted}")?;
    out.flush()
}
