// Plays stored scripts, and compares what each writes with the stored answers.
// A line of standard input names a case: the image NAME.img, its script NAME.script and the answers NAME.out, beside the program.
#![tactic(auto)]

use anyhow::anyhow;
use image::read;
use scripts::play;
use std::alloc::Global;
use std::io::{BufRead, BufReader, BufWriter, Write};
use std::str::from_utf8;
use std::{fmt, fs};

// A line that is not the one expected. An empty text stands for a line that is not there.
#[derive(Clone, Copy)]
struct Difference<'a> {
    line: &'a str,
    expected: &'a str,
}

impl fmt::Display for Difference<'_> {
    fn fmt<W: fmt::Write>(&self, f: &mut fmt::Formatter<W>) -> fmt::Result {
        let line = self.line;
        let expected = self.expected;
        write!(f, "`{line}` in place of `{expected}`")
    }
}

// A loop, since the two texts may have unequal numbers of lines, and `zip` ends with the shorter.
fn first_difference<'a>(answers: &'a str, expected: &'a str) -> Option<Difference<'a>> {
    let mut expected_lines = expected.lines();
    for line in answers.lines() {
        let expected = expected_lines.next().unwrap_or("");
        if line != expected {
            return Some(Difference { line, expected });
        }
    }
    expected_lines
        .next()
        .map(|expected| Difference { line: "", expected })
}

// What a script writes on the code of an image file.
fn answers(heap: Global, file: &[u8], script: &str) -> anyhow::Result<Vec<u8>> {
    let mut out = Vec::new(heap);
    let image = read(file).map_err(|fault| anyhow!("{fault}"))?;
    play(script, image.code.bytes(), &mut out).map_err(|fault| anyhow!("{fault}"))?;
    Ok(out)
}

// Prints how a case comes out, and says whether it agrees: a flag, since a case that differs is counted and no error.
fn compare<W: Write>(rt: &HostRuntime, out: &mut W, name: &str) -> anyhow::Result<bool> {
    let heap = rt.alloc();
    let file = fs::read(rt, format!(in heap; "{name}.img")?)?;
    let script = fs::read_to_string(rt, format!(in heap; "{name}.script")?)?;
    let expected = fs::read_to_string(rt, format!(in heap; "{name}.out")?)?;
    let answers = answers(heap, file.as_slice(), script.as_str())?;
    match first_difference(from_utf8(answers.as_slice())?, expected.as_str()) {
        Some(difference) => {
            writeln!(out, "{name} differs: {difference}")?;
            Ok(false)
        }
        None => {
            writeln!(out, "{name} agrees")?;
            Ok(true)
        }
    }
}

fn run(rt: &HostRuntime) -> anyhow::Result<()> {
    let mut out = BufWriter::new(rt.alloc(), rt.stdout())?;
    let mut agreed = 0u64;
    let mut cases = 0u64;
    for name in BufReader::new(rt.alloc(), rt.stdin())?.lines(rt.alloc()) {
        if compare(rt, &mut out, name?.as_str())? {
            agreed = agreed.saturating_add(1);
        }
        cases = cases.saturating_add(1);
    }
    writeln!(out, "{agreed} of {cases} agree")?;
    out.flush()?;
    Ok(())
}

fn main(rt: HostRuntime) -> anyhow::Result<()> {
    run(&rt)
}
