// Reads many files and prints what the reader answers to each: its fault, or where the parts of the image lie.
// A line of standard input is `file NAME`, a file beside the program, or
// `made LENGTH FORMAT WORDS CODE GRANTS GRANT_OFFSET [PLACE BYTE]..`: zero bytes, a header, and single bytes put in place.
#![tactic(auto)]

use anyhow::anyhow;
use image::{Image, read};
use std::alloc::{AllocError, Global};
use std::io::{BufRead, BufReader, BufWriter, Write};
use std::{fmt, fs, io};
use words::word_count;

// Where the parts of an image lie: `image words 3 at 20 grants 1 at 26`.
#[derive(Clone, Copy)]
struct Parts<'a>(Image<'a>);

impl fmt::Display for Parts<'_> {
    fn fmt<W: fmt::Write>(&self, f: &mut fmt::Formatter<W>) -> fmt::Result {
        let code = self.0.code;
        let grants = self.0.grants;
        let words = word_count(code.bytes());
        let entries = grants.bytes().len() / 4;
        let code_place = code.place();
        let grant_place = grants.place();
        write!(
            f,
            "image words {words} at {code_place} grants {entries} at {grant_place}"
        )
    }
}

// A file of `numbers[0]` bytes with the next five numbers as its header, and then bytes by place.
fn made(heap: Global, numbers: &[u32]) -> Result<Vec<u8>, AllocError> {
    let length = numbers.first().copied().unwrap_or(0) as usize;
    let mut file = vec![in heap; 0u8; length]?;
    let header = numbers.iter().skip(1).take(5);
    for (bytes, number) in file.chunks_mut(4).zip(header) {
        let number = number.to_be_bytes();
        let whole = bytes.len().min(4);
        bytes[..whole].copy_from_slice(&number[..whole]);
    }
    for pair in numbers.chunks_exact(2).skip(3) {
        if let [place, byte] = pair
            && let Some(slot) = file.get_mut(*place as usize)
        {
            *slot = (*byte & 0xff) as u8;
        }
    }
    Ok(file)
}

fn numbers_of(heap: Global, text: &str) -> anyhow::Result<Vec<u32>> {
    let mut numbers = Vec::new(heap);
    for word in text.split_whitespace() {
        numbers.push(word.parse::<u32>()?)?;
    }
    Ok(numbers)
}

fn file_of(rt: &HostRuntime, line: &str) -> anyhow::Result<Vec<u8>> {
    match line.split_once(' ') {
        Some(("file", name)) => Ok(fs::read(rt, name)?),
        Some(("made", rest)) => Ok(made(rt.alloc(), numbers_of(rt.alloc(), rest)?.as_slice())?),
        _ => Err(anyhow!("a line is `file NAME` or `made NUMBERS`")),
    }
}

fn answer<W: Write>(out: &mut W, line: &str, file: &[u8]) -> io::Result<()> {
    match read(file) {
        Ok(image) => {
            let parts = Parts(image);
            writeln!(out, "{line}: {parts}")
        }
        Err(fault) => writeln!(out, "{line}: {fault}"),
    }
}

fn run(rt: &HostRuntime) -> anyhow::Result<()> {
    let mut out = BufWriter::new(rt.alloc(), rt.stdout())?;
    for line in BufReader::new(rt.alloc(), rt.stdin())?.lines(rt.alloc()) {
        let line = line?;
        let file = file_of(rt, line.as_str())?;
        answer(&mut out, line.as_str(), file.as_slice())?;
    }
    out.flush()?;
    Ok(())
}

fn main(rt: HostRuntime) -> anyhow::Result<()> {
    run(&rt)
}
