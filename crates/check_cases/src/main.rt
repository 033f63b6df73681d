// Judges many files and prints for each three answers: over marks with a table for 512 words and for 8,192, and over sets for 8,192.
// A line of standard input is the name of a file beside the program.
#![tactic(auto)]

use checker::{Acceptance, CheckFault, check};
use marks::Marks;
use operands::{LeastJoin, Operand, Spreading};
use sets::Set;
use std::alloc::{AllocError, Global};
use std::io::{BufRead, BufReader, BufWriter, Write};
use std::{fs, io};
use words::MOST_WORDS;

fn write_answer<W: Write>(out: &mut W, answer: Result<Acceptance, CheckFault>) -> io::Result<()> {
    match answer {
        Ok(acceptance) => write!(out, "\t{acceptance}"),
        Err(fault) => write!(out, "\t{fault}"),
    }
}

// The table memory, for the most words that an image has.
#[derive(Drop)]
struct Memory<K: Operand + Drop> {
    operands: Vec<K>,
    status: Vec<u8>,
}

impl<K: LeastJoin + Clone + Drop> Memory<K> {
    fn new(heap: Global) -> Result<Memory<K>, AllocError> {
        Ok(Memory {
            operands: vec![in heap; K::all(); 16 * MOST_WORDS]?,
            status: vec![in heap; 0u8; MOST_WORDS]?,
        })
    }

    // The answer with as much of the memory as so many words need.
    fn judged(&mut self, file: &[u8], words: usize) -> Result<Acceptance, CheckFault> {
        let few = words.min(MOST_WORDS);
        let operands = self
            .operands
            .as_mut_slice()
            .get_mut(..16 * few)
            .ok_or(CheckFault::Memory)?;
        let status = self
            .status
            .as_mut_slice()
            .get_mut(..few)
            .ok_or(CheckFault::Memory)?;
        check(file, operands, status)
    }
}

fn run(rt: &HostRuntime) -> anyhow::Result<()> {
    let heap = rt.alloc();
    let mut marks = Memory::<Marks>::new(heap)?;
    let mut sets = Memory::<Set>::new(heap)?;
    let mut out = BufWriter::new(heap, rt.stdout())?;
    for line in BufReader::new(heap, rt.stdin())?.lines(heap) {
        let name = line?;
        let file = fs::read(rt, name.as_str())?;
        write!(out, "{name}")?;
        write_answer(&mut out, marks.judged(file.as_slice(), 512))?;
        write_answer(&mut out, marks.judged(file.as_slice(), MOST_WORDS))?;
        write_answer(&mut out, sets.judged(file.as_slice(), MOST_WORDS))?;
        writeln!(out)?;
    }
    out.flush()?;
    Ok(())
}

fn main(rt: HostRuntime) -> anyhow::Result<()> {
    run(&rt)
}
