// Makes calls without a pattern on machines of accepted images, and compares what the check promises of each:
// no cycle is refused, no withheld bit of a port is changed, both addresses stay inside the code, and every register holds a member
// of the table's operand at the program counter. A line of standard input names an image, a file beside the program.
#![tactic(auto)]

mod call;
mod difference;
mod player;
mod subject;
mod tally;
mod twin;

use crate::player::{Finding, Player};
use crate::subject::Subject;
use crate::tally::Tally;
use anyhow::anyhow;
use checker::check;
use image::read;
use marks::Marks;
use numbers::Numbers;
use operands::{LeastJoin, Operand, Spreading};
use std::io::{BufRead, BufReader, BufWriter, Write};
use std::{fs, io};
use words::MOST_WORDS;

const MACHINES: u32 = 8;

// Calls on several machines up to the first difference, the same ones for the same seed.
fn soak(
    subject: &Subject<'_>,
    seed: u64,
    missed: Option<u8>,
    tally: &mut Tally,
) -> Result<(), Finding> {
    let mut numbers = Numbers::new(seed);
    for _ in 0..MACHINES {
        let mut player = Player::new(&mut numbers, missed);
        let played = player.play(subject, &mut numbers);
        tally.add(player.tally());
        played?;
    }
    Ok(())
}

fn report<W: Write>(
    out: &mut W,
    name: &str,
    calls: u64,
    played: Result<(), Finding>,
) -> io::Result<()> {
    match played {
        Ok(()) => writeln!(out, "{name} calls {calls} agrees"),
        Err(Finding { call, difference }) => writeln!(
            out,
            "{name} calls {calls} differs at call {call}: {difference}"
        ),
    }
}

fn word_of(played: Result<(), Finding>) -> &'static str {
    if played.is_err() {
        "is noticed"
    } else {
        "is not noticed"
    }
}

// The same calls, compared in three ways that must fail.
fn report_misses<W: Write>(
    out: &mut W,
    name: &str,
    subject: &Subject<'_>,
    seed: u64,
) -> io::Result<()> {
    let mut tally = Tally::default();
    let drive = word_of(soak(subject, seed, subject.withheld_port(), &mut tally));
    writeln!(out, "{name} a missed drive {drive}")?;
    let write = word_of(soak(&subject.without_grants(), seed, None, &mut tally));
    writeln!(out, "{name} a write without its grant {write}")?;
    let table = word_of(soak(&subject.with_moved_table(), seed, None, &mut tally));
    writeln!(out, "{name} a table at other addresses {table}")
}

// What was compared on an image, of which the number is the seed.
fn soak_image<W: Write>(
    rt: &HostRuntime,
    out: &mut W,
    name: &str,
    number: u64,
) -> anyhow::Result<Tally> {
    let heap = rt.alloc();
    let file = fs::read(rt, name)?;
    let mut operands = vec![in heap; Marks::all(); 16 * MOST_WORDS]?;
    let mut status = vec![in heap; 0u8; MOST_WORDS]?;
    check(
        file.as_slice(),
        operands.as_mut_slice(),
        status.as_mut_slice(),
    )
    .map_err(|fault| anyhow!("{name}: {fault}"))?;
    let image = read(file.as_slice()).map_err(|fault| anyhow!("{name}: {fault}"))?;
    let subject = Subject::new(image, operands.as_slice(), status.as_slice());
    let mut tally = Tally::default();
    let played = soak(&subject, number, None, &mut tally);
    report(out, name, tally.calls, played)?;
    if number == 0 {
        report_misses(out, name, &subject, number)?;
    }
    Ok(tally)
}

fn run(rt: &HostRuntime) -> anyhow::Result<()> {
    let mut out = BufWriter::new(rt.alloc(), rt.stdout())?;
    let mut total = Tally::default();
    let mut images = 0u64;
    for name in BufReader::new(rt.alloc(), rt.stdin())?.lines(rt.alloc()) {
        total.add(soak_image(rt, &mut out, name?.as_str(), images)?);
        images = images.saturating_add(1);
    }
    writeln!(out, "images {images} {total}")?;
    out.flush()?;
    Ok(())
}

fn main(rt: HostRuntime) -> anyhow::Result<()> {
    run(&rt)
}
