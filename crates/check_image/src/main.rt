// Checks an image file before it is burnt: the file at the path that is given, or standard input.
// Prints one line, as `accept words 3 reached 3` or `check 15 at 1`; status 1 unless the image is accepted.
#![tactic(auto)]

mod options;

use checker::{Acceptance, CheckFault, check};
use files::{ended, file_or_input};
use marks::Marks;
use operands::{LeastJoin, Operand, Spreading};
use options::{Kind, Options, OptionsFault, USAGE, read_options};
use sets::Set;
use std::alloc::Global;
use std::process::ExitCode;

// The verdict over a kind, with a table for so many words.
fn judged<K: LeastJoin + Clone>(
    heap: Global,
    file: &[u8],
    words: u16,
) -> anyhow::Result<Result<Acceptance, CheckFault>> {
    let mut operands = vec![in heap; K::all(); 16 * words as usize]?;
    let mut status = vec![in heap; 0u8; words as usize]?;
    Ok(check(file, operands.as_mut_slice(), status.as_mut_slice()))
}

fn run(rt: &HostRuntime, options: Options) -> anyhow::Result<ExitCode> {
    let file = file_or_input(rt, options.path.as_deref())?;
    let verdict = match options.kind {
        Kind::Marks => judged::<Marks>(rt.alloc(), file.as_slice(), options.words)?,
        Kind::Set => judged::<Set>(rt.alloc(), file.as_slice(), options.words)?,
    };
    match verdict {
        Ok(acceptance) => {
            println!(rt; "{acceptance}")?;
            Ok(ExitCode::SUCCESS)
        }
        Err(fault) => {
            println!(rt; "{fault}")?;
            Ok(ExitCode::FAILURE)
        }
    }
}

fn main(rt: HostRuntime) -> anyhow::Result<ExitCode> {
    let options = match read_options(&rt) {
        Ok(options) => options,
        Err(OptionsFault::Usage) => {
            eprintln!(rt; "{USAGE}")?;
            return Ok(ExitCode::FAILURE);
        }
        Err(OptionsFault::Arguments(error)) => return Err(error.into()),
    };
    Ok(ended(&rt, "check_image", run(&rt, options))?)
}
