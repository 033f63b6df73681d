// Lists the image file at the path that is given, or on standard input.
// A refused file prints its fault, as `file 4 at 8`, and ends with status 1.
#![tactic(auto)]

use anyhow::anyhow;
use files::{ended, file_or_input};
use image::read;
use listing::Listing;
use std::io::{BufWriter, Write};
use std::process::ExitCode;
use std::{env, io};

fn input(rt: &HostRuntime) -> anyhow::Result<Vec<u8>> {
    let mut args = env::args(rt)?;
    let _program = args.next();
    let path = args.next();
    if args.next().is_some() {
        return Err(anyhow!("give one file, or none to read standard input"));
    }
    file_or_input(rt, path.as_deref())
}

fn run(rt: &HostRuntime) -> anyhow::Result<ExitCode> {
    let bytes = input(rt)?;
    let mut out = BufWriter::new(rt.alloc(), rt.stdout())?;
    let status = match read(bytes.as_slice()) {
        Ok(image) => {
            let listing = Listing { image };
            writeln!(out, "{listing}")?;
            ExitCode::SUCCESS
        }
        Err(fault) => {
            writeln!(out, "{fault}")?;
            ExitCode::FAILURE
        }
    };
    out.flush()?;
    Ok(status)
}

fn main(rt: HostRuntime) -> io::Result<ExitCode> {
    ended(&rt, "list_image", run(&rt))
}
