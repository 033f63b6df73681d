// Plays a script of calls, read from standard input, on the code of the image file at the path that is given.
// Each call prints a line. A refused file prints its fault, as `file 4 at 8`, and ends with status 1.
// A wrong line of the script ends it with a message and status 1; the calls before it have printed their lines.
#![tactic(auto)]

use anyhow::anyhow;
use files::{ended, file_at};
use image::read;
use scripts::play;
use std::io::{BufWriter, Read, Write};
use std::process::ExitCode;
use std::{env, io};

fn image_path(rt: &HostRuntime) -> anyhow::Result<String> {
    let mut args = env::args(rt)?;
    let _program = args.next();
    let path = args.next();
    let more = args.next();
    match (path, more) {
        (Some(path), None) => Ok(path),
        _ => Err(anyhow!("usage: run_script IMAGE, with the script on standard input")),
    }
}

// Bytes that are no text become marks, so that their line is refused by its number.
fn script_on_input(rt: &HostRuntime) -> io::Result<String> {
    let mut bytes = Vec::new(rt.alloc());
    rt.stdin().read_to_end(&mut bytes)?;
    Ok(String::from_utf8_lossy(rt.alloc(), bytes.as_slice())?)
}

fn play_input(rt: &HostRuntime, code: &[u8]) -> anyhow::Result<()> {
    let script = script_on_input(rt)?;
    let mut out = BufWriter::new(rt.alloc(), rt.stdout())?;
    let played = play(script.as_str(), code, &mut out);
    out.flush()?;
    played.map_err(|fault| anyhow!("{fault}"))
}

fn run(rt: &HostRuntime) -> anyhow::Result<ExitCode> {
    let path = image_path(rt)?;
    let file = file_at(rt, path.as_str())?;
    match read(file.as_slice()) {
        Ok(image) => {
            play_input(rt, image.code.bytes())?;
            Ok(ExitCode::SUCCESS)
        }
        Err(fault) => {
            println!(rt; "{fault}")?;
            Ok(ExitCode::FAILURE)
        }
    }
}

fn main(rt: HostRuntime) -> io::Result<ExitCode> {
    ended(&rt, "run_script", run(&rt))
}
