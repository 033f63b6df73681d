// What programs share: their input, which is the file at a path or standard input as far as an image may go, and how they end.
#![tactic(auto)]

ghost use Rattle.std.specs.Prelude.{◌≡◌, ◌≤◌, length, take, IfOk, IfSome};
ghost use Rattle.std.specs.Process.{exit_status};
ghost use Rattle.files.specs.Files.{most_read};
ghost use Rattle.files.specs.Endings.{status_of};

use anyhow::anyhow;
use image::MOST_BYTES;
use std::alloc::Global;
use std::fs::File;
use std::io;
use std::io::Read;
use std::process::ExitCode;

// A file that is too long for an image shows it by this many bytes.
const MOST_READ: usize = MOST_BYTES + 1;

// What a source gives: all its bytes, but of a file that is too long only as many as show that.
pub fn bytes_of<R: Read + Drop>(heap: Global, source: R) -> io::Result<Vec<u8>>
    ensures bytes { IfOk result (λ file. IfSome (R.remaining source) (λ bs. file.items ≡ take most_read bs)) }
    ensures bound { IfOk result (λ file. length file.items ≤ most_read) }
{
    let mut bytes = Vec::new(heap);
    source.take(MOST_READ as u64).read_to_end(&mut bytes)?;
    // a source may not say how much it gives
    bytes.truncate(MOST_READ);
    Ok(bytes)
}

// Not inlined, so that standard input can be read without the stack that a file takes.
#[inline(never)]
fn opened(rt: &HostRuntime, path: &str) -> io::Result<Vec<u8>>
    ensures { IfOk result (λ file. length file.items ≤ most_read) }
{
    bytes_of(rt.alloc(), File::open(rt, path)?)
}

// The bytes of a file, or a message that names it.
pub fn file_at(rt: &HostRuntime, path: &str) -> anyhow::Result<Vec<u8>>
    ensures { IfOk result (λ file. length file.items ≤ most_read) }
{
    opened(rt, path).map_err(|error| anyhow!("{path}: {error}"))
}

// The bytes of the file at the path, or of standard input if there is none.
pub fn file_or_input(rt: &HostRuntime, path: Option<&str>) -> anyhow::Result<Vec<u8>>
    ensures { IfOk result (λ file. length file.items ≤ most_read) }
{
    match path {
        Some(path) => file_at(rt, path),
        None => Ok(bytes_of(rt.alloc(), rt.stdin())?),
    }
}

// How a program ends: with its status, or with a message on standard error and status 1.
pub fn ended(rt: &HostRuntime, program: &str, ran: anyhow::Result<ExitCode>) -> io::Result<ExitCode>
    ensures { IfOk result (λ status. exit_status status ≡ status_of ran) }
{
    match ran {
        Ok(status) => Ok(status),
        Err(error) => {
            eprintln!(rt; "{program}: {error}")?;
            Ok(ExitCode::FAILURE)
        }
    }
}

#[cfg(test)]
mod tests;
