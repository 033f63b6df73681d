// Where the parts of a file lie, by its header.
ghost use Rattle.std.specs.Prelude.{◌≡◌, ◌+◌, ◌<◌, ◌≤◌, ◌⊎◌, ◌^◌, length, take, drop, MatchOption};
ghost use Rattle.image.specs.Reading.{Laid, IsHeader};

use crate::fault::FileFault;
use crate::part::{Image, Part};
use words::MOST_WORDS;

const HEADER_BYTES: usize = 20;

// The largest number of bytes of an image file.
pub const MOST_BYTES: usize = 32_768;

const FORMAT: u32 = 1;

const MOST_GRANTS: usize = 512;

// The five numbers of the header, each with its most significant byte first, or none where the file is shorter.
fn header_of(file: &[u8]) -> Option<[u32; 5]>
    ensures { MatchOption result (length file.now < 20) (λ header. IsHeader file.now header) }
{
    let (numbers, _) = file.as_chunks::<4>();
    let [format, words, code, grants, grant_start, ..] = *numbers else {
        return None;
    };
    Some([
        u32::from_be_bytes(format),
        u32::from_be_bytes(words),
        u32::from_be_bytes(code),
        u32::from_be_bytes(grants),
        u32::from_be_bytes(grant_start),
    ])
}

// So many bytes of a file from a place on, or none where they begin inside the header or end after the file.
fn bytes_at<'a>(file: &'a [u8], start: usize, size: usize) -> Option<&'a [u8]>
    requires { start + size < 2 ^ 64 }
    ensures { MatchOption result ((start < 20) ⊎ (length file.now < start + size)) (λ bytes. (20 ≤ start) × (start + size ≤ length file.now) × (bytes.now ≡ take size (drop start file.now)) × (length bytes.now ≡ size)) }
{
    if start < HEADER_BYTES {
        return None;
    }
    file.get(start..start + size)
}

// The parts of a file where its header says, or the first fault of the header.
pub(crate) fn layout_of<'a>(file: &'a [u8]) -> Result<Image<'a>, FileFault>
    ensures { Laid file.now result }
{
    let [format, words, code_start, entries, grant_start] = header_of(file).ok_or(FileFault::Size)?;
    if file.len() > MOST_BYTES {
        return Err(FileFault::Size);
    }
    if format != FORMAT {
        return Err(FileFault::Format);
    }
    let words = words as usize;
    if words == 0 || words > MOST_WORDS {
        return Err(FileFault::WordCount);
    }
    let code_start = code_start as usize;
    let code = bytes_at(file, code_start, 2 * words).ok_or(FileFault::CodePlace)?;
    let entries = entries as usize;
    if entries > MOST_GRANTS {
        return Err(FileFault::GrantCount);
    }
    let grant_start = grant_start as usize;
    let grants = bytes_at(file, grant_start, 4 * entries).ok_or(FileFault::GrantPlace)?;
    if entries > 0
        && code_start < grant_start + grants.len()
        && grant_start < code_start + code.len()
    {
        return Err(FileFault::Overlap);
    }
    Ok(Image {
        code: Part::Code {
            bytes: code,
            place: code_start,
        },
        grants: Part::Grants {
            bytes: grants,
            place: grant_start,
        },
    })
}
