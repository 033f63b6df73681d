// The check.
ghost use Rattle.checker.specs.Judging.{Judged, Checked};

use crate::acceptance::Acceptance;
use crate::fault::CheckFault;
use growth::grow;
use image::read;
use operands::{LeastJoin, Operand, Spreading};
use scan::scan;
use words::word_count;

// Judges code by its grants: grows the least table in the lent memory and looks for breaches.
pub fn judge<K: LeastJoin>(
    code: &[u8],
    grants: &[u8],
    operands: &mut [K],
    status: &mut [u8],
) -> Result<Acceptance, CheckFault>
    ensures { Judged K.Operand.operations code.now grants.now status.old operands.old status.new operands.new result }
{
    let words = word_count(code);
    let reached = grow(code, operands, status).ok_or(CheckFault::Memory)?;
    scan(code, grants, operands, status)?;
    Ok(Acceptance { words, reached })
}

// Judges a file. Sixteen operands and one status byte for each word are lent; a table that is left there is the least one.
pub fn check<K: LeastJoin>(
    file: &[u8],
    operands: &mut [K],
    status: &mut [u8],
) -> Result<Acceptance, CheckFault>
    ensures { Checked K.Operand.operations file.now status.old operands.old status.new operands.new result }
{
    let image = read(file)?;
    judge(image.code.bytes(), image.grants.bytes(), operands, status)
}
