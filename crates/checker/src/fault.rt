// Why an image is not accepted.
ghost use Rattle.std.specs.Prelude.{◌≡◌, Some};
ghost use Rattle.checker.specs.Faults.{breach_number, reported, fault_text};
ghost use Rattle.checker.specs.Passing.{passed, scan_passed};

use faults::{Fault, write_report};
use flow::Breach;
use image::FileFault;
use scan::ScanFault;
use std::fmt;

#[derive(Clone, Copy, PartialEq, Eq, Debug)]
pub enum CheckFault {
    // the reader refuses the file
    File(FileFault),
    // the memory is too short for a table of the code
    Memory,
    // the table shows a breach; the lowest address that has one, and there the first
    Breach { breach: Breach, address: u16 },
}

fn breach_number(breach: Breach) -> u8
    ensures { result ≡ breach_number breach }
{
    match breach {
        Breach::NotPermitted => 11,
        Breach::Outside => 12,
        Breach::Chain => 13,
        Breach::Unready => 14,
        Breach::Withheld => 15,
    }
}

impl Fault for CheckFault {
    // a byte of the file, or the address of a word
    type Place = usize;

    ghost reported = { reported };

    fn report(self) -> (u8, usize) {
        match self {
            CheckFault::File(fault) => fault.report(),
            CheckFault::Memory => (10, 0),
            CheckFault::Breach { breach, address } => (breach_number(breach), address as usize),
        }
    }
}

// A fault of the file passes through the check whole.
impl From<FileFault> for CheckFault {
    ghost from_gives = { λ f r. r ≡ passed f };

    fn from(fault: FileFault) -> CheckFault {
        CheckFault::File(fault)
    }
}

// So does what a scan finds.
impl From<ScanFault> for CheckFault {
    ghost from_gives = { λ f r. r ≡ scan_passed f };

    fn from(fault: ScanFault) -> CheckFault {
        match fault {
            ScanFault::Memory => CheckFault::Memory,
            ScanFault::Breach { breach, address } => CheckFault::Breach { breach, address },
        }
    }
}

// Layer, number and place, as `check 15 at 1` or `file 4 at 8`.
impl fmt::Display for CheckFault {
    ghost output = { λ f. Some (fault_text f) };

    fn fmt<W: fmt::Write>(&self, f: &mut fmt::Formatter<W>) -> fmt::Result {
        match self {
            CheckFault::File(fault) => write!(f, "{fault}"),
            _ => write_report(f, "check", self.report()),
        }
    }
}
