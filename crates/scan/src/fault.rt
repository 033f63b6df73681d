// Why a scan does not pass a table.
use flow::Breach;

#[derive(Clone, Copy, PartialEq, Eq, Debug)]
pub enum ScanFault {
    // the memory is too short for the table of the code
    Memory,
    // the lowest address whose entry has a breach, and the first breach there
    Breach { breach: Breach, address: u16 },
}
