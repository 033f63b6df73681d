// Checksums of banks: FNV-1a of 64 bits.
ghost use Rattle.std.specs.Prelude.{◌≡◌};
ghost use Rattle.bench.specs.Checksums.{mixed_with, checksum_of, port_bytes};

use banks::{Bank, PortBank};

// What the checksum of no bytes is.
const OFFSET_BASIS: u64 = 0xcbf2_9ce4_8422_2325;

const PRIME: u64 = 0x0100_0000_01b3;

fn mixed(hash: u64, byte: u8) -> u64
    ensures { result ≡ mixed_with hash byte }
{
    (hash ^ byte as u64).wrapping_mul(PRIME)
}

// The checksum of the 256 bytes of a bank, in the order of the ports.
pub fn bank_checksum(bank: &PortBank) -> u64
    ensures { result ≡ checksum_of (port_bytes bank.now.ports) }
{
    (0..=255u8).fold(OFFSET_BASIS, |hash, port| mixed(hash, bank.read(port)))
}
