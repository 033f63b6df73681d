// A grant of a listing: bank, port and mask.
ghost use Rattle.std.specs.Prelude.{◌≡◌, if◌then◌else◌, nat_eq};
ghost use Rattle.instructions.specs.declared.field.Side.TheVariants.{Left, Right};
ghost use Rattle.listing.specs.Lines.{ListsGrant};

use instructions::Side;
use std::fmt;

#[derive(Clone, Copy)]
pub struct GrantLine {
    pub side: Side,
    pub port: u8,
    pub mask: u8,
}

// The bank of an entry: no `TryFrom`, since every entry of any grant part has a line, and each number but 0 is listed as the right bank.
fn side_of(bank: u8) -> Side
    ensures { result ≡ (if nat_eq bank 0 then Left else Right) }
{
    match bank {
        0 => Side::Left,
        _ => Side::Right,
    }
}

// The line for an entry of a grant part, or none past its last entry.
pub fn grant_at(grants: &[u8], entry: usize) -> Option<GrantLine>
    ensures { ListsGrant grants.now entry result }
{
    let (entries, _) = grants.as_chunks::<4>();
    let [bank, port, mask, _] = *entries.get(entry)?;
    Some(GrantLine {
        side: side_of(bank),
        port,
        mask,
    })
}

// Bank, port in octal, mask in binary: `grant left 005 00000011`.
impl fmt::Display for GrantLine {
    fn fmt<W: fmt::Write>(&self, f: &mut fmt::Formatter<W>) -> fmt::Result {
        let side = self.side;
        let port = self.port;
        let mask = self.mask;
        write!(f, "grant {side} {port:03o} {mask:08b}")
    }
}
