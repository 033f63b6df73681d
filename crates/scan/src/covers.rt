// Which bits of which bank an instruction may set.
ghost use Rattle.std.specs.Prelude.{◌≡◌};
ghost use Rattle.flow.specs.Breaches.{cover_from, field_cover, port_cover, cover as cover_of};

use effects::{field_mask, source_side, whole_port};
use instructions::{Destination, Field, Instruction, Side};

// The bits that data from the bank `origin`, or from no bank, may set in the port of a field.
fn cover_from(origin: Option<Side>, field: Field) -> u8
    ensures { result ≡ cover_from origin field }
{
    match origin {
        Some(side) if side != field.side => 255,
        _ => field_mask(field),
    }
}

fn field_cover(origin: Option<Side>, destination: Destination) -> Option<(Side, u8)>
    ensures { result ≡ field_cover origin destination }
{
    destination
        .field()
        .map(|field| (field.side, cover_from(origin, field)))
}

fn port_cover(whole: Option<Side>, destination: Destination) -> Option<(Side, u8)>
    ensures { result ≡ port_cover whole destination }
{
    whole
        .map(|side| (side, 255))
        .or(field_cover(None, destination))
}

// The bank that an instruction writes, and the bits that it may set there.
pub fn cover(instruction: Instruction) -> Option<(Side, u8)>
    ensures { result ≡ cover_of instruction }
{
    match instruction {
        Instruction::Alu {
            source,
            destination,
            ..
        } => field_cover(source_side(source), destination),
        Instruction::Xmit { destination, .. } => port_cover(whole_port(destination), destination),
        _ => None,
    }
}
