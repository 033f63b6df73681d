// Which bits of a port a field covers.
ghost use Rattle.std.specs.Prelude.{◌≡◌, ◌-◌, ◌/◌, ◌^◌, ◌<◌, ◌≤◌};
ghost use Rattle.effects.specs.Fields.{raised_by, field_mask};

use instructions::Field;

// How many places a field's lowest bit is above the port's.
pub(crate) fn height(field: Field) -> u8
    ensures { result ≡ 7 - field.bit }
{
    7 - field.bit
}

// A value moved from the port's lowest bits up to where the field stands.
pub fn raised(value: u8, field: Field) -> u8
    ensures { result ≡ raised_by (7 - field.bit) value }
{
    value << height(field)
}

fn ones(length: u8) -> u8
    requires { (0 < length) × (length ≤ 8) }
    ensures { result ≡ 255 / 2 ^ (8 - length) }
{
    255 >> (8 - length)
}

// Ones in the bits of the field.
pub fn field_mask(field: Field) -> u8
    ensures { result ≡ field_mask field }
{
    raised(ones(field.length), field)
}
