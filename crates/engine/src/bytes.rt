// The arithmetic and logic unit on bytes.
ghost use Rattle.std.specs.Prelude.{◌≡◌};
ghost use Rattle.operands.specs.Bytes.{one};
ghost use Rattle.operands.specs.Bytes.One.{rotate as rotate_by};
ghost use Rattle.effects.specs.Arithmetic.{field_byte, result_byte, carry_byte};

use effects::{field_value, result};
use instructions::{Field, Operation};
use operands::{Byte, Operand};

pub(crate) fn rotated(byte: u8, by: u8) -> u8
    ensures { result ≡ one (rotate_by by) byte }
{
    Byte::constant(byte).rotate_right(by).value
}

// What a field reads from the byte of its port.
pub(crate) fn field_byte(byte: u8, field: Field) -> u8
    ensures { result ≡ field_byte field byte }
{
    field_value(Byte::constant(byte), field).value
}

// The result of an operation, and the carry of ADD.
pub(crate) fn compute(operation: Operation, source: u8, r0: u8) -> (u8, Option<u8>)
    ensures { (result.0 ≡ result_byte operation source r0) × (result.1 ≡ carry_byte operation source r0) }
{
    let (sum, carry) = result(operation, Byte::constant(source), Byte::constant(r0));
    (sum.value, carry.map(|carry| carry.value))
}
