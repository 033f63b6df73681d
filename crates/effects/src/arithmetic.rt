// What the arithmetic and logic unit gives, over any kind of operands.
ghost use Rattle.operands.specs.Bytes.{Same};
ghost use Rattle.effects.specs.Arithmetic.{field_bytes, result_bytes, Carried};

use crate::fields::height;
use instructions::{Field, Operation};
use operands::Operand;

// What a field reads from the byte of its port.
pub fn field_value<K: Operand>(byte: K, field: Field) -> K
    ensures { Same (K.Operand.operations.has result) (field_bytes K.Operand.operations field (K.Operand.operations.has byte)) }
{
    byte.rotate_right(height(field)).keep_lowest(field.length)
}

// The result of an operation, and the carry where it has one.
pub fn result<K: Operand>(operation: Operation, source: K, r0: K) -> (K, Option<K>)
    ensures value { Same (K.Operand.operations.has result.0) (result_bytes K.Operand.operations operation (K.Operand.operations.has source) (K.Operand.operations.has r0)) }
    ensures carry { Carried K.Operand.operations operation (K.Operand.operations.has source) (K.Operand.operations.has r0) result.1 }
{
    match operation {
        Operation::Move => (source, None),
        Operation::Add => {
            let (sum, carry) = source.add(r0);
            (sum, Some(carry))
        }
        Operation::And => (source.and(r0), None),
        Operation::Xor => (source.xor(r0), None),
    }
}
