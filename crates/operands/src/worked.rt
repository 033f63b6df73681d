// A worked sum, in any kind.
ghost use Rattle.operands.specs.Worked.{OneAddedToEither};

use crate::operand::Spreading;

// 0 or 1, plus 1.
pub fn zero_or_one_plus_one<K: Spreading>() -> K
    ensures { OneAddedToEither K.operations K.joined result }
{
    let zero = K::constant(0);
    let one = K::constant(1);
    let (either, _) = zero.join(one);
    let (sum, _) = either.add(one);
    sum
}
