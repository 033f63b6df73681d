// A worked sum.
ghost use Rattle.operands.specs.Bytes.{Same};
ghost use Rattle.sets.specs.Sets.{set_has, OneOrTwo};

use crate::set::Set;

// 0 or 1, plus 1, is 1 or 2.
pub fn zero_or_one_plus_one() -> Set
    ensures { Same (set_has result) OneOrTwo }
{
    operands::zero_or_one_plus_one()
}
