// A worked sum.
ghost use Rattle.std.specs.Prelude.{◌<◌};
ghost use Rattle.operands.specs.Bytes.{Same};
ghost use Rattle.marks.specs.Marks.{marks_has};

use crate::mark::Marks;

// 0 or 1, plus 1, is 1 or 2; but of the sum each bit is known on its own, so 0 and 3 are members too.
pub fn zero_or_one_plus_one() -> Marks
    ensures { Same (marks_has result) (λ b. b < 4) }
{
    operands::zero_or_one_plus_one()
}
