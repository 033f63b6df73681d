// Joins of marks, and how often marks can grow.
ghost use Rattle.marks.specs.Marks.{marks_rank, marks_joined, count_le};
ghost use Rattle.marks.specs.Least.{joined_least};

use crate::mark::Marks;
use operands::{LeastJoin, Operand, Spreading};

impl Spreading for Marks {
    // eight bits, each of which may be 0 and may be 1
    const MAX_RANK: usize = 16;

    ghost MAX_RANK = { 16 };

    ghost rank = { marks_rank };

    ghost joined = { marks_joined };

    ghost bounded = { λ x. count_le x.low x.high 8 };

    fn all() -> Marks {
        Marks { low: 0, high: 255 }
    }

    // An end differs where a member was added.
    fn join(self, other: Marks) -> (Marks, bool) {
        let joined = Marks {
            low: self.low & other.low,
            high: self.high | other.high,
        };
        (joined, joined != self)
    }
}

impl LeastJoin for Marks {
    ghost least = { joined_least };
}
