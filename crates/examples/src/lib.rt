// Worked examples: what the definitions say of single words, fields and sums.
#![tactic(auto)]

ghost use Rattle.std.specs.Prelude.{◌<◌};
ghost use Rattle.operands.specs.Bytes.{Same};
ghost use Rattle.marks.specs.Marks.{marks_has};
ghost use Rattle.sets.specs.Sets.{set_has, OneOrTwo};
ghost use Rattle.examples.specs.Worked.{WorkedExamples};

use marks::Marks;
use sets::Set;

// The examples hold. Answers 0 or 1, plus 1, as marks and as a set.
pub fn worked_examples() -> (Marks, Set)
    ensures words { WorkedExamples }
    ensures marks { Same (marks_has result.0) (λ b. b < 4) }
    ensures set { Same (set_has result.1) OneOrTwo }
{
    (marks::zero_or_one_plus_one(), sets::zero_or_one_plus_one())
}

#[cfg(test)]
mod tests;
