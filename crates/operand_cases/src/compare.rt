// Comparing the answers of a kind.
use crate::brute::{
    Members, carry, image_of_one, image_of_two, is_inside, kept, members_where, rotated, sum,
    union_of,
};
use operands::{Operand, Spreading};
use std::fmt;

fn members<K: Operand>(x: K) -> Members {
    members_where(|b| x.contains(b))
}

#[derive(Clone, Copy, Default)]
pub(crate) struct Comparison {
    answers: u64,
    differ: u64,
}

// What an answer should have is made from what the members give by `expected`.
impl Comparison {
    fn note<K: Operand>(&mut self, answer: K, expected: Members) {
        self.answers = self.answers.saturating_add(1);
        if members(answer) != expected {
            self.differ = self.differ.saturating_add(1);
        }
    }

    fn compare_one<K: Operand, E: Fn(Members) -> Members + Copy>(&mut self, x: K, expected: E)
        requires { E.IsAlwaysCallable expected }
    {
        let has = members(x);
        for count in 0..17u8 {
            let rotated = image_of_one(|b| rotated(b, count), &has);
            self.note(x.rotate_right(count), expected(rotated));
            let kept = image_of_one(|b| kept(b, count), &has);
            self.note(x.keep_lowest(count), expected(kept));
        }
    }

    fn compare_two<K: Operand, E: Fn(Members) -> Members + Copy>(&mut self, x: K, y: K, expected: E)
        requires { E.IsAlwaysCallable expected }
    {
        let left = members(x);
        let right = members(y);
        let (total, over) = x.add(y);
        let both = image_of_two(|a, b| a & b, &left, &right);
        self.note(x.and(y), expected(both));
        let either = image_of_two(|a, b| a ^ b, &left, &right);
        self.note(x.xor(y), expected(either));
        let sums = image_of_two(sum, &left, &right);
        self.note(total, expected(sums));
        let carries = image_of_two(carry, &left, &right);
        self.note(over, expected(carries));
    }

    // A join has both, and tells whether it has more than the first; its rank then rises.
    pub(crate) fn compare_join<K: Spreading, E: Fn(Members) -> Members + Copy>(
        &mut self,
        x: K,
        y: K,
        expected: E,
    )
        requires { E.IsAlwaysCallable expected }
    {
        let first = members(x);
        let (joined, added) = x.join(y);
        let both = expected(union_of(&first, &members(y)));
        if added == is_inside(&both, &first) {
            self.differ = self.differ.saturating_add(1);
        }
        self.note(joined, both);
    }

    pub(crate) fn compare<K: Operand, E: Fn(Members) -> Members + Copy>(
        &mut self,
        x: K,
        y: K,
        expected: E,
    )
        requires { E.IsAlwaysCallable expected }
    {
        self.compare_one(x, expected);
        self.compare_two(x, y, expected);
    }
}

impl fmt::Display for Comparison {
    fn fmt<W: fmt::Write>(&self, f: &mut fmt::Formatter<W>) -> fmt::Result {
        let answers = self.answers;
        let differ = self.differ;
        write!(f, "{answers} answers, {differ} differ")
    }
}
