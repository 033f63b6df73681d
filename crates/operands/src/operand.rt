// Kinds of operands.
ghost use Rattle.std.specs.Prelude.{◌≡◌, ℕ, ◌<◌, ◌≤◌, Bool, true, false, Decides};
ghost use Rattle.operands.specs.Bytes.{Bytes, Inside, Same, Only, Every};
ghost use Rattle.operands.specs.Bytes.One.{rotate as rotate_by, keep as keep_bits};
ghost use Rattle.operands.specs.Bytes.Two.{and as and_of, xor as xor_of, sum as sum_of, carry as carry_of};
ghost use Rattle.operands.specs.Operations.{Operations, Lawful};

// Stands for a set of bytes, its members, which is never empty.
pub trait Operand: Copy {
    // which bytes are members, and what each operation gives
    ghost operations: { Operations Self };

    ghost lawful: { Lawful operations };

    // The operand whose only member is `b`.
    fn constant(b: u8) -> Self
        ensures { Same (operations.has result) (Only b) };

    // Each member rotated right by `by` places, modulo 8.
    fn rotate_right(self, by: u8) -> Self
        ensures { Same (operations.has result) (operations.ones (rotate_by by) (operations.has self)) };

    // The lowest `bits` bits of each member, modulo 8, and all eight at 0.
    fn keep_lowest(self, bits: u8) -> Self
        ensures { Same (operations.has result) (operations.ones (keep_bits bits) (operations.has self)) };

    fn and(self, other: Self) -> Self
        ensures { Same (operations.has result) (operations.twos and_of (operations.has self) (operations.has other)) };

    fn xor(self, other: Self) -> Self
        ensures { Same (operations.has result) (operations.twos xor_of (operations.has self) (operations.has other)) };

    // The sums modulo 256, and the carries.
    fn add(self, other: Self) -> (Self, Self)
        ensures sums { Same (operations.has result.0) (operations.twos sum_of (operations.has self) (operations.has other)) }
        ensures carries { Same (operations.has result.1) (operations.twos carry_of (operations.has self) (operations.has other)) };

    fn contains(self, b: u8) -> bool
        ensures { Decides result (operations.has self b) };
}

// A kind in which a table can grow.
pub trait Spreading: Operand {
    // the largest rank
    const MAX_RANK: usize;

    ghost MAX_RANK: { ℕ };

    ghost rank: { Self → ℕ };

    // which bytes a join has
    ghost joined: { Self → Self → Bytes };

    fn all() -> Self
        ensures { Same (Self.Operand.operations.has result) Every };

    // An operand that contains both, and whether it has a member that the first lacks. A pair and no Option, since the join is
    // wanted also where it adds nothing.
    fn join(self, other: Self) -> (Self, bool)
        ensures members { Same (Self.Operand.operations.has result.0) (joined self other) }
        ensures first { Inside (Self.Operand.operations.has self) (joined self other) }
        ensures second { Inside (Self.Operand.operations.has other) (joined self other) }
        ensures added { Decides result.1 ((b : ℕ) × (joined self other b × (Self.Operand.operations.has self b → ⊥))) }
        ensures rests { result.1 ≡ false → Inside (joined self other) (Self.Operand.operations.has self) }
        ensures rises { result.1 ≡ true → rank self < rank result.0 };

    ghost bounded: { (x : Self) → rank x ≤ MAX_RANK };
}

// A kind whose join lies inside every operand that contains both.
pub trait LeastJoin: Spreading {
    ghost least: { (x y u : Self) → Inside (Self.Operand.operations.has x) (Self.Operand.operations.has u) → Inside (Self.Operand.operations.has y) (Self.Operand.operations.has u) → Inside (Self.Spreading.joined x y) (Self.Operand.operations.has u) };
}
