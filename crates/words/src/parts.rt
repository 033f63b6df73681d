// The parts of a word beside its class, and what they mean.
ghost use Rattle.std.specs.Prelude.{◌≡◌, ◌<◌};
ghost use Rattle.words.specs.Fields.{side_of, length_of, field_of};
ghost use Rattle.words.specs.Words.{part_s, part_l, part_d, source_of, destination_of, constant_of, operation_of, alu_of, xec_of, xmit_of, meaning_of};
ghost use Rattle.instructions.specs.Classes.{class_number};

use instructions::{Class, Destination, Field, Instruction, Operation, Register, Side, Source};

// Bits 3-7, 8-10 and 11-15.
#[derive(Clone, Copy)]
pub(crate) struct Parts {
    s: u8,
    l: u8,
    d: u8,
    ghost five: { s < 32 },
    ghost three: { l < 8 },
    ghost last: { d < 32 },
}

fn length_at(code: u8) -> u8
    ensures { result ≡ length_of code }
{
    match code {
        0 => 8,
        _ => code,
    }
}

fn side_at(number: u8) -> Side
    ensures { result ≡ side_of number }
{
    if number < 24 { Side::Left } else { Side::Right }
}

fn field_at(number: u8, code: u8) -> Field
    ensures { result ≡ field_of number code }
{
    Field {
        side: side_at(number),
        bit: number % 8,
        length: length_at(code % 8),
    }
}

fn source_at(s: u8, rotate: u8, l: u8) -> Source
    ensures { result ≡ source_of s rotate l }
{
    if s < 16 {
        Source::Register {
            register: Register::of(s),
            rotate,
        }
    } else {
        Source::Field(field_at(s, l))
    }
}

fn destination_at(d: u8, l: u8) -> Destination
    ensures { result ≡ destination_of d l }
{
    if d < 16 {
        Destination::Register(Register::of(d))
    } else {
        Destination::Field(field_at(d, l))
    }
}

fn operation_at(class: Class) -> Operation
    ensures { result ≡ operation_of (class_number class) }
{
    match class {
        Class::Move => Operation::Move,
        Class::Add => Operation::Add,
        Class::And => Operation::And,
        _ => Operation::Xor,
    }
}

impl Parts {
    pub(crate) fn of(word: u16) -> Parts
        ensures s { result.s ≡ part_s word }
        ensures l { result.l ≡ part_l word }
        ensures d { result.d ≡ part_d word }
    {
        Parts {
            s: ((word >> 8) & 31) as u8,
            l: ((word >> 5) & 7) as u8,
            d: (word & 31) as u8,
        }
    }

    fn constant(self) -> u8
        ensures { result ≡ constant_of self.s self.l self.d }
    {
        if self.s < 16 {
            self.l * 32 + self.d
        } else {
            self.d
        }
    }

    fn alu(self, class: Class) -> Option<Instruction>
        ensures { result ≡ alu_of (class_number class) self.s self.l self.d }
    {
        let Parts { s, l, d } = self;
        if d == 8 {
            return None;
        }
        let rotate = if d < 16 { l } else { 0 };
        let source = source_at(s, rotate, l);
        Some(Instruction::Alu {
            operation: operation_at(class),
            source,
            destination: destination_at(d, l),
        })
    }

    fn xec(self) -> Option<Instruction>
        ensures { result ≡ xec_of self.s self.l self.d }
    {
        let Parts { s, l, .. } = self;
        if s >= 16 && (l == 0 || l > 5) {
            return None;
        }
        Some(Instruction::Xec {
            source: source_at(s, 0, l),
            offset: self.constant(),
        })
    }

    fn xmit(self) -> Option<Instruction>
        ensures { result ≡ xmit_of self.s self.l self.d }
    {
        if self.s == 8 {
            return None;
        }
        Some(Instruction::Xmit {
            constant: self.constant(),
            destination: destination_at(self.s, self.l),
        })
    }

    // The instruction of a class with these parts, or none where the word is not permitted.
    #[tactic(auto, unfolding(crate::specs::Words::meaning_of))]
    pub(crate) fn instruction(self, class: Class) -> Option<Instruction>
        ensures { result ≡ meaning_of (class_number class) self.s self.l self.d }
    {
        match class {
            Class::Move | Class::Add | Class::And | Class::Xor => self.alu(class),
            Class::Xec => self.xec(),
            Class::Nzt => Some(Instruction::Nzt {
                source: source_at(self.s, 0, self.l),
                offset: self.constant(),
            }),
            Class::Xmit => self.xmit(),
            Class::Jmp => Some(Instruction::Jmp {
                address: self.s as u16 * 256 + self.l as u16 * 32 + self.d as u16,
            }),
        }
    }
}
