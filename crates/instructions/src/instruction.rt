// What a word can say.
ghost use Rattle.std.specs.Prelude.{◌≡◌, ◌%◌};
ghost use Rattle.instructions.specs.Classes.{operation_class, class_of, class_number, mnemonic_of};
ghost use Rattle.instructions.specs.Operands.{source_field, destination_field};

use crate::field::Field;
use crate::register::Register;

// Where data comes from. A register is rotated right by `rotate` places, a field by as much as brings its lowest bit to bit 7.
#[derive(Clone, Copy, PartialEq, Eq, Debug)]
pub enum Source {
    Register { register: Register, rotate: u8 },
    Field(Field),
}

// Where a result goes.
#[derive(Clone, Copy, PartialEq, Eq, Debug)]
pub enum Destination {
    Register(Register),
    Field(Field),
}

// What the arithmetic and logic unit does with the source and R0.
#[derive(Clone, Copy, PartialEq, Eq, Debug)]
pub enum Operation {
    Move,
    Add,
    And,
    Xor,
}

#[derive(Clone, Copy, PartialEq, Eq, Debug)]
pub enum Instruction {
    Alu {
        operation: Operation,
        source: Source,
        destination: Destination,
    },
    Xec {
        source: Source,
        offset: u8,
    },
    Nzt {
        source: Source,
        offset: u8,
    },
    Xmit {
        constant: u8,
        destination: Destination,
    },
    Jmp {
        address: u16,
    },
}

#[derive(Clone, Copy, PartialEq, Eq, Debug)]
pub enum Class {
    Move,
    Add,
    And,
    Xor,
    Xec,
    Nzt,
    Xmit,
    Jmp,
}

impl Class {
    // The number that stands for the class in a word.
    pub fn number(self) -> u8
        ensures { result ≡ class_number self }
    {
        self as u8
    }

    // The class that a number stands for, by its lowest three bits.
    pub fn of(number: u8) -> Class
        ensures { class_number result ≡ number % 8 }
    {
        match number % 8 {
            0 => Class::Move,
            1 => Class::Add,
            2 => Class::And,
            3 => Class::Xor,
            4 => Class::Xec,
            5 => Class::Nzt,
            6 => Class::Xmit,
            _ => Class::Jmp,
        }
    }

    // The name by which a listing has the class.
    pub fn mnemonic(self) -> &'static str
        ensures { result.now ≡ mnemonic_of self }
    {
        match self {
            Class::Move => "MOVE",
            Class::Add => "ADD",
            Class::And => "AND",
            Class::Xor => "XOR",
            Class::Xec => "XEC",
            Class::Nzt => "NZT",
            Class::Xmit => "XMIT",
            Class::Jmp => "JMP",
        }
    }
}

impl Source {
    // The bank field, or none of a register.
    pub fn field(self) -> Option<Field>
        ensures { result ≡ source_field self }
    {
        match self {
            Source::Register { .. } => None,
            Source::Field(field) => Some(field),
        }
    }
}

impl Destination {
    // The bank field, or none of a register.
    pub fn field(self) -> Option<Field>
        ensures { result ≡ destination_field self }
    {
        match self {
            Destination::Register(_) => None,
            Destination::Field(field) => Some(field),
        }
    }
}

impl Operation {
    fn class(self) -> Class
        ensures { result ≡ operation_class self }
    {
        match self {
            Operation::Move => Class::Move,
            Operation::Add => Class::Add,
            Operation::And => Class::And,
            Operation::Xor => Class::Xor,
        }
    }
}

impl Instruction {
    pub fn class(self) -> Class
        ensures { result ≡ class_of self }
    {
        match self {
            Instruction::Alu { operation, .. } => operation.class(),
            Instruction::Xec { .. } => Class::Xec,
            Instruction::Nzt { .. } => Class::Nzt,
            Instruction::Xmit { .. } => Class::Xmit,
            Instruction::Jmp { .. } => Class::Jmp,
        }
    }
}
