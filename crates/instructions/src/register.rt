// The sixteen registers, by their octal names.
ghost use Rattle.std.specs.Prelude.{◌≡◌, ◌<◌};
ghost use Rattle.instructions.specs.Registers.{number_of, register_of};

#[derive(Clone, Copy, PartialEq, Eq, Debug)]
pub enum Register {
    R0,
    R1,
    R2,
    R3,
    R4,
    R5,
    R6,
    R7,
    R10,
    R11,
    R12,
    R13,
    R14,
    R15,
    R16,
    R17,
}

impl Register {
    // The number that stands for the register in a word; `u8::from` would not say which number.
    pub fn number(self) -> u8
        ensures value { result ≡ number_of self }
        ensures bound { result < 16 }
    {
        self as u8
    }

    // The register that a number stands for, by its lowest four bits.
    pub fn of(number: u8) -> Register
        ensures { result ≡ register_of number }
    {
        match number % 16 {
            0 => Register::R0,
            1 => Register::R1,
            2 => Register::R2,
            3 => Register::R3,
            4 => Register::R4,
            5 => Register::R5,
            6 => Register::R6,
            7 => Register::R7,
            8 => Register::R10,
            9 => Register::R11,
            10 => Register::R12,
            11 => Register::R13,
            12 => Register::R14,
            13 => Register::R15,
            14 => Register::R16,
            _ => Register::R17,
        }
    }
}
