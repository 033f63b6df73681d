// Which banks an instruction selects and uses.
ghost use Rattle.std.specs.Prelude.{◌≡◌};
ghost use Rattle.effects.specs.Usage.{selector as selector_of, select_side, source_side, destination_side, transmit_side, whole_port, transmitted_side, is_side, uses as uses_of};

use instructions::{Destination, Instruction, Register, Side, Source};

// The bank that a source reads. A match, here and for a destination: by `field` and `map` a cycle takes six machine instructions more.
pub fn source_side(source: Source) -> Option<Side>
    ensures { result ≡ source_side source }
{
    match source {
        Source::Register { .. } => None,
        Source::Field(field) => Some(field.side),
    }
}

// The register that holds the number of a bank's selected port.
pub fn selector(side: Side) -> Register
    ensures { result ≡ selector_of side }
{
    match side {
        Side::Left => Register::R7,
        Side::Right => Register::R17,
    }
}

// The bank whose port a store into a register selects.
pub fn select_side(register: Register) -> Option<Side>
    ensures { result ≡ select_side register }
{
    match register {
        Register::R7 => Some(Side::Left),
        Register::R17 => Some(Side::Right),
        _ => None,
    }
}

// The bank that a transmit to a register writes: R12 stands for the left one, R13 for the right one.
// A match of its own, as `select_side` is: a helper that takes the two registers would only hide them from the arms.
pub fn transmit_side(register: Register) -> Option<Side>
    ensures { result ≡ transmit_side register }
{
    match register {
        Register::R12 => Some(Side::Left),
        Register::R13 => Some(Side::Right),
        _ => None,
    }
}

// The bank whose whole port a transmit writes: only a register may stand for one.
pub fn whole_port(destination: Destination) -> Option<Side>
    ensures { result ≡ whole_port destination }
{
    match destination {
        Destination::Register(register) => transmit_side(register),
        Destination::Field(_) => None,
    }
}

fn destination_side(destination: Destination) -> Option<Side>
    ensures { result ≡ destination_side destination }
{
    match destination {
        Destination::Register(_) => None,
        Destination::Field(field) => Some(field.side),
    }
}

fn transmitted_side(destination: Destination) -> Option<Side>
    ensures { result ≡ transmitted_side destination }
{
    whole_port(destination).or(destination_side(destination))
}

// Whether `used` is the bank `side`.
pub fn is_side(side: Side, used: Option<Side>) -> bool
    ensures { result ≡ is_side side used }
{
    used == Some(side)
}

// Whether an instruction reads or writes a bank.
pub fn uses(instruction: Instruction, side: Side) -> bool
    ensures { result ≡ uses_of instruction side }
{
    match instruction {
        Instruction::Alu {
            source,
            destination,
            ..
        } => { is_side(side, source_side(source)) || is_side(side, destination_side(destination)) }
        Instruction::Xec { source, .. } | Instruction::Nzt { source, .. } => {
            is_side(side, source_side(source))
        }
        Instruction::Xmit { destination, .. } => is_side(side, transmitted_side(destination)),
        Instruction::Jmp { .. } => false,
    }
}
