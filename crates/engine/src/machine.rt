// What a machine holds.
ghost use Rattle.std.specs.Prelude.{◌≡◌, ◌<◌, length};

#[derive(Clone, Copy)]
pub struct Machine {
    // R0 to R17, by their numbers
    pub registers: [u8; 16],
    // the program counter
    pub pc: u16,
    // the address register: where the next word stands
    pub ar: u16,
    // whether a port of the bank has been selected
    pub left_ready: bool,
    pub right_ready: bool,
    ghost sixteen: { length registers ≡ 16 },
    ghost counted: { pc < 8192 },
    ghost addressed: { ar < 8192 },
}
