// What the lines of a script say.
use banks::Port;
use bench::Call;
use instructions::Side;

#[derive(Clone, Copy)]
pub enum Line {
    // the registers that the machine is made with
    Regs([u8; 16]),
    // a port that its bank is made with
    Port { side: Side, number: u8, port: Port },
    Call(Call),
}
