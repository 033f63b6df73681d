// One port.
ghost use Rattle.std.specs.Prelude.{◌≡◌};
ghost use Rattle.banks.specs.Ports.{merged, Mixed, written, driven};

// The byte on a port's lines, and which of its bits a program can change; the others follow the outside.
#[derive(Clone, Copy, PartialEq, Eq, Debug)]
pub struct Port {
    pub byte: u8,
    pub mask: u8,
}

// The bits of the mask from `new`, the others from `old`.
pub fn merge(mask: u8, new: u8, old: u8) -> u8
    ensures value { result ≡ merged mask new old }
    ensures bits { Mixed mask new old result }
{
    old ^ ((old ^ new) & mask)
}

impl Port {
    // The writable bits become those of the value.
    pub fn write(&mut self, value: u8)
        ensures { self.new ≡ written value self.old }
    {
        self.byte = merge(self.mask, value, self.byte);
    }

    // The other bits become those of the value.
    pub fn drive(&mut self, value: u8)
        ensures { self.new ≡ driven value self.old }
    {
        self.byte = merge(self.mask, self.byte, value);
    }
}
