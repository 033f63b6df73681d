// What a bank of ports is.
ghost use Rattle.std.specs.Prelude.{◌≡◌, length};
ghost use Rattle.banks.specs.Ports.{Ports, port_at, written_at, driven_at, Merges};

pub trait Bank {
    // the byte and the mask of each port
    ghost ports: { Self → Ports };

    fn read(&self, port: u8) -> u8
        ensures { result ≡ (port_at (ports self.now) port).byte };

    // The writable bits of the port become those of the value.
    fn write(&mut self, port: u8, value: u8)
        ensures written { ports self.new ≡ written_at port value (ports self.old) }
        ensures merged { Merges port value (port_at (ports self.old) port).byte (ports self.old) (ports self.new) };

    // The other bits of the port become those of the value.
    fn drive(&mut self, port: u8, value: u8)
        ensures driven { ports self.new ≡ driven_at port value (ports self.old) }
        ensures merged { Merges port (port_at (ports self.old) port).byte value (ports self.old) (ports self.new) };

    ghost full: { (b : Self) → length (ports b) ≡ 256 };
}
