// How a refusal is reported.
ghost use Rattle.std.specs.Prelude.{◌≡◌, ℕ};

// Why a layer refuses: the number of the reason, which no other layer has, and where.
pub trait Fault: Copy {
    // a byte of the file or an address
    type Place: Copy;

    // number and place of a fault
    ghost reported: { Self → ℕ × Self.Place };

    fn report(self) -> (u8, Self::Place)
        ensures { result ≡ reported self };

    fn number(self) -> u8
        ensures { result ≡ (reported self).0 }
    {
        self.report().0
    }

    fn place(self) -> Self::Place
        ensures { result ≡ (reported self).1 }
    {
        self.report().1
    }
}
