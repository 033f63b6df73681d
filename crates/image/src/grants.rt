// What the grants let a program change.
ghost use Rattle.std.specs.Prelude.{◌≡◌};
ghost use Rattle.image.specs.Grants.{bank_number, mask_of, IsMask};

use instructions::Side;

// The number by which an entry names a bank: the format fixes it, not the order of the cases of `Side`.
fn bank_number(side: Side) -> u8
    ensures { result ≡ bank_number side }
{
    match side {
        Side::Left => 0,
        Side::Right => 1,
    }
}

// The mask of a port: a bit of 1 may be changed. A port without an entry has mask 0; of several entries for one port the last counts.
pub fn mask(grants: &[u8], side: Side, port: u8) -> u8
    ensures value { result ≡ mask_of grants.now side port }
    ensures entry { IsMask grants.now side port result }
{
    let bank = bank_number(side);
    let (entries, _) = grants.as_chunks::<4>();
    let mut found = 0;
    for &[its_bank, its_port, mask, _] in entries {
        if its_bank == bank && its_port == port {
            found = mask;
        }
    }
    found
}
