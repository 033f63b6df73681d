// The masks of all ports, read once.
ghost use Rattle.std.specs.Prelude.{◌≡◌, ℕ, ◌<◌, slice_index};
ghost use Rattle.instructions.specs.declared.field.Side.TheVariants.{Left, Right};
ghost use Rattle.image.specs.Grants.{mask_of};

use image::mask;
use instructions::Side;
use std::array;

// Grants, and for each port of a bank the bits that a program may change by them.
#[derive(Drop)]
pub(crate) struct Masks<'a> {
    pub grants: &'a [u8],
    left: [u8; 256],
    right: [u8; 256],
    ghost of_left: { (k : ℕ) → k < 256 → slice_index left k ≡ mask_of grants.now Left k },
    ghost of_right: { (k : ℕ) → k < 256 → slice_index right k ≡ mask_of grants.now Right k },
}

fn bank_masks(grants: &[u8], side: Side) -> [u8; 256]
    ensures { (k : ℕ) → k < 256 → slice_index result k ≡ mask_of grants.now side k }
{
    array::from_fn(|port| mask(grants, side, port as u8))
}

impl<'a> Masks<'a> {
    pub(crate) fn read(grants: &'a [u8]) -> Masks<'a>
        ensures { result.grants.now ≡ grants.now }
    {
        Masks {
            grants,
            left: bank_masks(grants, Side::Left),
            right: bank_masks(grants, Side::Right),
        }
    }

    pub(crate) fn granted(&self, side: Side, port: usize) -> u8
        requires { port < 256 }
        ensures { result ≡ mask_of self.now.grants.now side port }
    {
        match side {
            Side::Left => self.left[port],
            Side::Right => self.right[port],
        }
    }
}
