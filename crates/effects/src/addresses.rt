// Where the next word stands.
ghost use Rattle.std.specs.Prelude.{◌≡◌, ◌+◌, ◌*◌, ◌%◌};
ghost use Rattle.effects.specs.Addresses.{next_address, page_size, in_page};

use instructions::Source;

// The address after `address`; after 8,191 comes 0.
pub fn next_address(address: u16) -> u16
    ensures { result ≡ next_address address }
{
    address.wrapping_add(1) % 8_192
}

// How many addresses NZT and XEC reach by a source.
pub fn page_size(source: Source) -> u16
    ensures { result ≡ page_size source }
{
    match source {
        Source::Register { .. } => 256,
        Source::Field(_) => 32,
    }
}

// `address` with its page kept and `value` in place of its part within the page of the source.
pub fn in_page(source: Source, address: u16, value: u16) -> u16
    ensures { result ≡ in_page (page_size source) address value }
{
    let size = page_size(source);
    address / size * size + value % size
}
