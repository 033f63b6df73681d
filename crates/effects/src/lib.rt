// What an instruction does, as far as engine and check share it: arithmetic over any kind of operands, the bits of fields, addresses, and the banks selected and used.
#![tactic(auto)]

mod addresses;
mod arithmetic;
mod fields;
mod usage;

pub use addresses::{in_page, next_address, page_size};
pub use arithmetic::{field_value, result};
pub use fields::{field_mask, raised};
pub use usage::{is_side, select_side, selector, source_side, transmit_side, uses, whole_port};
