// Image files: the code and the grants of a module, as the file's own bytes, or the first fault of the file.
#![tactic(auto)]

mod entries;
mod fault;
mod grants;
mod layout;
mod part;
mod reading;

pub use fault::FileFault;
pub use grants::mask;
pub use layout::MOST_BYTES;
pub use part::{Image, Part};
pub use reading::{parts, read};
