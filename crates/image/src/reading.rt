// Reading a file.
ghost use Rattle.image.specs.Reading.{Read, Faultless, IsImage, IsEmpty};

use crate::entries::try_entries;
use crate::fault::FileFault;
use crate::layout::layout_of;
use crate::part::{Image, Part};

// The two parts of an image file, or the first fault of a file that is none.
pub fn read<'a>(file: &'a [u8]) -> Result<Image<'a>, FileFault>
    ensures { Read file.now result }
{
    let image = layout_of(file)?;
    try_entries(image.grants)?;
    Ok(image)
}

// The two parts of any file: those of an image, and for a refused file two empty parts at place 0.
pub fn parts<'a>(file: &'a [u8]) -> Image<'a>
    ensures image { Faultless file.now → IsImage file.now result }
    ensures refused { (Faultless file.now → ⊥) → IsEmpty file.now result }
{
    match read(file) {
        Ok(image) => image,
        Err(_) => {
            let bytes = &file[0..0];
            Image {
                code: Part::Code { bytes, place: 0 },
                grants: Part::Grants { bytes, place: 0 },
            }
        }
    }
}
