// The text of the images of an orientation.
ghost use Rattle.std.specs.Prelude.{◌≡◌, ◌++◌, IfOk, OnOk, map, string_bytes};
ghost use Rattle.motions.specs.Views.{vector_of};
ghost use Rattle.report.specs.Texts.{image_line, images_text};

use crate::at::NoMemory;
use crate::written::Indices;
use std::alloc::Global;

/// The text of the images of an orientation: a line `image h k l` for each, and `end`.
pub fn images_text(alloc: Global, images: &[[i64; 3]]) -> Result<Vec<u8>, NoMemory>
    ensures { IfOk result (λ text. text.items ≡ images_text (map vector_of images.now)) }
{
    let mut text = String::new(alloc);
    for image in images {
        write_image(&mut text, image)?;
    }
    text.push_str("end\n")?;
    Ok(text.into_bytes())
}

fn write_image(text: &mut String, image: &[i64; 3]) -> Result<(), NoMemory>
    ensures { OnOk result
        (string_bytes text.new ≡ string_bytes text.old ++ image_line (vector_of image.now)) }
{
    let indices = Indices::of(image);
    write!(text, "image{indices}\n")
}
