// The text of a survey.
ghost use Rattle.std.specs.Prelude.{◌≡◌, ◌++◌, IfOk, OnOk, map, string_bytes};
ghost use Rattle.surveys.specs.SurveyView.{surveyed_of};
ghost use Rattle.report.specs.SurveyTexts.{survey_text, surveyed_line};

use crate::at::NoMemory;
use crate::written::Indices;
use std::alloc::Global;
use surveys::Surveyed;

/// The text of a survey: a line `plane h k l images m special j` for each orientation, with how many rows are equivalent to it
/// and how many special heights it has from 0 to below its period, and `end`.
pub fn survey_text(alloc: Global, list: &[Surveyed]) -> Result<Vec<u8>, NoMemory>
    ensures { IfOk result (λ text. text.items ≡ survey_text (map surveyed_of list.now)) }
{
    let mut text = String::new(alloc);
    for surveyed in list {
        write_surveyed(&mut text, surveyed)?;
    }
    text.push_str("end\n")?;
    Ok(text.into_bytes())
}

fn write_surveyed(text: &mut String, surveyed: &Surveyed) -> Result<(), NoMemory>
    ensures { OnOk result (string_bytes text.new
        ≡ string_bytes text.old ++ surveyed_line (surveyed_of surveyed.now)) }
{
    let indices = Indices::of_plane(&surveyed.plane);
    let images = surveyed.images;
    let special = surveyed.special;
    write!(text, "plane{indices} images {images} special {special}\n")
}
