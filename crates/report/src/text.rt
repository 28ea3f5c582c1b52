// The text of a report.
ghost use Rattle.std.specs.Prelude.{◌≡◌, ◌++◌, All, OnOk, codes, map, flat_map, option_map, string_bytes};
ghost use Rattle.fractions.specs.FractionOf.{fraction_of};
ghost use Rattle.recognition.specs.Search.{change_of};
ghost use Rattle.motions.specs.Views.{row_of};
ghost use Rattle.triplets.specs.Writing.{number_text};
ghost use Rattle.plane_lattice.specs.SmallHeights.{IsSmallHeight};
ghost use Rattle.report.specs.ReportView.{report_of};
ghost use Rattle.report.specs.SectionView.{block_of};
ghost use Rattle.report.specs.Texts.{frame_text, indices_text, general_text, general_type_lines, height_text, type_lines};

use crate::at::NoMemory;
use crate::lines::{write_edges, write_operations, write_vector};
use crate::named::{origin_at_height, origin_in_plane};
use crate::named_lines::write_named;
use crate::report::{HeightSection, Report};
use crate::written::Indices;
use fractions::{Part, Ratio};
use motions::Miller;
use recognition::Found;
use std::alloc::Global;

impl Report {
    ghost use Rattle.std.specs.Prelude.{◌≡◌, IfOk};
    ghost use Rattle.report.specs.ReportView.{report_of};
    ghost use Rattle.report.specs.Texts.{report_text};

    /// The text of the report: the lines of the frame, `general planes n` and the general section, `height s orbit k` and
    /// the section at each special height, and `end`.
    ///
    /// A section has the lines `type n symbol`, `basis v v v`, `origin v` and a line `op` for each operation. The basis is
    /// p00 a + p10 b, p01 a + p11 b, and c' or, where p00 p11 - p01 p10 is negative, -c'. The origin is
    /// (s/d) tau + (x/grid) a + (y/grid) b, and that of the general section lies (s/d) c' above the one written. Where no
    /// bounded change carries the section onto a layer type the first lines are `type unrecognised` alone.
    pub fn text(&self, alloc: Global) -> Result<Vec<u8>, NoMemory>
        ensures { IfOk result (λ text. text.items ≡ report_text (report_of self.now)) }
    {
        let mut text = String::new(alloc);
        write_frame(&mut text, self)?;
        write_general(&mut text, self)?;
        write_heights(&mut text, self, &self.heights)?;
        text.push_str("end\n")?;
        Ok(text.into_bytes())
    }
}

// The lines of the orientation, the period and the vectors.
fn write_frame(text: &mut String, report: &Report) -> Result<(), NoMemory>
    ensures { OnOk result
        (string_bytes text.new ≡ string_bytes text.old ++ frame_text (report_of report.now)) }
{
    let frame = &report.frame;
    write_plane(text, &frame.plane)?;
    write_period(text, frame.period)?;
    write_vector(text, "a ", &frame.a)?;
    write_vector(text, "b ", &frame.b)?;
    write_vector(text, "tau ", &frame.tau)?;
    write_edges(text, "c ", &frame.c)?;
    Ok(())
}

fn write_plane(text: &mut String, plane: &Miller) -> Result<(), NoMemory>
    ensures { OnOk result (string_bytes text.new
        ≡ string_bytes text.old
        ++ (codes "plane" ++ indices_text (row_of plane.now) ++ codes "\n")) }
{
    let indices = Indices::of_plane(plane);
    write!(text, "plane{indices}\n")
}

fn write_period(text: &mut String, period: Part) -> Result<(), NoMemory>
    ensures { OnOk result (string_bytes text.new
        ≡ string_bytes text.old ++ codes "period " ++ number_text period.0 ++ codes "\n") }
{
    write!(text, "period {period}\n")
}

// The block of the general planes.
fn write_general(text: &mut String, report: &Report) -> Result<(), NoMemory>
    ensures { OnOk result
        (string_bytes text.new ≡ string_bytes text.old ++ general_text (report_of report.now)) }
{
    let planes = report.planes;
    write!(text, "general planes {planes}\n")?;
    write_general_type(text, report, &report.general.found)?;
    write_operations(text, &report.general.ops)
}

fn write_general_type(
    text: &mut String,
    report: &Report,
    found: &Option<Found>,
) -> Result<(), NoMemory>
    ensures { OnOk result (string_bytes text.new
        ≡ string_bytes text.old
        ++ general_type_lines (report_of report.now) (option_map change_of found.now)) }
{
    match found {
        None => text.push_str("type unrecognised\n"),
        Some(found) => {
            let origin = origin_in_plane(&report.frame, found);
            write_named(text, &report.frame, found, origin, " + s/d c")
        }
    }
}

// The blocks of the special heights.
fn write_heights(
    text: &mut String,
    report: &Report,
    heights: &[HeightSection],
) -> Result<(), NoMemory>
    requires { All (λ h. IsSmallHeight (fraction_of h.s)) heights.now }
    ensures { OnOk result (string_bytes text.new
        ≡ string_bytes text.old
        ++ flat_map (height_text (report_of report.now)) (map block_of heights.now)) }
{
    for height in heights {
        write_height(text, report, height)?;
    }
    Ok(())
}

fn write_height(text: &mut String, report: &Report, height: &HeightSection) -> Result<(), NoMemory>
    requires { IsSmallHeight (fraction_of height.now.s) }
    ensures { OnOk result
        (string_bytes text.new ≡ string_bytes text.old
        ++ height_text (report_of report.now) (block_of height.now)) }
{
    let s = height.s;
    let orbit = height.orbit;
    write!(text, "height {s} orbit {orbit}\n")?;
    write_type(text, report, s, &height.section.found)?;
    write_operations(text, &height.section.ops)
}

fn write_type(
    text: &mut String,
    report: &Report,
    s: Ratio,
    found: &Option<Found>,
) -> Result<(), NoMemory>
    requires { IsSmallHeight (fraction_of s) }
    ensures { OnOk result (string_bytes text.new
        ≡ string_bytes text.old
        ++ type_lines (report_of report.now) (fraction_of s) (option_map change_of found.now)) }
{
    match found {
        None => text.push_str("type unrecognised\n"),
        Some(found) => {
            let origin = origin_at_height(&report.frame, s, found);
            write_named(text, &report.frame, found, origin, "")
        }
    }
}
