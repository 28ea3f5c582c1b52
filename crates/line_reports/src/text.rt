// The text of a scan of lines.
ghost use Rattle.std.specs.Prelude.{◌≡◌, ◌++◌, All, IfOk, OnOk, codes, map, flat_map, string_bytes};
ghost use Rattle.fractions.specs.FractionOf.{fraction_of};
ghost use Rattle.triplets.specs.Writing.{number_text};
ghost use Rattle.plane_lattice.specs.SmallHeights.{IsSmallHeight};
ghost use Rattle.line_scans.specs.LineView.{line_height_of, line_scan_of};
ghost use Rattle.line_reports.specs.LineTexts.{frame_text, general_text, height_text, indices_text, lines_text};
ghost use Rattle.line_scans.specs.SmallLineScans.{IsSmallLineScan};

use crate::lines::{write_edges, write_vector};
use crate::named::{origin_along, origin_at_height};
use crate::named_lines::write_section;
use crate::written::Indices;
use fractions::Part;
use line_scans::{LineHeight, LineScan};
use std::alloc::{AllocError, Global};

/// Memory ran out.
pub type NoMemory = AllocError;

/// The text of a scan of lines: the lines `line h k`, `period d`, `a v`, `tau v` and `c v`, then `general` and the general
/// section, `height s` and the section at each special height, and `end`.
///
/// A section has the lines `type n symbol` of its frieze type, `basis v v` with a and c', `origin v` and a line `op` for
/// each operation. The origin is (s/d) tau + (x/[`GRID`](friezes::GRID)) a. That of the general section is
/// (x/[`GRID`](friezes::GRID)) a, and lies (s/d) c' above the one written, which ` + s/d c` behind it says. Vectors have two
/// ratios of the cell edges (International Tables, Volume E, frieze groups, and scanning in its part 6).
///
/// The vectors, the period and the heights are those that a frame of lines can have: `IsSmallLineScan` bounds them.
pub fn lines_text(alloc: Global, scan: &LineScan) -> Result<Vec<u8>, NoMemory>
    requires { IsSmallLineScan scan.now }
    ensures { IfOk result (λ text. text.items ≡ lines_text (line_scan_of scan.now)) }
{
    let mut text = String::new(alloc);
    write_frame(&mut text, scan)?;
    write_general(&mut text, scan)?;
    write_heights(&mut text, scan, &scan.heights)?;
    text.push_str("end\n")?;
    Ok(text.into_bytes())
}

// The lines of the indices, the period and the vectors.
fn write_frame(text: &mut String, scan: &LineScan) -> Result<(), NoMemory>
    ensures { OnOk result (string_bytes text.new
        ≡ string_bytes text.old ++ frame_text (line_scan_of scan.now)) }
{
    write_indices(text, scan)?;
    write_period(text, scan.period)?;
    write_vector(text, "a ", &scan.a)?;
    write_vector(text, "tau ", &scan.tau)?;
    write_edges(text, "c ", &scan.c)?;
    Ok(())
}

fn write_indices(text: &mut String, scan: &LineScan) -> Result<(), NoMemory>
    ensures { OnOk result (string_bytes text.new
        ≡ string_bytes text.old
        ++ (codes "line" ++ indices_text (line_scan_of scan.now).row ++ codes "\n")) }
{
    let indices = Indices::of(scan);
    write!(text, "line{indices}\n")
}

fn write_period(text: &mut String, period: Part) -> Result<(), NoMemory>
    ensures { OnOk result (string_bytes text.new
        ≡ string_bytes text.old ++ codes "period " ++ number_text period.0 ++ codes "\n") }
{
    write!(text, "period {period}\n")
}

// The block of the general lines.
fn write_general(text: &mut String, scan: &LineScan) -> Result<(), NoMemory>
    requires { IsSmallLineScan scan.now }
    ensures { OnOk result (string_bytes text.new
        ≡ string_bytes text.old ++ general_text (line_scan_of scan.now)) }
{
    text.push_str("general\n")?;
    let origin = origin_along(&scan.a, &scan.general.found);
    write_section(text, scan, &scan.general, origin, " + s/d c")
}

// The blocks of the special heights.
fn write_heights(text: &mut String, scan: &LineScan, heights: &[LineHeight]) -> Result<(), NoMemory>
    requires scan { IsSmallLineScan scan.now }
    requires heights { All (λ h. IsSmallHeight (fraction_of h.s)) heights.now }
    ensures { OnOk result (string_bytes text.new
        ≡ string_bytes text.old
        ++ flat_map (height_text (line_scan_of scan.now)) (map line_height_of heights.now)) }
{
    for height in heights {
        write_height(text, scan, height)?;
    }
    Ok(())
}

fn write_height(text: &mut String, scan: &LineScan, height: &LineHeight) -> Result<(), NoMemory>
    requires scan { IsSmallLineScan scan.now }
    requires height { IsSmallHeight (fraction_of height.now.s) }
    ensures { OnOk result (string_bytes text.new
        ≡ string_bytes text.old
        ++ height_text (line_scan_of scan.now) (line_height_of height.now)) }
{
    let s = height.s;
    write!(text, "height {s}\n")?;
    let origin = origin_at_height(scan, s, &height.section.found);
    write_section(text, scan, &height.section, origin, "")
}
