// The text of a rod.
ghost use Rattle.std.specs.Prelude.{◌≡◌, ◌++◌, ◌<◌, IfOk, OnOk, codes, string_bytes};
ghost use Rattle.symmetry.specs.Sizes.{IsVectorWithin};
ghost use Rattle.recognition.specs.RodTypes.{change_of};
ghost use Rattle.motions.specs.Views.{parts};
ghost use Rattle.plane_lattice.specs.Bounds.{largest_entry};
ghost use Rattle.penetration.specs.DirectionView.{direction_of};
ghost use Rattle.penetration.specs.RodOperations.{vector_across};
ghost use Rattle.report.specs.RodReportView.{rod_report_of};
ghost use Rattle.report.specs.RodTexts.{line_text, named_rod_lines, rod_basis_line, rod_text, rod_type_lines};
ghost use Rattle.report.specs.Texts.{fractions_text, indices_text};
ghost use Rattle.report.specs.WrittenView.{edges_of, parts_of};

use crate::at::NoMemory;
use crate::lines::{write_edges, write_operations, write_vector};
use crate::named_lines::{write_number, write_origin};
use crate::rod_named::{RodTypeBasis, across_at, origin_along, symbol};
use crate::written::Indices;
use penetration::{Direction, Rod, RodFrame};
use recognition::FoundRod;
use std::alloc::Global;

/// The text of a rod: the lines `line u v w`, `through x,y,z`, `axis v`, `a v` and `b v` with the vectors a' and b', then
/// `type n symbol`, `basis v v v`, `origin v` and a line `op` for each operation, and `end`.
///
/// The basis is p00 a' + p10 b', p01 a' + p11 b', and the axis c or, where p00 p11 - p01 p10 is negative, -c. The origin is
/// the point and (z/[`ROD_GRID`](recognition::ROD_GRID)) c. Where no bounded change carries the section onto a rod type the line
/// `type unrecognised` stands for the three. Each entry of the point is at most 1000 cell edges in size (International Tables,
/// Volume E, penetration rod groups).
pub fn rod_text(alloc: Global, rod: &Rod) -> Result<Vec<u8>, NoMemory>
    requires { IsVectorWithin largest_entry (parts rod.now.point) }
    ensures { IfOk result (λ text. text.items ≡ rod_text (rod_report_of rod.now)) }
{
    let mut text = String::new(alloc);
    write_line(&mut text, rod)?;
    write_rod_type(&mut text, rod, &rod.found)?;
    write_operations(&mut text, &rod.ops)?;
    text.push_str("end\n")?;
    Ok(text.into_bytes())
}

// The lines of the direction, the point, the axis and the vectors a' and b'.
fn write_line(text: &mut String, rod: &Rod) -> Result<(), NoMemory>
    ensures { OnOk result
        (string_bytes text.new ≡ string_bytes text.old ++ line_text (rod_report_of rod.now)) }
{
    let frame = &rod.frame;
    write_direction(text, &frame.direction)?;
    write_vector(text, "through ", &rod.point)?;
    write_vector(text, "axis ", &frame.axis)?;
    write_across(text, "a ", frame, 0)?;
    write_across(text, "b ", frame, 1)?;
    Ok(())
}

fn write_direction(text: &mut String, direction: &Direction) -> Result<(), NoMemory>
    ensures { OnOk result (string_bytes text.new
        ≡ string_bytes text.old
        ++ (codes "line" ++ indices_text (direction_of direction.now) ++ codes "\n")) }
{
    let indices = Indices::of_direction(direction);
    write!(text, "line{indices}\n")
}

// The line of a' or b'.
fn write_across(text: &mut String, name: &str, frame: &RodFrame, i: usize) -> Result<(), NoMemory>
    requires { i < 2 }
    ensures { OnOk result (string_bytes text.new
        ≡ string_bytes text.old ++ name.now ++ fractions_text (vector_across frame.now.across i)
        ++ codes "\n") }
{
    let v = across_at(frame, i);
    write_edges(text, name, &v)
}

fn write_rod_type(text: &mut String, rod: &Rod, found: &Option<FoundRod>) -> Result<(), NoMemory>
    requires { IsVectorWithin largest_entry (parts rod.now.point) }
    ensures { OnOk result (string_bytes text.new
        ≡ string_bytes text.old ++ rod_type_lines (rod_report_of rod.now) found.now) }
{
    match found {
        None => text.push_str("type unrecognised\n"),
        Some(found) => write_named_rod(text, rod, found),
    }
}

fn write_named_rod(text: &mut String, rod: &Rod, found: &FoundRod) -> Result<(), NoMemory>
    requires { IsVectorWithin largest_entry (parts rod.now.point) }
    ensures { OnOk result (string_bytes text.new
        ≡ string_bytes text.old ++ named_rod_lines (rod_report_of rod.now) (change_of found.now)) }
{
    write_number(text, found.number, symbol(found))?;
    write_rod_basis(text, RodTypeBasis::of(&rod.frame, found))?;
    write_origin(text, origin_along(rod, found), "")
}

#[tactic(auto, unfolding(crate::specs::RodTexts::rod_basis_line))]
fn write_rod_basis(text: &mut String, basis: RodTypeBasis) -> Result<(), NoMemory>
    ensures { OnOk result (string_bytes text.new ≡ string_bytes text.old
        ++ rod_basis_line (edges_of basis.first) (edges_of basis.second) (parts_of basis.third)) }
{
    let RodTypeBasis {
        first,
        second,
        third,
    } = basis;
    write!(text, "basis {first} {second} {third}\n")
}
