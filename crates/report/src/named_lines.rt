// The lines of the type of a section.
ghost use Rattle.std.specs.Prelude.{◌≡◌, ◌++◌, OnOk, string_bytes};
ghost use Rattle.fractions.specs.Fractions.{fractions_of};
ghost use Rattle.triplets.specs.Writing.{number_line};
ghost use Rattle.plane_lattice.specs.FrameView.{basis_of_frame};
ghost use Rattle.recognition.specs.Search.{change_of};
ghost use Rattle.report.specs.Texts.{basis_line, named_lines, origin_line};
ghost use Rattle.report.specs.TypeVectors.{first_vector, second_vector, third_vector};
ghost use Rattle.report.specs.WrittenView.{directed_of, edges_of, parts_of};

use crate::at::NoMemory;
use crate::named::{TypeBasis, symbol};
use crate::written::InEdges;
use plane_lattice::Frame;
use recognition::Found;

/// The number and the symbol of the type, its basis, and its origin with what stands behind it.
pub(crate) fn write_named(
    text: &mut String,
    frame: &Frame,
    found: &Found,
    origin: InEdges,
    behind: &str,
) -> Result<(), NoMemory>
    ensures { OnOk result (string_bytes text.new ≡ string_bytes text.old
        ++ named_lines (basis_of_frame frame.now) (fractions_of frame.now.c)
        (edges_of origin) behind.now (change_of found.now)) }
{
    write_number(text, found.number, symbol(found))?;
    write_basis(text, frame, found)?;
    write_origin(text, origin, behind)
}

/// The line of the number and the symbol of a type.
#[tactic(auto, unfolding(triplets::specs::Writing::number_line))]
pub(crate) fn write_number(text: &mut String, number: u8, symbol: &str) -> Result<(), NoMemory>
    ensures { OnOk result
        (string_bytes text.new ≡ string_bytes text.old ++ number_line number symbol.now) }
{
    write!(text, "type {number} {symbol}\n")
}

fn write_basis(text: &mut String, frame: &Frame, found: &Found) -> Result<(), NoMemory>
    ensures { let c = change_of found.now in
        let f = basis_of_frame frame.now in
        OnOk result (string_bytes text.new ≡ string_bytes text.old
        ++ basis_line (first_vector f c) (second_vector f c)
        (third_vector (fractions_of frame.now.c) c)) }
{
    write_vectors(text, TypeBasis::of(frame, found))
}

#[tactic(auto, unfolding(crate::specs::Texts::basis_line))]
fn write_vectors(text: &mut String, basis: TypeBasis) -> Result<(), NoMemory>
    ensures { OnOk result (string_bytes text.new ≡ string_bytes text.old
        ++ basis_line (parts_of basis.first) (parts_of basis.second) (directed_of basis.third)) }
{
    let TypeBasis {
        first,
        second,
        third,
    } = basis;
    write!(text, "basis {first} {second} {third}\n")
}

/// The line of an origin, with what stands behind it.
#[tactic(auto, unfolding(crate::specs::Texts::origin_line))]
pub(crate) fn write_origin(text: &mut String, origin: InEdges, behind: &str) -> Result<(), NoMemory>
    ensures { OnOk result
        (string_bytes text.new ≡ string_bytes text.old
        ++ origin_line (edges_of origin) behind.now) }
{
    write!(text, "origin {origin}{behind}\n")
}
