// The lines of a section.
ghost use Rattle.std.specs.Prelude.{◌≡◌, ◌++◌, OnOk, string_bytes};
ghost use Rattle.triplets.specs.Writing.{number_line};
ghost use Rattle.plane_motions.specs.PlaneMotions.{parts2};
ghost use Rattle.line_types.specs.FriezeRows.{frieze_row};
ghost use Rattle.line_scans.specs.LineView.{line_scan_of, line_section_of};
ghost use Rattle.line_reports.specs.LineTexts.{basis_line, origin_line, section_lines};
ghost use Rattle.line_reports.specs.WrittenView.{edges_of, parts_of, two_fractions_of};

use crate::lines::write_operations;
use crate::named::symbol;
use crate::text::NoMemory;
use crate::written::{InEdges, InParts};
use friezes::FoundFrieze;
use line_scans::{LineScan, LineSection};

/// The lines of the frieze type of a section, its origin with what stands behind it, and a line for each operation.
pub(crate) fn write_section(
    text: &mut String,
    scan: &LineScan,
    section: &LineSection,
    origin: InEdges,
    behind: &str,
) -> Result<(), NoMemory>
    ensures { OnOk result (string_bytes text.new ≡ string_bytes text.old
        ++ section_lines (line_scan_of scan.now) (edges_of origin) behind.now
        (line_section_of section.now)) }
{
    write_type(text, scan, &section.found, origin, behind)?;
    write_operations(text, &section.ops)
}

// The number and the symbol of the type, its basis, and its origin.
fn write_type(
    text: &mut String,
    scan: &LineScan,
    found: &FoundFrieze,
    origin: InEdges,
    behind: &str,
) -> Result<(), NoMemory>
    ensures { OnOk result (string_bytes text.new ≡ string_bytes text.old
        ++ (number_line found.now.number (frieze_row found.now.number).symbol
        ++ basis_line (parts2 scan.now.a) (two_fractions_of scan.now.c)
        ++ origin_line (edges_of origin) behind.now)) }
{
    write_number(text, found.number, symbol(found))?;
    write_basis(text, InParts::of(&scan.a), InEdges::of(&scan.c))?;
    write_origin(text, origin, behind)
}

#[tactic(auto, unfolding(triplets::specs::Writing::number_line))]
fn write_number(text: &mut String, number: u8, symbol: &str) -> Result<(), NoMemory>
    ensures { OnOk result (string_bytes text.new
        ≡ string_bytes text.old ++ number_line number symbol.now) }
{
    write!(text, "type {number} {symbol}\n")
}

#[tactic(auto, unfolding(crate::specs::LineTexts::basis_line))]
fn write_basis(text: &mut String, along: InParts, across: InEdges) -> Result<(), NoMemory>
    ensures { OnOk result (string_bytes text.new
        ≡ string_bytes text.old ++ basis_line (parts_of along) (edges_of across)) }
{
    write!(text, "basis {along} {across}\n")
}

#[tactic(auto, unfolding(crate::specs::LineTexts::origin_line))]
fn write_origin(text: &mut String, origin: InEdges, behind: &str) -> Result<(), NoMemory>
    ensures { OnOk result (string_bytes text.new
        ≡ string_bytes text.old ++ origin_line (edges_of origin) behind.now) }
{
    write!(text, "origin {origin}{behind}\n")
}
