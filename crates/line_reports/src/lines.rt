// Lines of operations and of vectors, each put behind what stands in a text.
ghost use Rattle.std.specs.Prelude.{◌≡◌, ◌++◌, OnOk, codes, map, flat_map, string_bytes};
ghost use Rattle.plane_motions.specs.PlaneMotions.{parts2, plane_of};
ghost use Rattle.line_reports.specs.LineTexts.{fractions_text, operation_line, vector_text};
ghost use Rattle.line_reports.specs.WrittenView.{two_fractions_of};

use crate::text::NoMemory;
use crate::written::{InEdges, InParts};
use fractions::{Part, Ratio};
use plane_motions::Motion2;
use triplets::Pair;

/// A line for each operation.
pub(crate) fn write_operations(text: &mut String, ops: &[Motion2]) -> Result<(), NoMemory>
    ensures { OnOk result (string_bytes text.new
        ≡ string_bytes text.old ++ flat_map operation_line (map plane_of ops.now)) }
{
    for m in ops {
        write_operation(text, m)?;
    }
    Ok(())
}

fn write_operation(text: &mut String, m: &Motion2) -> Result<(), NoMemory>
    ensures { OnOk result (string_bytes text.new
        ≡ string_bytes text.old ++ operation_line (plane_of m.now)) }
{
    let pair = Pair(m);
    write!(text, "op {pair}\n")
}

/// The line of a vector that is counted in parts, with its name and a blank before it.
pub(crate) fn write_vector(text: &mut String, name: &str, v: &[Part; 2]) -> Result<(), NoMemory>
    ensures { OnOk result (string_bytes text.new
        ≡ string_bytes text.old ++ name.now ++ vector_text (parts2 v.now) ++ codes "\n") }
{
    let vector = InParts::of(v);
    write!(text, "{name}{vector}\n")
}

/// The line of a vector that is counted in cell edges.
pub(crate) fn write_edges(text: &mut String, name: &str, v: &[Ratio; 2]) -> Result<(), NoMemory>
    ensures { OnOk result (string_bytes text.new
        ≡ string_bytes text.old ++ name.now ++ fractions_text (two_fractions_of v.now)
        ++ codes "\n") }
{
    let vector = InEdges::of(v);
    write!(text, "{name}{vector}\n")
}
