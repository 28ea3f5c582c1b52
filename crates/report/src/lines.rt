// Lines of operations and of vectors, each put behind what stands in a text.
ghost use Rattle.std.specs.Prelude.{◌≡◌, ◌++◌, OnOk, codes, map, flat_map, string_bytes};
ghost use Rattle.fractions.specs.Fractions.{fractions_of};
ghost use Rattle.motions.specs.Views.{motion_of, parts};
ghost use Rattle.report.specs.Texts.{fractions_text, operation_line, vector_text};

use crate::at::NoMemory;
use crate::written::{InEdges, InParts};
use fractions::{Part, Ratio};
use motions::Motion3;
use triplets::Triplet;

/// A line for each operation.
pub(crate) fn write_operations(text: &mut String, ops: &[Motion3]) -> Result<(), NoMemory>
    ensures { OnOk result
        (string_bytes text.new ≡ string_bytes text.old
        ++ flat_map operation_line (map motion_of ops.now)) }
{
    for m in ops {
        write_operation(text, m)?;
    }
    Ok(())
}

/// The line of an operation.
pub(crate) fn write_operation(text: &mut String, m: &Motion3) -> Result<(), NoMemory>
    ensures { OnOk result
        (string_bytes text.new ≡ string_bytes text.old ++ operation_line (motion_of m.now)) }
{
    let triplet = Triplet(m);
    write!(text, "op {triplet}\n")
}

/// The line of a vector that is counted in parts, with its name and a blank before it.
pub(crate) fn write_vector(text: &mut String, name: &str, v: &[Part; 3]) -> Result<(), NoMemory>
    ensures { OnOk result (string_bytes text.new
        ≡ string_bytes text.old ++ name.now ++ vector_text (parts v.now) ++ codes "\n") }
{
    let vector = InParts::of(v);
    write!(text, "{name}{vector}\n")
}

/// The line of a vector that is counted in cell edges.
pub(crate) fn write_edges(text: &mut String, name: &str, v: &[Ratio; 3]) -> Result<(), NoMemory>
    ensures { OnOk result (string_bytes text.new
        ≡ string_bytes text.old ++ name.now ++ fractions_text (fractions_of v.now) ++ codes "\n") }
{
    let vector = InEdges::of(v);
    write!(text, "{name}{vector}\n")
}
