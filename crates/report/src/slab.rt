// The text of a slab.
ghost use Rattle.std.specs.Prelude.{◌≡◌, IfOk, map};
ghost use Rattle.fractions.specs.Fraction.{IsFractionWithin};
ghost use Rattle.fractions.specs.FractionOf.{fraction_of};
ghost use Rattle.motions.specs.Views.{motion_of};
ghost use Rattle.report.specs.SlabTexts.{slab_text};

use crate::at::NoMemory;
use crate::lines::write_operations;
use fractions::Ratio;
use motions::Motion3;
use slabs::middle;
use std::alloc::Global;

/// The text of the slab from low to high and of the operations that map it to itself: `slab s1 s2`, `middle m` with half the
/// sum of both, a line `op` for each operation, and `end`.
///
/// Low and high have numerators and denominators of at most [`MOST_HEIGHT`](scanning::MOST_HEIGHT) in size.
pub fn slab_text(
    alloc: Global,
    low: Ratio,
    high: Ratio,
    ops: &[Motion3],
) -> Result<Vec<u8>, NoMemory>
    requires low { IsFractionWithin 1000000000 (fraction_of low) }
    requires high { IsFractionWithin 1000000000 (fraction_of high) }
    ensures { IfOk result (λ text.
        text.items ≡ slab_text (fraction_of low) (fraction_of high) (map motion_of ops.now)) }
{
    let middle = middle(low, high);
    let mut text = format!(in alloc; "slab {low} {high}\nmiddle {middle}\n")?;
    write_operations(&mut text, ops)?;
    text.push_str("end\n")?;
    Ok(text.into_bytes())
}
