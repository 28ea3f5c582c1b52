// The text of the operations at a height.
ghost use Rattle.std.specs.Prelude.{◌≡◌, IfOk, map};
ghost use Rattle.fractions.specs.FractionOf.{fraction_of};
ghost use Rattle.motions.specs.Views.{motion_of};
ghost use Rattle.report.specs.Texts.{at_text};

use crate::lines::write_operations;
use fractions::Ratio;
use motions::Motion3;
use std::alloc::{AllocError, Global};

/// Memory ran out.
pub type NoMemory = AllocError;

/// The text of a height and of the operations at it: `height s`, a line `op` for each, and `end`.
pub fn at_text(alloc: Global, s: Ratio, ops: &[Motion3]) -> Result<Vec<u8>, NoMemory>
    ensures { IfOk result (λ text. text.items ≡ at_text (fraction_of s) (map motion_of ops.now)) }
{
    let mut text = format!(in alloc; "height {s}\n")?;
    write_operations(&mut text, ops)?;
    text.push_str("end\n")?;
    Ok(text.into_bytes())
}
