// The reader of a whole group text.
ghost use Rattle.std.specs.Prelude.{◌≤◌, length, IfOk};
ghost use Rattle.motions.specs.ListedSizes.{IsListedSmall};
ghost use Rattle.triplets.specs.TextAnswers.{IsAnswer};
ghost use Rattle.triplets.specs.declared.notation.Notation.TheVariants.{Triplets, Pairs};

use crate::fault::TextFault;
use crate::notation::Notation;
use crate::text::LineReader;
use motions::Listed;
use std::alloc::Global;

/// How many bytes a group text may have.
pub const MOST_BYTES: usize = 65_536;

/// Reads a text in the notation.
fn read_in(alloc: Global, bytes: &[u8], notation: Notation) -> Result<Listed, TextFault>
    requires { length bytes.now ≤ 65536 }
    ensures answer { IsAnswer notation bytes.now result }
    ensures small { IfOk result (IsListedSmall 9) }
{
    let mut reader = LineReader::of(alloc, notation);
    match reader.feed(bytes) {
        Ok(()) => reader.finish(),
        Err(fault) => Err(fault),
    }
}

/// Reads a group text: what it lists, or the first bad line, its column and what is wrong there.
pub fn read_group(alloc: Global, bytes: &[u8]) -> Result<Listed, TextFault>
    requires { length bytes.now ≤ 65536 }
    ensures answer { IsAnswer Triplets bytes.now result }
    ensures small { IfOk result (IsListedSmall 9) }
{
    read_in(alloc, bytes, Notation::Triplets)
}

/// Reads the text of a plane group, which is a group text with pairs in place of triplets: what it lists, each pair as the
/// triplet with the third part `z`, or the first bad line, its column and what is wrong there.
pub fn read_pairs(alloc: Global, bytes: &[u8]) -> Result<Listed, TextFault>
    requires { length bytes.now ≤ 65536 }
    ensures answer { IsAnswer Pairs bytes.now result }
    ensures small { IfOk result (IsListedSmall 9) }
{
    read_in(alloc, bytes, Notation::Pairs)
}
