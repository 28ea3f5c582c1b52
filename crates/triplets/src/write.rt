// The writer of triplets.
ghost use Rattle.std.specs.Prelude.{◌≡◌, IfOk};
ghost use Rattle.motions.specs.Views.{motion_of};
ghost use Rattle.triplets.specs.Writable.{IsTripletOf, IsWritable};
ghost use Rattle.triplets.specs.Writing.{triplet_text};

use crate::display::Row;
use motions::Motion3;
use std::alloc::{AllocError, Global};
use std::fmt;

/// Memory ran out.
pub type NoMemory = AllocError;

/// A motion, which `{}` shows as its coordinate triplet in the one written form, such as `-x+1/2,y,-z`.
///
/// Each part has its letters in the order x, y, z, then its number in lowest terms of the cell edge, and no blanks.
/// The notation is that of International Tables, Volume A.
#[derive(Clone, Copy)]
pub struct Triplet<'a>(pub &'a Motion3);

impl<'a> fmt::Display for Triplet<'a> {
    ghost use Rattle.std.specs.Prelude.{Some};
    ghost use Rattle.motions.specs.Views.{motion_of};
    ghost use Rattle.triplets.specs.Writing.{triplet_text};

    ghost output = { λ t. Some (triplet_text (motion_of t.0.now)) };

    fn fmt<W: fmt::Write>(&self, f: &mut fmt::Formatter<W>) -> fmt::Result {
        let m = self.0;
        let first = Row::of(&m.w[0], m.t[0]);
        let second = Row::of(&m.w[1], m.t[1]);
        let third = Row::of(&m.w[2], m.t[2]);
        write!(f, "{first},{second},{third}")
    }
}

/// The coordinate triplet of a motion in its one written form, as [`Triplet`] shows it.
///
/// A motion with matrix entries at most 9 in size and numerators at most 999 in size is what the reader reads of it.
pub fn write_triplet(alloc: Global, m: &Motion3) -> Result<Vec<u8>, NoMemory>
    ensures form { IfOk result (λ text. text.items ≡ triplet_text (motion_of m.now)) }
    ensures law { IfOk result (λ text.
        IsWritable (motion_of m.now) → IsTripletOf text.items (motion_of m.now)) }
{
    let triplet = Triplet(m);
    Ok(format!(in alloc; "{triplet}")?.into_bytes())
}

#[cfg(test)]
mod tests {
    use super::*;
    use fractions::{Part, UNIT};

    #[test]
    fn a_motion_has_its_text(rt: HostRuntime) -> Result<(), AllocError> {
        let rows = [
            (
                [[-1, 1, 0], [-1, 0, 0], [0, 0, 1]],
                [0, UNIT / 2, -UNIT / 3],
                "-x+y,-x+1/2,z-1/3",
            ),
            (
                [[0, 0, 0], [2, 0, -12], [0, 1, 0]],
                [0, 0, 3 * UNIT],
                "0,2x-12z,y+3",
            ),
            (
                [[i64::MIN, 0, 0], [0, 0, 0], [0, i64::MAX, 0]],
                [0, i64::MIN, 0],
                "-9223372036854775808x,-576460752303423488/3,9223372036854775807y",
            ),
        ];
        for (w, [x, y, z], text) in rows {
            let t = [Part(x), Part(y), Part(z)];
            let written = write_triplet(rt.alloc(), &Motion3 { w, t })?;
            assert_eq!(rt; written.as_slice(), text.as_bytes(), "{text}");
        }
        Ok(())
    }
}
