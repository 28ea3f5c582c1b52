// The writer of pairs.
ghost use Rattle.std.specs.Prelude.{◌≡◌, IfOk};
ghost use Rattle.plane_motions.specs.PlaneMotions.{plane_of};
ghost use Rattle.triplets.specs.Writing.{pair_text};

use crate::display::Row;
use crate::write::NoMemory;
use plane_motions::Motion2;
use std::alloc::Global;
use std::fmt;

/// A motion of the plane, which `{}` shows as its coordinate pair in the one written form, such as `-x+1/2,y`.
///
/// Each part is written as in a coordinate triplet. The notation is that of International Tables, Volume A, the plane
/// groups.
#[derive(Clone, Copy)]
pub struct Pair<'a>(pub &'a Motion2);

impl<'a> fmt::Display for Pair<'a> {
    ghost use Rattle.std.specs.Prelude.{Some};
    ghost use Rattle.plane_motions.specs.PlaneMotions.{plane_of};
    ghost use Rattle.triplets.specs.Writing.{pair_text};

    ghost output = { λ t. Some (pair_text (plane_of t.0.now)) };

    fn fmt<W: fmt::Write>(&self, f: &mut fmt::Formatter<W>) -> fmt::Result {
        let m = self.0;
        let first = Row::of_pair(&m.w[0], m.t[0]);
        let second = Row::of_pair(&m.w[1], m.t[1]);
        write!(f, "{first},{second}")
    }
}

/// The coordinate pair of a motion of the plane in its one written form, as [`Pair`] shows it.
pub fn write_pair(alloc: Global, m: &Motion2) -> Result<Vec<u8>, NoMemory>
    ensures { IfOk result (λ text. text.items ≡ pair_text (plane_of m.now)) }
{
    let pair = Pair(m);
    Ok(format!(in alloc; "{pair}")?.into_bytes())
}

#[cfg(test)]
mod tests {
    use super::*;
    use fractions::{Part, UNIT};
    use std::alloc::AllocError;

    #[test]
    fn a_motion_of_the_plane_has_its_text(rt: HostRuntime) -> Result<(), AllocError> {
        let rows = [
            ([[1, 0], [0, 1]], [0, 0], "x,y"),
            ([[-1, 0], [0, 1]], [UNIT / 2, 0], "-x+1/2,y"),
            ([[0, -1], [1, -1]], [-UNIT / 3, UNIT], "-y-1/3,x-y+1"),
            ([[0, 0], [2, 0]], [0, UNIT / 6], "0,2x+1/6"),
        ];
        for (w, [x, y], text) in rows {
            let t = [Part(x), Part(y)];
            let written = write_pair(rt.alloc(), &Motion2 { w, t })?;
            assert_eq!(rt; written.as_slice(), text.as_bytes(), "{text}");
        }
        Ok(())
    }
}
