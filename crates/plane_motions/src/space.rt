// Which motions of space are motions of the plane.
ghost use Rattle.std.specs.Prelude.{◌≡◌, ◌↔◌, IfSome, IsSome, IsTrue};
ghost use Rattle.motions.specs.Views.{motion_of};
ghost use Rattle.plane_motions.specs.PlaneMotions.{IsFlat, plane_block, plane_of};

use crate::plane_motion::Motion2;
use fractions::Part;
use motions::Motion3;

/// Whether the motion leaves the third axis as it is, and every height.
fn is_flat(m: &Motion3) -> bool
    ensures { IsTrue result ↔ IsFlat (motion_of m.now) }
{
    let [first, second, third] = &m.w;
    third[0] == 0
        && third[1] == 0
        && third[2] == 1
        && first[2] == 0
        && second[2] == 0
        && m.t[2] == Part(0)
}

/// The motion of the plane that a motion of space is. None comes exactly where the third row or column of `w` is
/// not that of the unit matrix, or the third translation is not 0.
pub fn flat(m: &Motion3) -> Option<Motion2>
    ensures some { IsSome result ↔ IsFlat (motion_of m.now) }
    ensures block { IfSome result (λ p. motion_of m.now ≡ plane_block (plane_of p)) }
{
    if !is_flat(m) {
        return None;
    }
    Some(Motion2 {
        w: [[m.w[0][0], m.w[0][1]], [m.w[1][0], m.w[1][1]]],
        t: [m.t[0], m.t[1]],
    })
}
