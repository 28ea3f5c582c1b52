// What motions do to planes, told by the row (hkl) W and the number (hkl).w.
ghost use Rattle.std.specs.Prelude.{◌⊎◌, ◌↔◌, pos, negsuc};
ghost use Rattle.symmetry.specs.Vectors.{Vector};
ghost use Rattle.symmetry.specs.Motions.{Motion};
ghost use Rattle.symmetry.specs.Planes.{Height, IsHeight, IsCoprime, KeepsPlane, KeepsRow, TurnsRow, IsInvertible, MapsPlane, MovesRow};
ghost use Rattle.symmetry.specs.Groups.{IsMember, Listing, IsGroup, InStabiliser, InRowStabiliser, FixesEveryPlane, FixesEveryPlaneByRow};
ghost use Rattle.symmetry.specs.Frames.{IsSpecial};

/// The plane theorem: a motion whose matrix has an inverse of whole entries takes every point of one plane to a point of
/// another exactly where (hkl) W = e (hkl) and e p/q + (hkl).w = p'/q', with e = 1 or e = -1.
pub fn image_by_row()
    ensures { (r : Vector) (s : Height) (s' : Height) (g : Motion) → IsCoprime r → IsHeight s →
        IsHeight s' → IsInvertible g.matrix →
        MapsPlane r s s' g ↔ (MovesRow r s s' (pos 1) g ⊎ MovesRow r s s' (negsuc 0) g) }
{}

/// It maps a plane to itself exactly where (hkl) W = (hkl) and (hkl).w = 0, or (hkl) W = -(hkl) and (hkl).w is twice the
/// height.
pub fn plane_by_row()
    ensures { (r : Vector) (s : Height) (g : Motion) → IsCoprime r → IsHeight s →
        IsInvertible g.matrix → KeepsPlane r s g ↔ (KeepsRow r g ⊎ TurnsRow r s g) }
{}

/// So rows tell which members of a group map one plane to itself, and which map every plane of the orientation to itself.
pub fn stabiliser_by_rows()
    ensures each { (g : Listing) (r : Vector) (s : Height) (m : Motion) → IsGroup g → IsCoprime r →
        IsHeight s → InStabiliser g r s m ↔ InRowStabiliser g r s m }
    ensures every { (g : Listing) (r : Vector) (m : Motion) → IsGroup g → IsCoprime r →
        FixesEveryPlane g r m ↔ FixesEveryPlaneByRow g r m }
{}

/// A height is special exactly where some member turns the row, (hkl) W = -(hkl), and has twice the height as (hkl).w.
pub fn special_by_row()
    ensures { (g : Listing) (r : Vector) (s : Height) → IsGroup g → IsCoprime r → IsHeight s →
        IsSpecial g r s ↔ ((m : Motion) × IsMember g m × TurnsRow r s m) }
{}
