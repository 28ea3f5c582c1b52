// What motions of the plane are in space. A call does nothing: its contract is the law.
ghost use Rattle.std.specs.Prelude.{◌≡◌};
ghost use Rattle.symmetry.specs.Motions.{followed_by};
ghost use Rattle.plane_motions.specs.PlaneMotions.{PlaneMotion, plane_block, plane_followed_by};

/// The product of two motions of the plane is, in space, the product of what they are in space.
pub fn product_of_plane_motions()
    ensures { (m n : PlaneMotion) →
        followed_by (plane_block m) (plane_block n) ≡ plane_block (plane_followed_by m n) }
{}
