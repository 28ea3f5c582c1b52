// Slabs and planes: what maps the one to itself and what maps the other.
ghost use Rattle.std.specs.Prelude.{◌↔◌, List};
ghost use Rattle.symmetry.specs.Vectors.{Vector};
ghost use Rattle.symmetry.specs.Motions.{IsPoint, Motion, Point};
ghost use Rattle.symmetry.specs.Planes.{Height, IsCoprime, IsHeight, IsInvertible, KeepsPlane};
ghost use Rattle.symmetry.specs.Groups.{InStabiliser, IsGroup, Listing};
ghost use Rattle.symmetry.specs.Frames.{Basis, IsFrame};
ghost use Rattle.symmetry.specs.Lists.{IsHomeList, ListsInPlane};
ghost use Rattle.symmetry.specs.Scans.{IsLower};
ghost use Rattle.slabs.specs.Slabs.{InSlabStabiliser, IsAtMost, IsInSlab, KeepsSlab, half_sum};

/// The slab theorem: a motion whose matrix has an inverse of whole entries takes every point of a slab to a point of it
/// exactly where it takes every point of the plane in the middle to a point of that plane.
pub fn slab_by_middle()
    ensures { (r : Vector) (low high : Height) (m : Motion) → IsCoprime r → IsHeight low →
        IsHeight high → IsAtMost low high → IsInvertible m.matrix →
        KeepsSlab r low high m ↔ KeepsPlane r (half_sum low high) m }
{}

/// So the members of a group that map a slab to itself are those that map the plane in its middle to itself.
pub fn stabiliser_by_middle()
    ensures { (g : Listing) (r : Vector) (low high : Height) (m : Motion) → IsGroup g →
        IsCoprime r → IsHeight low → IsHeight high → IsAtMost low high →
        InSlabStabiliser g r low high m ↔ InStabiliser g r (half_sum low high) m }
{}

/// So a slab and the plane in its middle have the same lists, and the list of a slab lists what maps it to itself
/// modulo the plane lattice.
pub fn slab_lists()
    ensures same { (g : Listing) (r : Vector) (f : Basis) (low high : Height) (ms : List Motion) →
        IsGroup g → IsCoprime r → IsHeight low → IsHeight high → IsAtMost low high →
        IsHomeList g f (InSlabStabiliser g r low high) ms
        ↔ IsHomeList g f (InStabiliser g r (half_sum low high)) ms }
    ensures plane { (g : Listing) (r : Vector) (f : Basis) (low high : Height) (ms : List Motion) →
        IsGroup g → IsCoprime r → IsHeight low → IsHeight high → IsAtMost low high → IsFrame g r f →
        IsHomeList g f (InSlabStabiliser g r low high) ms →
        ListsInPlane g r (InSlabStabiliser g r low high) ms }
{}

/// A slab has no point exactly where its second plane lies below its first.
pub fn empty_by_heights()
    ensures { (r : Vector) (low high : Height) → IsCoprime r → IsHeight low → IsHeight high →
        ((p : Point) → IsPoint p → ¬ IsInSlab r low high p) ↔ IsLower high low }
{}
