// The heights of a scan, and the operations that it gives at each.
ghost use Rattle.std.specs.Prelude.{◌≡◌, ℕ, ℤ, List, All, AllPairs};
ghost use Rattle.symmetry.specs.Vectors.{Vector};
ghost use Rattle.symmetry.specs.Motions.{Motion};
ghost use Rattle.symmetry.specs.Planes.{Height, IsCoprime, IsHeight};
ghost use Rattle.symmetry.specs.Groups.{InStabiliser, IsGroup, Listing};
ghost use Rattle.symmetry.specs.Frames.{Basis, IsFrame};
ghost use Rattle.symmetry.specs.Lists.{IsHomeList, ListsInPlane};
ghost use Rattle.symmetry.specs.Scans.{GivesAt, IsInPeriod, IsLower, IsScan, Scan, SpecialHeight, StandsAt, heights_of};

/// Each height stands over at most one of the listed heights, by one number of periods.
pub fn stands_once()
    ensures { (d : ℤ) (special : List SpecialHeight) → All (IsInPeriod d) (heights_of special) →
        AllPairs IsLower (heights_of special) → (s : Height) → IsHeight s →
        (i : ℕ) (j : ℕ) (k : ℤ) (l : ℤ) → StandsAt d special s i k → StandsAt d special s j l →
        (j ≡ i) × (l ≡ k) }
{}

/// What a scan gives at a height is the list of its stabiliser, and lists it modulo the plane lattice: at k periods above a
/// special height the operations there, conjugated by k tau and brought home. At each height it gives something.
pub fn scan_gives()
    ensures list { (g : Listing) (r : Vector) (f : Basis) (scan : Scan) (s : Height)
        (ops : List Motion) → IsGroup g → IsCoprime r → IsFrame g r f → IsScan g r f scan →
        IsHeight s → GivesAt g r f scan s ops → IsHomeList g f (InStabiliser g r s) ops }
    ensures plane { (g : Listing) (r : Vector) (f : Basis) (scan : Scan) (s : Height)
        (ops : List Motion) → IsGroup g → IsCoprime r → IsFrame g r f → IsScan g r f scan →
        IsHeight s → GivesAt g r f scan s ops → ListsInPlane g r (InStabiliser g r s) ops }
    ensures some { (g : Listing) (r : Vector) (f : Basis) (scan : Scan) (s : Height) →
        IsFrame g r f → IsScan g r f scan → IsHeight s →
        (ops : List Motion) × GivesAt g r f scan s ops }
{}
