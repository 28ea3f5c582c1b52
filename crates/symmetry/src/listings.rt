// Listings of one group: what is said of the one is said of the other.
ghost use Rattle.std.specs.Prelude.{◌↔◌, ℕ, ℤ, List};
ghost use Rattle.symmetry.specs.Vectors.{Vector};
ghost use Rattle.symmetry.specs.Motions.{Motion};
ghost use Rattle.symmetry.specs.Planes.{Height};
ghost use Rattle.symmetry.specs.Groups.{FixesEveryPlane, InStabiliser, IsGroup, Listing, SameModulo};
ghost use Rattle.symmetry.specs.Frames.{Basis, IsFrame, IsPeriod, IsSkewed, IsSpecial};
ghost use Rattle.symmetry.specs.Lists.{AreScanning, IsHomeList};
ghost use Rattle.symmetry.specs.Scans.{IsInOneClass, IsScan, Scan, SpecialHeight};
ghost use Rattle.symmetry.specs.Orbits.{AreInOneOrbit, AreOrbitNumbers, IsPlaneCount};
ghost use Rattle.symmetry.specs.Listings.{AreAlike};

/// To be listings of one group is an equivalence.
pub fn alike_is_equivalence()
    ensures reflexive { (g : Listing) → AreAlike g g }
    ensures symmetric { (g h : Listing) → AreAlike g h → AreAlike h g }
    ensures transitive { (g h k : Listing) → AreAlike g h → AreAlike h k → AreAlike g k }
{}

/// Listings of one group have one sameness, and are groups modulo the lattice together.
pub fn alike_groups()
    ensures same { (g h : Listing) → AreAlike g h → (m n : Motion) →
        SameModulo g m n ↔ SameModulo h m n }
    ensures group { (g h : Listing) → AreAlike g h → IsGroup g ↔ IsGroup h }
{}

/// They have the same frames, the same of them skewed, and the same periods and special heights.
pub fn alike_frames()
    ensures frame { (g h : Listing) → AreAlike g h → (r : Vector) (f : Basis) →
        IsFrame g r f ↔ IsFrame h r f }
    ensures skewed { (g h : Listing) → AreAlike g h → (r : Vector) (f : Basis) →
        IsSkewed g r f ↔ IsSkewed h r f }
    ensures period { (g h : Listing) → AreAlike g h → (r : Vector) (d : ℤ) →
        IsPeriod g r d ↔ IsPeriod h r d }
    ensures special { (g h : Listing) → AreAlike g h → (r : Vector) (s : Height) →
        IsSpecial g r s ↔ IsSpecial h r s }
{}

/// They have the same lists of scanning operations, of the stabiliser of a plane, and of the motions that map every plane
/// to itself.
pub fn alike_lists()
    ensures scanning { (g h : Listing) → AreAlike g h → (r : Vector) (ms : List Motion) →
        AreScanning g r ms ↔ AreScanning h r ms }
    ensures stabiliser { (g h : Listing) → AreAlike g h →
        (r : Vector) (f : Basis) (s : Height) (ms : List Motion) →
        IsHomeList g f (InStabiliser g r s) ms
        ↔ IsHomeList h f (InStabiliser h r s) ms }
    ensures all { (g h : Listing) → AreAlike g h → (r : Vector) (f : Basis) (ms : List Motion) →
        IsHomeList g f (FixesEveryPlane g r) ms
        ↔ IsHomeList h f (FixesEveryPlane h r) ms }
{}

/// Each height is in the same class, and a scan of the one is a scan of the other.
pub fn alike_scans()
    ensures classes { (g h : Listing) → AreAlike g h →
        (r : Vector) (d : ℤ) (special : List SpecialHeight) (s : Height) →
        IsInOneClass g r d special s ↔ IsInOneClass h r d special s }
    ensures scan { (g h : Listing) → AreAlike g h → (r : Vector) (f : Basis) (scan : Scan) →
        IsScan g r f scan ↔ IsScan h r f scan }
{}

/// The same planes are in one orbit, with the same numbers of orbits and of planes in each.
pub fn alike_orbits()
    ensures orbit { (g h : Listing) → AreAlike g h → (r : Vector) (s t : Height) →
        AreInOneOrbit g r s t ↔ AreInOneOrbit h r s t }
    ensures numbers { (g h : Listing) → AreAlike g h →
        (r : Vector) (heights : List Height) (numbers : List ℕ) →
        AreOrbitNumbers g r heights numbers ↔ AreOrbitNumbers h r heights numbers }
    ensures planes { (g h : Listing) → AreAlike g h → (r : Vector) (d : ℤ) (n : ℕ) →
        IsPlaneCount g r d n ↔ IsPlaneCount h r d n }
{}
