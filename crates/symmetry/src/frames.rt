// What a frame gives: the period, the plane lattice, the special heights, and the vector that scanning operations keep.
ghost use Rattle.std.specs.Prelude.{◌≡◌, ◌*ℤ◌, ◌+ℤ◌, ◌↔◌, ℤ, List, Contains, pos};
ghost use Rattle.fractions.specs.declared.part.TheConstants.{UNIT};
ghost use Rattle.symmetry.specs.Vectors.{Vector, dot, image, multiple, opposite, row_times};
ghost use Rattle.symmetry.specs.Motions.{Motion};
ghost use Rattle.symmetry.specs.Planes.{Height, IsHeight, IsCoprime};
ghost use Rattle.symmetry.specs.Groups.{IsMember, Listing, IsGroup, IsInLattice, SameModulo};
ghost use Rattle.symmetry.specs.Frames.{IsSpecial, Basis, IsFrame, IsPeriod, DiffersInPlane, InPlaneLattice, KeepsOrientation, combination, mean_of, sign_at};
ghost use Rattle.symmetry.specs.Lists.{AreScanning};

/// An orientation has one period.
pub fn period_agrees()
    ensures { (g : Listing) (r : Vector) (d : ℤ) (d' : ℤ) → IsPeriod g r d → IsPeriod g r d' →
        d ≡ d' }
{}

/// In a frame a, b, tau the number (hkl).tau is the period, of which every (hkl).t of the lattice is a whole multiple, and
/// the plane lattice is what a and b span.
pub fn frame_gives()
    ensures period { (g : Listing) (r : Vector) (f : Basis) → IsFrame g r f →
        IsPeriod g r (dot r f.tau) }
    ensures multiples { (g : Listing) (r : Vector) (f : Basis) → IsFrame g r f → (t : Vector) →
        IsInLattice g t → (k : ℤ) × (dot r t ≡ k *ℤ dot r f.tau) }
    ensures plane { (g : Listing) (r : Vector) (f : Basis) → IsFrame g r f → (t : Vector) →
        InPlaneLattice g r t ↔ ((c : Vector) × (combination f c ≡ t) × (c.z ≡ pos 0)) }
{}

/// To differ by the plane lattice is an equivalence, under which motions are the same modulo the lattice and have one (hkl).w.
pub fn difference_in_plane()
    ensures reflexive { (g : Listing) (r : Vector) (m : Motion) → DiffersInPlane g r m m }
    ensures symmetric { (g : Listing) (r : Vector) (m : Motion) (n : Motion) →
        DiffersInPlane g r m n → DiffersInPlane g r n m }
    ensures transitive { (g : Listing) (r : Vector) (k : Motion) (m : Motion) (n : Motion) →
        DiffersInPlane g r k m → DiffersInPlane g r m n → DiffersInPlane g r k n }
    ensures same { (g : Listing) (r : Vector) (m : Motion) (n : Motion) → DiffersInPlane g r m n →
        SameModulo g m n }
    ensures level { (g : Listing) (r : Vector) (m : Motion) (n : Motion) → DiffersInPlane g r m n →
        dot r m.translation ≡ dot r n.translation }
{}

/// A height is special exactly where, for a listed operation that turns the row, twice the height is (hkl).w and a whole
/// number of periods.
pub fn special_by_listed()
    ensures { (g : Listing) (r : Vector) (f : Basis) → IsFrame g r f → (s : Height) → IsGroup g →
        IsCoprime r → IsHeight s → IsSpecial g r s
        ↔ ((n : Motion) × (k : ℤ) × Contains g.ops n × (row_times r n.matrix ≡ opposite r)
        × (pos 2 *ℤ s.num *ℤ UNIT ≡ s.den *ℤ (dot r n.translation +ℤ k *ℤ dot r f.tau))) }
{}

/// Each member that keeps the orientation keeps the vector c', but for its sign: W c' = e c'.
pub fn mean_is_kept()
    ensures { (g : Listing) (r : Vector) (ms : List Motion) → IsGroup g → IsCoprime r →
        AreScanning g r ms → (tau : Vector) (m : Motion) → IsMember g m → KeepsOrientation r m →
        image m.matrix (mean_of r tau ms).at ≡ multiple (sign_at r m) (mean_of r tau ms).at }
{}
