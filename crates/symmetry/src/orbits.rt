// The orbits of the planes of an orientation.
ghost use Rattle.std.specs.Prelude.{◌≡◌, ◌↔◌, ◌+ℤ◌, ◌*ℤ◌, ℤ, List, Any, Contains, length};
ghost use Rattle.fractions.specs.declared.part.TheConstants.{UNIT};
ghost use Rattle.symmetry.specs.Vectors.{Vector, dot, multiple, row_times};
ghost use Rattle.symmetry.specs.Motions.{Motion};
ghost use Rattle.symmetry.specs.Planes.{Height, IsCoprime, IsHeight};
ghost use Rattle.symmetry.specs.Groups.{IsGroup, Listing};
ghost use Rattle.symmetry.specs.Frames.{Basis, IsFrame};
ghost use Rattle.symmetry.specs.Orbits.{AreInOneOrbit, IsPlaneCount};
ghost use Rattle.symmetry.specs.HeightMotions.{AreHeightMotions, HeightMotion, IsSign, TakesHeight};

/// To be in one orbit is an equivalence of heights.
pub fn orbits_are_classes()
    ensures reflexive { (g : Listing) (r : Vector) → IsGroup g → IsCoprime r → (s : Height) →
        IsHeight s → AreInOneOrbit g r s s }
    ensures symmetric { (g : Listing) (r : Vector) → IsGroup g → IsCoprime r →
        (s : Height) (t : Height) → IsHeight s → IsHeight t →
        AreInOneOrbit g r s t → AreInOneOrbit g r t s }
    ensures transitive { (g : Listing) (r : Vector) → IsGroup g → IsCoprime r →
        (s : Height) (t : Height) (u : Height) → IsHeight s → IsHeight t → IsHeight u →
        AreInOneOrbit g r s t → AreInOneOrbit g r t u → AreInOneOrbit g r s u }
{}

/// Two heights are in one orbit exactly where a listed operation with (hkl) W = e (hkl), and a whole number k of periods,
/// take the one to the other: e s + (hkl).w + k d = s'.
pub fn orbit_by_listed()
    ensures { (g : Listing) (r : Vector) (f : Basis) → IsFrame g r f → IsGroup g → IsCoprime r →
        (s : Height) (t : Height) → IsHeight s → IsHeight t → AreInOneOrbit g r s t
        ↔ ((n : Motion) × (e : ℤ) × (k : ℤ) × Contains g.ops n × IsSign e
        × (row_times r n.matrix ≡ multiple e r)
        × ((e *ℤ s.num *ℤ UNIT +ℤ s.den *ℤ (dot r n.translation +ℤ k *ℤ dot r f.tau)) *ℤ t.den
        ≡ t.num *ℤ (UNIT *ℤ s.den))) }
{}

/// So what the listed operations do to the planes, each once, tells which heights are in one orbit, and how many planes
/// the orbit of each general height has in a period: as many as there are such motions of the planes.
pub fn orbits_by_height_motions()
    ensures orbits { (g : Listing) (r : Vector) (f : Basis) → IsFrame g r f → IsGroup g →
        IsCoprime r → (hs : List HeightMotion) → AreHeightMotions g r (dot r f.tau) hs →
        (s : Height) (t : Height) → IsHeight s → IsHeight t →
        AreInOneOrbit g r s t ↔ Any (TakesHeight (dot r f.tau) s t) hs }
    ensures planes { (g : Listing) (r : Vector) (f : Basis) → IsFrame g r f → IsGroup g →
        IsCoprime r → (hs : List HeightMotion) →
        AreHeightMotions g r (dot r f.tau) hs → IsPlaneCount g r (dot r f.tau) (length hs) }
{}
