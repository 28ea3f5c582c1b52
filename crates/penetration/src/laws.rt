// Laws on rods. A call does nothing: its contract is the law.
ghost use Rattle.std.specs.Prelude.{List, Option};
ghost use Rattle.symmetry.specs.Vectors.{Vector};
ghost use Rattle.symmetry.specs.Motions.{Motion, Point};
ghost use Rattle.symmetry.specs.Groups.{Listing};
ghost use Rattle.symmetry.specs.Frames.{Basis};
ghost use Rattle.symmetry.specs.Listings.{AreAlike};
ghost use Rattle.motions.specs.declared.basis.FrameFault.{FrameFault};
ghost use Rattle.recognition.specs.declared.found_rod.FoundRod.{FoundRod};
ghost use Rattle.penetration.specs.FrameOf.{IsRodFrameFault};
ghost use Rattle.penetration.specs.RodFrames.{AreRodOperations, IsRodFrame, IsRodSkewed};
ghost use Rattle.penetration.specs.RodView.{IsRodAlong};

/// Listings of one group have the same rod frames, with the same axis, skewed or not, and vectors are at fault in both alike;
/// the same lists are their rod operations, and they have the same rods.
pub fn alike_rods()
    ensures frame { (g h : Listing) → AreAlike g h → (u : Vector) (f : Basis)
        → IsRodFrame h u f → IsRodFrame g u f }
    ensures skewed { (g h : Listing) → AreAlike g h → (u : Vector) (f : Basis)
        → IsRodSkewed h u f → IsRodSkewed g u f }
    ensures fault { (g h : Listing) → AreAlike g h → (u a b : Vector) (fault : FrameFault)
        → IsRodFrameFault h u a b fault → IsRodFrameFault g u a b fault }
    ensures rods { (g h : Listing) → AreAlike g h → (u : Vector) (rods : List Motion)
        → AreRodOperations h u rods → AreRodOperations g u rods }
    ensures rod { (g h : Listing) → AreAlike g h → (u : Vector) (f : Basis) (p : Point)
        → (ms : List Motion) (change : Option FoundRod)
        → IsRodAlong h u f p ms change → IsRodAlong g u f p ms change }
{}
