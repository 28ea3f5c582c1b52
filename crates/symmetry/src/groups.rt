// The lattice, sameness modulo the lattice, and which listings are groups.
ghost use Rattle.std.specs.Prelude.{◌↔◌};
ghost use Rattle.symmetry.specs.Vectors.{Vector, image, minus, opposite, plus};
ghost use Rattle.symmetry.specs.Motions.{Motion, translation};
ghost use Rattle.symmetry.specs.Groups.{Generates, IsGroup, IsInLattice, IsListedGroup, IsMember, Listing, SameModulo};

/// The lattice has the vectors that it is made of, their sums, differences and opposites.
pub fn lattice_is_group()
    ensures made { (g : Listing) (v : Vector) → Generates g v → IsInLattice g v }
    ensures sums { (g : Listing) (s : Vector) (t : Vector) → IsInLattice g s → IsInLattice g t →
        IsInLattice g (plus s t) }
    ensures differences { (g : Listing) (s : Vector) (t : Vector) → IsInLattice g s →
        IsInLattice g t → IsInLattice g (minus s t) }
    ensures opposites { (g : Listing) (t : Vector) → IsInLattice g t → IsInLattice g (opposite t) }
{}

/// To be the same modulo the lattice is an equivalence.
pub fn sameness_is_equivalence()
    ensures reflexive { (g : Listing) (m : Motion) → SameModulo g m m }
    ensures symmetric { (g : Listing) (m : Motion) (n : Motion) → SameModulo g m n →
        SameModulo g n m }
    ensures transitive { (g : Listing) (k : Motion) (m : Motion) (n : Motion) →
        SameModulo g k m → SameModulo g m n → SameModulo g k n }
{}

/// The listed operations alone tell whether the motions that are the same as a listed one modulo the lattice are a group.
pub fn group_by_listed()
    ensures { (g : Listing) → IsListedGroup g ↔ IsGroup g }
{}

/// In a group the members with unit matrix are the translations by the lattice, and each member takes the lattice into
/// itself.
pub fn lattice_in_group()
    ensures translations { (g : Listing) (t : Vector) → IsGroup g →
        IsMember g (translation t) ↔ IsInLattice g t }
    ensures images { (g : Listing) (m : Motion) (t : Vector) → IsGroup g → IsMember g m →
        IsInLattice g t → IsInLattice g (image m.matrix t) }
{}
