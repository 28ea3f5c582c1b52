// The list of a set of motions: one for each set, and of the whole set modulo the plane lattice.
ghost use Rattle.std.specs.Prelude.{◌≡◌, ◌↔◌, List, ⊤};
ghost use Rattle.symmetry.specs.Vectors.{Vector};
ghost use Rattle.symmetry.specs.Motions.{Motion};
ghost use Rattle.symmetry.specs.Planes.{Height, IsCoprime, IsHeight};
ghost use Rattle.symmetry.specs.Groups.{FixesEveryPlane, FixesEveryPlaneByRow, InRowStabiliser, InStabiliser, IsGroup, Listing, SameModulo};
ghost use Rattle.symmetry.specs.Frames.{Basis, IsAtHome, IsFrame};
ghost use Rattle.symmetry.specs.Lists.{HasOneAtHome, IsHomeList, ListsInPlane};

/// Two lists of the stabiliser of a plane, or of the motions that map every plane to itself, are equal: a set has one list.
pub fn lists_agree()
    ensures stabiliser { (g : Listing) (r : Vector) (f : Basis) (s : Height) (ms : List Motion)
        (ns : List Motion) → IsHomeList g f (InStabiliser g r s) ms →
        IsHomeList g f (InStabiliser g r s) ns → ms ≡ ns }
    ensures all { (g : Listing) (r : Vector) (f : Basis) (ms : List Motion) (ns : List Motion) →
        IsHomeList g f (FixesEveryPlane g r) ms →
        IsHomeList g f (FixesEveryPlane g r) ns → ms ≡ ns }
{}

/// The stabiliser, and the motions that map every plane to itself, have the lists of the sets that rows tell.
pub fn lists_by_rows()
    ensures stabiliser { (g : Listing) (r : Vector) (f : Basis) (s : Height) (ms : List Motion) →
        IsGroup g → IsCoprime r → IsHeight s →
        IsHomeList g f (InRowStabiliser g r s) ms ↔ IsHomeList g f (InStabiliser g r s) ms }
    ensures all { (g : Listing) (r : Vector) (f : Basis) (ms : List Motion) → IsGroup g →
        IsCoprime r → IsHomeList g f (FixesEveryPlaneByRow g r) ms
        ↔ IsHomeList g f (FixesEveryPlane g r) ms }
{}

/// In a frame each motion differs by the plane lattice from exactly one motion at home, which is in the stabiliser of a plane,
/// or among those that map every plane to itself, where the motion is.
pub fn one_is_at_home()
    ensures motion { (g : Listing) (r : Vector) (f : Basis) → IsFrame g r f → (m : Motion) →
        HasOneAtHome g r (IsAtHome f) (λ _. ⊤) m }
    ensures stabiliser { (g : Listing) (r : Vector) (f : Basis) (s : Height) → IsFrame g r f →
        (m : Motion) → InStabiliser g r s m → HasOneAtHome g r (IsAtHome f) (InStabiliser g r s) m }
    ensures all { (g : Listing) (r : Vector) (f : Basis) → IsFrame g r f → (m : Motion) →
        FixesEveryPlane g r m → HasOneAtHome g r (IsAtHome f) (FixesEveryPlane g r) m }
{}

/// So the lists of these sets list them modulo the plane lattice.
pub fn lists_in_plane()
    ensures stabiliser { (g : Listing) (r : Vector) (f : Basis) (s : Height) (ms : List Motion) →
        IsFrame g r f →
        IsHomeList g f (InStabiliser g r s) ms → ListsInPlane g r (InStabiliser g r s) ms }
    ensures all { (g : Listing) (r : Vector) (f : Basis) (ms : List Motion) → IsFrame g r f →
        IsHomeList g f (FixesEveryPlane g r) ms →
        ListsInPlane g r (FixesEveryPlane g r) ms }
{}

/// The stabiliser has at most one member at home for each listed operation, so the order of the listed operations is an
/// order of its list.
pub fn one_for_each_listed()
    ensures { (g : Listing) (r : Vector) (f : Basis) (s : Height) (m : Motion) (n : Motion) →
        IsFrame g r f → IsGroup g → IsCoprime r → IsHeight s → InStabiliser g r s m →
        InStabiliser g r s n → IsAtHome f m → IsAtHome f n → SameModulo g m n → m ≡ n }
{}
