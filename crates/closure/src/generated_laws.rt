// Laws of the group that operations generate. A call does nothing: its contract is the law.
ghost use Rattle.std.specs.Prelude.{◌≡◌, ◌≢◌, ◌↔◌, List};
ghost use Rattle.symmetry.specs.Motions.{followed_by, identity, Motion};
ghost use Rattle.symmetry.specs.Groups.{IsGroup, IsMember, Listing};
ghost use Rattle.symmetry.specs.Listings.{AreAlike};
ghost use Rattle.symmetry.specs.Vectors.{image, opposite, plus, Vector};
ghost use Rattle.closure.specs.declared.group.Group.{Group};
ghost use Rattle.closure.specs.declared.generated_error.GeneratedError.{GeneratedError};
ghost use Rattle.closure.specs.declared.generated_error.GeneratedError.TheVariants.{NoMemory};
ghost use Rattle.closure.specs.Generated.{AllInvertible, InGeneratedLattice, IsDerived, IsDerivedListing, IsGenerated, single_kind};
ghost use Rattle.quotient.specs.Closure.{IsProduct};
ghost use Rattle.closure.specs.Groups.{group_listing, IsGroupOf};
ghost use Rattle.closure.specs.GroupErrors.{IsWithinLimits};
ghost use Rattle.closure.specs.Derived.{GeneratesWithinLimits, IsGeneratedError};

/// It is enough to multiply with translations by single cell edges and centring vectors, and by their opposites.
pub fn generated_by_single_shifts()
    ensures { (g : Listing) (m : Motion) → IsGenerated g m ↔ IsProduct (single_kind g) g.ops m }
{}

/// What is generated is a group, where each listed matrix has an inverse: each product of two members is one, and each
/// member has an inverse on both sides that is one.
pub fn generated_is_group()
    ensures products { (g : Listing) (m n : Motion) → IsGenerated g m → IsGenerated g n
        → IsGenerated g (followed_by m n) }
    ensures inverses { (g : Listing) → AllInvertible g → (m : Motion) → IsGenerated g m →
        (n : Motion) × IsGenerated g n × (followed_by m n ≡ identity)
        × (followed_by n m ≡ identity) }
{}

/// The vectors of its translations are a lattice, which the matrices of its members take into itself.
pub fn generated_translations()
    ensures sums { (g : Listing) (v w : Vector) → InGeneratedLattice g v → InGeneratedLattice g w
        → InGeneratedLattice g (plus v w) }
    ensures opposites { (g : Listing) → AllInvertible g → (v : Vector) → InGeneratedLattice g v
        → InGeneratedLattice g (opposite v) }
    ensures images { (g : Listing) → AllInvertible g → (m : Motion) (v : Vector) → IsGenerated g m
        → InGeneratedLattice g v → InGeneratedLattice g (image m.matrix v) }
{}

/// The listing of what is generated is a group, and its members are those that are generated.
pub fn derived_listing()
    ensures members { (g h : Listing) → AllInvertible g → IsDerivedListing g h → (m : Motion)
        → IsGenerated g m ↔ IsMember h m }
    ensures group { (g h : Listing) → AllInvertible g → IsDerivedListing g h → IsGroup h }
    ensures within { (g h : Listing) → GeneratesWithinLimits g → IsDerivedListing g h
        → IsWithinLimits h }
{}

/// There is one derived list.
pub fn one_derived_list()
    ensures { (g : Listing) (list list' : List Motion) → AllInvertible g → IsDerived g list
        → IsDerived g list' → list ≡ list' }
{}

/// What is listed has one error at most, but for want of memory, which has no cause.
pub fn one_generated_error()
    ensures { (g : Listing) (error error' : GeneratedError) → error ≢ NoMemory → error' ≢ NoMemory →
        IsGeneratedError g error → IsGeneratedError g error' → error ≡ error' }
{}

/// What generates a group within the limits has no error but want of memory.
pub fn no_generated_and_error()
    ensures { (g : Listing) (error : GeneratedError) → GeneratesWithinLimits g
        → IsGeneratedError g error → error ≡ NoMemory }
{}

/// All listings of what is generated are alike, and a Group that is made of it is the group of each of them.
pub fn group_of_derived_listing()
    ensures alike { (g h h' : Listing) → AllInvertible g → IsDerivedListing g h
        → IsDerivedListing g h' → AreAlike h h' }
    ensures group { (g h : Listing) (group : Group) → AllInvertible g → IsDerivedListing g h
        → IsDerivedListing g (group_listing group) → IsGroupOf h group }
{}
