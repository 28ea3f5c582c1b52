// What flat operations list and generate is a plane group. A call does nothing: its contract is the law.
ghost use Rattle.symmetry.specs.Groups.{Listing};
ghost use Rattle.closure.specs.declared.group.Group.{Group};
ghost use Rattle.closure.specs.Generated.{IsDerivedListing};
ghost use Rattle.closure.specs.Groups.{group_listing, IsGroupOf};
ghost use Rattle.plane_motions.specs.PlaneMotions.{IsFlatListing};
ghost use Rattle.plane_groups.specs.PlaneGroups.{IsFlatGroup};

/// Flat operations with centring vectors in the plane list a plane group, and so does the Group that is made of them.
pub fn flat_group()
    ensures listing { (g : Listing) → IsFlatListing g → IsFlatGroup g }
    ensures group { (g : Listing) (group : Group) → IsFlatListing g → IsGroupOf g group →
        IsFlatGroup (group_listing group) }
{}

/// They generate a plane group: each listing of what they generate lists one, and so does the Group made of it.
pub fn flat_group_of_generators()
    ensures listing { (generators g : Listing) → IsFlatListing generators →
        IsDerivedListing generators g → IsFlatGroup g }
    ensures group { (generators g : Listing) (group : Group) → IsFlatListing generators →
        IsDerivedListing generators g → IsGroupOf g group → IsFlatGroup (group_listing group) }
{}

/// The Group of a plane group lists flat operations, and the residues of its lattice lie in the plane.
pub fn listing_of_flat_group()
    ensures { (group : Group) →
        IsFlatGroup (group_listing group) → IsFlatListing (group_listing group) }
{}
