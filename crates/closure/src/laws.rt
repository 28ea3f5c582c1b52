// A group is one of its own listing, and why what is listed is none has one answer. A call does nothing: its contract is
// the law.
ghost use Rattle.std.specs.Prelude.{◌≡◌, ◌≢◌};
ghost use Rattle.symmetry.specs.Groups.{IsGroup, Listing};
ghost use Rattle.closure.specs.declared.group.Group.{Group};
ghost use Rattle.closure.specs.declared.group_error.GroupError.{GroupError};
ghost use Rattle.closure.specs.declared.group_error.GroupError.TheVariants.{NoMemory};
ghost use Rattle.closure.specs.GroupErrors.{IsGroupError, IsWithinLimits};
ghost use Rattle.closure.specs.Groups.{group_listing, IsGroupOf};

/// Each group is the group of what it lists.
pub fn own_group()
    ensures { (group : Group) → IsGroupOf (group_listing group) group }
{}

/// What is listed has one error at most, but for want of memory, which has no cause.
pub fn one_group_error()
    ensures { (g : Listing) (error error' : GroupError) → error ≢ NoMemory → error' ≢ NoMemory →
        IsGroupError g error → IsGroupError g error' → error ≡ error' }
{}

/// A group within the limits has no error but want of memory.
pub fn no_group_and_error()
    ensures { (g : Listing) (error : GroupError) → IsWithinLimits g → IsGroup g
        → IsGroupError g error → error ≡ NoMemory }
{}
