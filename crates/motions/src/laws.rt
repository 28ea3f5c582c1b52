// What motions of a line are in space, and the limits in numbers, as contracts of functions that do nothing.
ghost use Rattle.std.specs.Prelude.{◌≡◌};
ghost use Rattle.symmetry.specs.Motions.{followed_by};
ghost use Rattle.motions.specs.FriezeMotions.{FriezeOperation, frieze_block, frieze_followed_by};
ghost use Rattle.motions.specs.RodMotions.{RodOperation, rod_block, rod_followed_by};
ghost use Rattle.motions.specs.declared.basis.TheConstants.{MAX_COEFFICIENT, MOST_ENTRY};

/// The product of two rod motions is, in space, the product of what they are in space.
pub fn product_of_rods()
    ensures { (m n : RodOperation) →
        followed_by (rod_block m) (rod_block n) ≡ rod_block (rod_followed_by m n) }
{}

/// The product of two frieze motions is, in space, the product of what they are in space.
pub fn product_of_friezes()
    ensures { (m n : FriezeOperation) →
        followed_by (frieze_block m) (frieze_block n) ≡ frieze_block (frieze_followed_by m n) }
{}

/// The limits that definitions name by their numbers.
pub fn limits_in_numbers()
    ensures entry { MOST_ENTRY ≡ 1000 }
    ensures coefficient { MAX_COEFFICIENT ≡ 500 }
{}
