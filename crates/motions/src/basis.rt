// Three vectors that a frame is made of.
ghost use Rattle.std.specs.Prelude.{◌*◌, unsigned_abs};
ghost use Rattle.fractions.specs.declared.part.TheConstants.{UNIT};
ghost use Rattle.symmetry.specs.Sizes.{IsVectorWithin};
ghost use Rattle.motions.specs.Views.{parts};

use fractions::Part;

/// How large an entry of a frame vector may be, in cell edges.
pub const MOST_ENTRY: u128 = 1000;

/// How large a matrix entry of a scanning operation may be, written in a frame.
pub const MAX_COEFFICIENT: u128 = 500;

/// Three vectors: a and b, which are to span the planes of an orientation, and tau, which is to lead from one plane
/// to the next. Each entry is at most 1000 cell edges in size.
#[derive(Clone, Copy, PartialEq, Eq, Debug)]
pub struct Basis {
    pub a: [Part; 3],
    pub b: [Part; 3],
    pub tau: [Part; 3],
    pub ghost a_in_range: { IsVectorWithin (1000 * unsigned_abs UNIT) (parts a) },
    pub ghost b_in_range: { IsVectorWithin (1000 * unsigned_abs UNIT) (parts b) },
    pub ghost tau_in_range: { IsVectorWithin (1000 * unsigned_abs UNIT) (parts tau) },
}

/// Why a basis is no frame of a group and an orientation, or none that is taken.
#[derive(Clone, Copy, PartialEq, Eq, Debug)]
pub enum FrameFault {
    /// It is no frame.
    NotFrame,
    /// A scanning operation, written in it, has a matrix entry above 500 in size.
    Skewed,
}
