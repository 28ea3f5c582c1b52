// Three vectors that span a lattice, and the first such three.
ghost use Rattle.std.specs.Prelude.{◌≡◌};
ghost use Rattle.motions.specs.Views.{parts, vector_of};
ghost use Rattle.symmetry.specs.Sizes.{IsVectorWithin};
ghost use Rattle.closure.specs.Groups.{group_listing};
ghost use Rattle.reduction.specs.BasisView.{vectors_of};
ghost use Rattle.reduction.specs.Bounds.{largest_first};
ghost use Rattle.reduction.specs.LatticeBases.{IsLatticeBasis};

use crate::leading::least_along;
use closure::Group;
use fractions::Part;

/// Three vectors, in parts. While they are made they may be longer than those of a frame.
#[derive(Clone, Copy)]
pub(crate) struct LatticeBasis {
    pub(crate) a: [i64; 3],
    pub(crate) b: [i64; 3],
    pub(crate) tau: [i64; 3],
}

/// The numbers of parts.
fn numbers(v: &[Part; 3]) -> [i64; 3]
    ensures { vector_of result ≡ parts v.now }
{
    [v[0].0, v[1].0, v[2].0]
}

/// A basis of the lattice of the group, in triangular form: b lies along the third edge, and tau has no first entry.
///
/// In this order the edges of a primitive cell become the frame of (001).
pub(crate) fn triangular_basis(group: &Group) -> LatticeBasis
    ensures basis { IsLatticeBasis (group_listing group.now) (vectors_of result) }
    ensures a { IsVectorWithin largest_first (vector_of result.a) }
    ensures b { IsVectorWithin largest_first (vector_of result.b) }
    ensures tau { IsVectorWithin largest_first (vector_of result.tau) }
{
    let residues = group.lattice().residues();
    let first = least_along(residues, 0);
    let second = least_along(residues, 1);
    let third = least_along(residues, 2);
    LatticeBasis {
        a: numbers(&first),
        b: numbers(&third),
        tau: numbers(&second),
    }
}
