// The sense in which the first vector of a basis points.
ghost use Rattle.std.specs.Prelude.{◌↔◌, IsTrue};
ghost use Rattle.symmetry.specs.Groups.{Listing};
ghost use Rattle.symmetry.specs.Sizes.{IsVectorWithin};
ghost use Rattle.symmetry.specs.Vectors.{Matrix, Vector};
ghost use Rattle.motions.specs.Views.{vector_of};
ghost use Rattle.reduction.specs.BasisView.{vectors_of};
ghost use Rattle.reduction.specs.Bounds.{largest_short};
ghost use Rattle.reduction.specs.Forms.{by_form};
ghost use Rattle.reduction.specs.LatticeBases.{IsAdapted};
ghost use Rattle.reduction.specs.LeadingEntries.{IsBackward};
ghost use Rattle.reduction.specs.Reduced.{IsReduced};

use crate::lattice_basis::LatticeBasis;
use crate::shorten::opposite;

/// Whether the first entry that is not 0 is negative.
fn is_backward(v: &[i64; 3]) -> bool
    ensures { IsTrue result ↔ IsBackward (vector_of v.now) }
{
    v[0] < 0 || v[0] == 0 && (v[1] < 0 || v[1] == 0 && v[2] < 0)
}

/// The basis, with the opposite of a where the first entry of a that is not 0 is negative.
pub(crate) fn with_forward_first(basis: &LatticeBasis) -> LatticeBasis
    requires a { IsVectorWithin largest_short (vector_of basis.now.a) }
    requires b { IsVectorWithin largest_short (vector_of basis.now.b) }
    ensures adapted { (g : Listing) (r : Vector) → IsAdapted g r (vectors_of basis.now) →
        IsAdapted g r (vectors_of result) }
    ensures reduced { (g : Matrix) → IsReduced (by_form g) (vectors_of basis.now) →
        IsReduced (by_form g) (vectors_of result) }
    ensures a { IsVectorWithin largest_short (vector_of result.a) }
    ensures b { IsVectorWithin largest_short (vector_of result.b) }
    ensures forward { ¬ IsBackward (vector_of result.a) }
{
    if is_backward(&basis.a) {
        LatticeBasis {
            a: opposite(&basis.a),
            b: basis.b,
            tau: basis.tau,
        }
    } else {
        *basis
    }
}
