// A frame of an orientation of planes.
ghost use Rattle.std.specs.Prelude.{◌≡◌, ◌≤ℤ◌, pos};
ghost use Rattle.fractions.specs.declared.part.TheConstants.{UNIT};
ghost use Rattle.symmetry.specs.Sizes.{IsVectorWithin};
ghost use Rattle.symmetry.specs.Vectors.{dot};
ghost use Rattle.motions.specs.Views.{parts, row_of};
ghost use Rattle.closure.specs.Fineness.{IsTooFine};
ghost use Rattle.plane_lattice.specs.Bounds.{largest_entry};
ghost use Rattle.plane_lattice.specs.Coordinates.{HoldsEdges, listing_of_basis, vectors, volume};

use crate::coordinates::edge_coordinate;
use crate::dual_basis::DualBasis;
use fractions::{Part, Ratio};
use motions::{Basis, Miller};

/// A frame of an orientation of planes: the vectors a and b span the planes, and tau leads from one to the next of
/// the same kind. Together they are a right-handed basis of the translation lattice, which has at most 64 residues modulo
/// the cell edges.
///
/// `period` is (hkl).tau, the distance of planes of the same kind. `c` is the vector c', the mean of e W tau over the
/// scanning operations, whose direction each of these keeps but for its sign. Vectors and the period are counted in
/// parts of the cell edges, and `c` in the edges themselves (International Tables, Volume E).
#[derive(Clone, Copy, PartialEq, Eq, Debug)]
pub struct Frame {
    pub plane: Miller,
    pub a: [Part; 3],
    pub b: [Part; 3],
    pub tau: [Part; 3],
    pub period: Part,
    pub c: [Ratio; 3],
    pub ghost a_in_range: { IsVectorWithin largest_entry (parts a) },
    pub ghost b_in_range: { IsVectorWithin largest_entry (parts b) },
    pub ghost tau_in_range: { IsVectorWithin largest_entry (parts tau) },
    pub ghost a_in_plane: { dot (row_of plane) (parts a) ≡ pos 0 },
    pub ghost b_in_plane: { dot (row_of plane) (parts b) ≡ pos 0 },
    pub ghost tau_gives: { dot (row_of plane) (parts tau) ≡ period.0 },
    pub ghost above: { pos 1 ≤ℤ period.0 },
    pub ghost right_handed: { pos 1 ≤ℤ volume (vectors a b tau) },
    pub ghost holds_edges: { ∥ HoldsEdges (vectors a b tau) ∥₁ },
    pub ghost fine: { ∥ ¬ IsTooFine (listing_of_basis (vectors a b tau)) ∥₁ },
}

impl Frame {
    ghost use Rattle.std.specs.Prelude.{ℤ, ◌^◌, FitsSigned};
    ghost use Rattle.std.specs.Int.{w64};
    ghost use Rattle.symmetry.specs.Frames.{combination};
    ghost use Rattle.symmetry.specs.Vectors.{Vector, multiple};
    ghost use Rattle.motions.specs.BasisView.{basis_of};
    ghost use Rattle.motions.specs.Views.{vector_of};
    ghost use Rattle.plane_lattice.specs.Coordinates.{FitsWord};
    ghost use Rattle.plane_lattice.specs.FrameView.{basis_of_frame};

    /// The vectors a, b and tau.
    pub fn basis(&self) -> Basis
        ensures { basis_of result ≡ basis_of_frame self.now }
    {
        Basis {
            a: self.a,
            b: self.b,
            tau: self.tau,
        }
    }

    /// Their dual basis.
    pub fn dual(&self) -> DualBasis
        ensures { basis_of result.basis ≡ basis_of_frame self.now }
    {
        DualBasis::make(self.basis())
    }

    /// The numbers x, y and z of parts for which x a + y b + z tau is the vector, counted in parts of these too.
    ///
    /// Each entry of the vector is at most 2^52 in size, and each of the three numbers fits an `i64`.
    pub fn coords(&self, v: [Part; 3]) -> [i64; 3]
        requires vector { IsVectorWithin (2 ^ 52) (parts v) }
        requires fits { (c : Vector) →
            combination (basis_of_frame self.now) c ≡ multiple UNIT (parts v) → FitsWord c }
        ensures { combination (basis_of_frame self.now) (vector_of result)
            ≡ multiple UNIT (parts v) }
    {
        let dual = self.dual();
        let [x, y, z] = dual.scaled(&v);
        [
            edge_coordinate(x, dual.volume),
            edge_coordinate(y, dual.volume),
            edge_coordinate(z, dual.volume),
        ]
    }
}
