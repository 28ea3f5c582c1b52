// The dual basis of three vectors, by which coordinates are told.
ghost use Rattle.std.specs.Prelude.{◌≡◌};
ghost use Rattle.integers.specs.Size.{IsWithin};
ghost use Rattle.symmetry.specs.Sizes.{IsMatrixWithin};
ghost use Rattle.motions.specs.BasisView.{basis_of};
ghost use Rattle.motions.specs.Views.{matrix_of};
ghost use Rattle.plane_lattice.specs.Bounds.{largest_cross, largest_scaled};
ghost use Rattle.plane_lattice.specs.Coordinates.{dual_rows, volume as volume_of};

use crate::coordinates::{cross, row_by_column};
use fractions::{Part, whole_quotient};
use motions::Basis;

/// The dual, or reciprocal, basis of three vectors a, b and tau, times their volume: the cross products b x tau, tau x a
/// and a x b as rows, and the volume (a x b).tau, which is positive where the three are right-handed.
///
/// A vector is x a + y b + z tau where the rows times the vector are the volume times x, y and z (Cramer's rule).
/// Vectors are counted in parts of the cell edges, the rows in their squares, and the volume in their cubes.
#[derive(Clone, Copy, PartialEq, Eq, Debug)]
pub struct DualBasis {
    pub basis: Basis,
    pub rows: [[i64; 3]; 3],
    pub volume: i128,
    pub ghost rows_are: { matrix_of rows ≡ dual_rows (basis_of basis) },
    pub ghost rows_small: { IsMatrixWithin largest_cross (matrix_of rows) },
    pub ghost volume_is: { volume ≡ volume_of (basis_of basis) },
    pub ghost volume_small: { IsWithin largest_scaled volume },
}

impl DualBasis {
    ghost use Rattle.std.specs.Prelude.{◌^◌, ◌≤ℤ◌, ◌↔◌, pos, IsTrue, MatchOption};
    ghost use Rattle.symmetry.specs.Frames.{combination};
    ghost use Rattle.symmetry.specs.Sizes.{IsVectorWithin};
    ghost use Rattle.motions.specs.Views.{parts, vector_of};
    ghost use Rattle.plane_lattice.specs.Coordinates.{IsCombination, IsPlaneCombination, scaled};

    /// The dual basis of three vectors.
    pub fn make(basis: Basis) -> DualBasis
        ensures { result.basis ≡ basis }
    {
        let rows = [
            cross(&basis.b, &basis.tau),
            cross(&basis.tau, &basis.a),
            cross(&basis.a, &basis.b),
        ];
        let volume = row_by_column(&rows[2], &basis.tau);
        DualBasis {
            basis,
            rows,
            volume,
        }
    }

    /// The coordinates of a vector in the basis, times the volume. Each entry of it is at most 2^52 parts in size.
    pub fn scaled(&self, v: &[Part; 3]) -> [i128; 3]
        requires { IsVectorWithin (2 ^ 52) (parts v.now) }
        ensures is { vector_of result ≡ scaled (basis_of self.now.basis) (parts v.now) }
        ensures small { IsVectorWithin largest_scaled (vector_of result) }
    {
        [
            row_by_column(&self.rows[0], v),
            row_by_column(&self.rows[1], v),
            row_by_column(&self.rows[2], v),
        ]
    }

    /// The coordinates of a vector in the basis, where these are whole numbers. None comes exactly where they are not.
    pub fn coordinates(&self, v: &[Part; 3]) -> Option<[i128; 3]>
        requires vector { IsVectorWithin (2 ^ 52) (parts v.now) }
        requires volume { pos 1 ≤ℤ volume_of (basis_of self.now.basis) }
        ensures { MatchOption result (¬ IsCombination (basis_of self.now.basis) (parts v.now))
            (λ c. combination (basis_of self.now.basis) (vector_of c) ≡ parts v.now) }
    {
        let [x, y, z] = self.scaled(v);
        Some([
            whole_quotient(x, self.volume)?,
            whole_quotient(y, self.volume)?,
            whole_quotient(z, self.volume)?,
        ])
    }

    /// Whether a vector is a whole combination of a and b.
    pub fn is_in_plane(&self, v: &[Part; 3]) -> bool
        requires vector { IsVectorWithin (2 ^ 52) (parts v.now) }
        requires volume { pos 1 ≤ℤ volume_of (basis_of self.now.basis) }
        ensures { IsTrue result ↔ IsPlaneCombination (basis_of self.now.basis) (parts v.now) }
    {
        match self.coordinates(v) {
            Some(c) => c[2] == 0,
            None => false,
        }
    }
}
