// Motions of space: images of vectors, equality, product and inverse.
ghost use Rattle.std.specs.Prelude.{◌≡◌, ◌↔◌, ◌^◌, ◌*◌, ℕ, IsTrue};
ghost use Rattle.std.specs.Cmp.{on_equiv, partial_equiv_from_equiv};
ghost use Rattle.symmetry.specs.Motions.{Motion as MotionOfSpace, followed_by, identity};
ghost use Rattle.symmetry.specs.Sizes.{IsSmall, IsVectorWithin};
ghost use Rattle.symmetry.specs.Vectors.{image, unit_matrix};
ghost use Rattle.motions.specs.Equality.{same_motion};
ghost use Rattle.motions.specs.Laws.MotionLaws.{same_motion_laws, same_motion-is, followed_by_laws, followed_by_within, identity_within};
ghost use Rattle.symmetry.proofs.Sizes.{IsVectorWithin-more};
ghost use Rattle.motions.specs.Views.{motion_of, parts};

use crate::equality::{is_same_matrix, is_same_shift};
use crate::inverses::inverse_matrix;
use crate::motion::Motion3;
use crate::products::{matrix_by_matrix, matrix_by_vector, opposite, sum};
use fractions::Part;
use quotient::Motion;

impl Motion3 {
    /// Where the matrix of the motion takes a vector: `w v`.
    pub fn image(&self, v: &[Part; 3]) -> [Part; 3]
        requires motion { IsSmall (motion_of self.now) }
        requires vector { IsVectorWithin (2 ^ 40) (parts v.now) }
        ensures is { parts result ≡ image (motion_of self.now).matrix (parts v.now) }
        ensures within { (n : ℕ) → IsVectorWithin n (parts v.now) →
            IsVectorWithin (1500 * n) (parts result) }
    {
        matrix_by_vector(&self.w, v)
    }

    /// Whether the motion is a translation: whether its matrix is the unit matrix.
    pub fn is_translation(&self) -> bool
        ensures { IsTrue result ↔ ((motion_of self.now).matrix ≡ unit_matrix) }
    {
        is_same_matrix(&self.w, &Motion3::identity().w)
    }
}

impl PartialEq for Motion3 {
    ghost eq = { λ m n. same_motion (motion_of m) (motion_of n) };

    ghost laws = { partial_equiv_from_equiv (on_equiv motion_of same_motion_laws) };

    fn eq(&self, other: &Self) -> bool {
        is_same_matrix(&self.w, &other.w) && is_same_shift(&self.t, &other.t)
    }
}

impl Eq for Motion3 {
    ghost laws = { on_equiv motion_of same_motion_laws };
}

impl Motion for Motion3 {
    ghost Meaning = { MotionOfSpace };

    ghost meaning = { motion_of };

    ghost product = { followed_by };

    ghost one = { identity };

    ghost IsSmall = { IsSmall };

    ghost MovesWithin = { λ n m. IsVectorWithin n m.translation };

    fn identity() -> Self {
        Motion3 {
            w: [[1, 0, 0], [0, 1, 0], [0, 0, 1]],
            t: [Part(0), Part(0), Part(0)],
        }
    }

    fn then(&self, next: &Self) -> Self {
        let image = matrix_by_vector(&next.w, &self.t);
        Motion3 {
            w: matrix_by_matrix(&next.w, &self.w),
            t: sum(&image, &next.t),
        }
    }

    fn back(&self) -> Option<Self> {
        let w = inverse_matrix(&self.w)?;
        let image = matrix_by_vector(&w, &self.t);
        Some(Motion3 {
            w,
            t: opposite(&image),
        })
    }

    ghost monoid = { followed_by_laws };

    ghost equal = { λ m n. same_motion-is (motion_of m) (motion_of n) };

    ghost moves_more = { λ n m a le h. IsVectorWithin-more h le };

    ghost one_within = { identity_within };

    ghost small_within = { λ a h. h.translation };

    ghost product_within = { followed_by_within };
}
