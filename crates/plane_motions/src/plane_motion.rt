// Motions of the plane: equality, product and inverse.
ghost use Rattle.std.specs.Prelude.{◌≡◌};
ghost use Rattle.std.specs.Cmp.{on_equiv, partial_equiv_from_equiv};
ghost use Rattle.motions.specs.Laws.LayerLaws.{IsPairWithin-more, planar_identity_within, same_planar_laws};
ghost use Rattle.motions.specs.Layers.{IsPlanarSmall, planar_of, same_planar};
ghost use Rattle.motions.specs.PlaneSizes.{IsPairWithin};
ghost use Rattle.plane_motions.specs.Laws.PlaneLaws.{plane_followed_by_laws, plane_followed_by_within};
ghost use Rattle.plane_motions.specs.Laws.PlaneLaws.{same_plane-is};
ghost use Rattle.plane_motions.specs.PlaneMotions.{PlaneMotion, in_layer, in_plane, plane_of};
ghost use Rattle.plane_motions.specs.PlaneMotions.{plane_followed_by, plane_identity};

use fractions::Part;
use motions::{LayerMotion, Sign};
use quotient::Motion;

/// A motion of the plane: it takes the point x to `w x + t`.
///
/// The rows of `w` are its first index, and `t` is counted in parts (International Tables, Volume A, the plane
/// groups).
#[derive(Clone, Copy, Debug)]
pub struct Motion2 {
    pub w: [[i64; 2]; 2],
    pub t: [Part; 2],
}

impl Motion2 {
    /// The motion of a layer that keeps its sides, with as many half parts as this has parts. Products and inverses
    /// are the same in any unit.
    fn in_layer(&self) -> LayerMotion
        ensures { planar_of result ≡ in_layer (plane_of self.now) }
    {
        LayerMotion {
            a: self.w,
            e: Sign::Plus,
            t: [self.t[0].0, self.t[1].0],
        }
    }

    /// The motion of the plane with as many parts as a motion of a layer has half parts.
    fn in_plane(m: &LayerMotion) -> Motion2
        ensures { plane_of result ≡ in_plane (planar_of m.now) }
    {
        Motion2 {
            w: m.a,
            t: [Part(m.t[0]), Part(m.t[1])],
        }
    }
}

impl PartialEq for Motion2 {
    ghost eq = { λ m n. same_planar (in_layer (plane_of m)) (in_layer (plane_of n)) };

    ghost laws = { partial_equiv_from_equiv
        (on_equiv (λ m. in_layer (plane_of m)) same_planar_laws) };

    fn eq(&self, other: &Self) -> bool {
        self.in_layer() == other.in_layer()
    }
}

impl Eq for Motion2 {
    ghost laws = { on_equiv (λ m. in_layer (plane_of m)) same_planar_laws };
}

impl Motion for Motion2 {
    ghost Meaning = { PlaneMotion };

    ghost meaning = { plane_of };

    ghost product = { plane_followed_by };

    ghost one = { plane_identity };

    ghost IsSmall = { λ m. IsPlanarSmall (in_layer m) };

    ghost MovesWithin = { λ n m. IsPairWithin n m.translation };

    fn identity() -> Self {
        Motion2::in_plane(&LayerMotion::identity())
    }

    fn then(&self, next: &Self) -> Self {
        Motion2::in_plane(&self.in_layer().then(&next.in_layer()))
    }

    fn back(&self) -> Option<Self> {
        let m = self.in_layer().back()?;
        Some(Motion2::in_plane(&m))
    }

    ghost monoid = { plane_followed_by_laws };

    ghost equal = { λ m n. same_plane-is (plane_of m) (plane_of n) };

    ghost moves_more = { λ n m a le h. IsPairWithin-more h le };

    ghost one_within = { planar_identity_within };

    ghost small_within = { λ a h. h.translation };

    ghost product_within = { plane_followed_by_within };
}
