// What a pair of motions asks of the origin: two congruences in x and y.
ghost use Rattle.std.specs.Prelude.{◌≡◌, ◌↔◌, ℕ, pos, ◌+ℤ◌, ◌*ℤ◌, ◌-ℤ◌, ◌<◌, ◌≤◌, ◌^◌, IsTrue, All, Any, length, slice_index_or};
ghost use Rattle.motions.specs.PlaneViews.{matrix2_of, pair_of};
ghost use Rattle.recognition.specs.Grid.{grid};
ghost use Rattle.recognition.specs.Classes.{Meets};
ghost use Rattle.recognition.specs.Order.{IsBoundedMatrix};
ghost use Rattle.recognition.specs.Sections.{IsSmallMotion};
ghost use Rattle.recognition.specs.Listed.{Agrees, AreDistinct, IsClose, IsLike, IsPaired, IsReady, TakesLattice};

use crate::line::{Condition, Line};
use crate::listed::{is_like, rest_at_zero};
use layer_types::LayerType;
use motions::LayerMotion;

/// How many operations a layer type has at most, modulo its lattice.
pub(crate) const MOST: usize = 24;

/// Where the translations of two motions of one matrix and sign agree.
pub(crate) fn condition_between(p: &[[i64; 2]; 2], m: &LayerMotion, n: &LayerMotion) -> Condition
    requires p { IsBoundedMatrix (matrix2_of p.now) }
    requires m { IsSmallMotion m.now }
    requires n { IsSmallMotion n.now }
    ensures { (x y : ℕ) → Meets result x y ↔ IsClose (matrix2_of p.now) x y m.now n.now }
{
    Condition {
        first: Line {
            c: rest_at_zero(m.t[0], &p[0], &n.t),
            x: m.a[0][0] - 1,
            y: m.a[0][1],
        },
        second: Line {
            c: rest_at_zero(m.t[1], &p[1], &n.t),
            x: m.a[1][0],
            y: m.a[1][1] - 1,
        },
    }
}

/// Where a motion of the section is one of the type, after the change.
fn condition_of(p: &[[i64; 2]; 2], m: &LayerMotion, t: &LayerType) -> Condition
    requires p { IsBoundedMatrix (matrix2_of p.now) }
    requires m { IsSmallMotion m.now }
    requires ops { All IsSmallMotion t.now.ops.now }
    requires distinct { AreDistinct t.now.ops.now }
    requires lattice { TakesLattice t.now.centred (matrix2_of p.now) }
    requires like { Any (λ n. IsLike (matrix2_of p.now) m.now n) t.now.ops.now }
    ensures { (x y : ℕ) → Meets result x y
        ↔ Any (λ n. IsPaired (matrix2_of p.now) x y m.now n) t.now.ops.now }
{
    for n in t.ops {
        if is_like(p, m, n) {
            return condition_between(p, m, n);
        }
    }
    NOTHING
}

/// The condition that each origin meets.
const NOTHING: Condition = Condition {
    first: Line { c: 0, x: 0, y: 0 },
    second: Line { c: 0, x: 0, y: 0 },
};

/// What each motion of the section asks of the origin, one after the other.
pub(crate) fn conditions(
    section: &[LayerMotion],
    t: &LayerType,
    p: &[[i64; 2]; 2],
) -> [Condition; MOST]
    requires ready { IsReady section.now t.now }
    requires p { IsBoundedMatrix (matrix2_of p.now) }
    requires agrees { Agrees section.now t.now (matrix2_of p.now) }
    requires few { length section.now ≤ 24 }
    ensures all { length result ≡ 24 }
    ensures each { (k : ℕ) (d : Condition) (e : LayerMotion) → k < length section.now → (x y : ℕ)
        → Meets (slice_index_or result k d) x y
        ↔ Any (λ n. IsPaired (matrix2_of p.now) x y
        (slice_index_or section.now k e) n) t.now.ops.now }
{
    let mut conditions = [NOTHING; MOST];
    for (i, m) in section.iter().enumerate() {
        conditions[i] = condition_of(p, m, t);
    }
    conditions
}
