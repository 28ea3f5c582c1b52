// The shifts of a layer type: the translations by the vectors of its lattice.
ghost use Rattle.std.specs.Prelude.{◌≡◌, ◌↔◌, ◌^◌, pos, IsTrue};
ghost use Rattle.motions.specs.declared.motion.Sign.TheVariants.{Plus};
ghost use Rattle.motions.specs.Layers.{planar_of};
ghost use Rattle.motions.specs.PlaneMatrices.{image2, unit2};
ghost use Rattle.motions.specs.PlaneSizes.{IsMatrix2Within, IsPairWithin};
ghost use Rattle.motions.specs.PlaneViews.{matrix2_of, pair_of};
ghost use Rattle.layer_types.specs.Lattices.{IsHome, IsLayerShift, centring, home_vector, in_lattice, keeps_lattice, layer_home, leaves};
ghost use Rattle.layer_types.specs.Laws.ShiftLaws.{by_meaning_lem, home_is_same_lem, homes_lem, shifts_lem};

use fractions::UNIT;
use motions::LayerMotion;
use quotient::{Motion, Quotient};

/// How many half parts half a cell edge has.
pub(crate) const HALF_EDGE: i64 = UNIT;

/// How many half parts a cell edge has.
const EDGE: i64 = 2 * UNIT;

/// The translations that motions of a layer are taken modulo: those by whole vectors of the plane, and in a centred
/// lattice those with (1/2, 1/2) added besides.
#[derive(Clone, Copy, Debug)]
pub struct LayerShifts {
    pub centred: bool,
}

impl Quotient for LayerShifts {
    type M = LayerMotion;

    const REACH: i64 = 1 << 52;

    ghost REACH = { pos (2 ^ 52) };

    ghost IsShift = { λ shifts. IsLayerShift shifts.centred };

    ghost home_of = { λ shifts. layer_home shifts.centred };

    /// Whether the motion is the translation by a vector of the lattice.
    fn is_shift(&self, m: &LayerMotion) -> bool {
        is_translation(m) && is_in_lattice(self.centred, &m.t)
    }

    /// The motion with the lexicographically first translation, of those with entries from 0 to below an edge, that
    /// differs from its own by a vector of the lattice.
    fn home(&self, m: &LayerMotion) -> LayerMotion
        requires { IsPairWithin (2 ^ 52) (planar_of m.now).translation }
        ensures value { planar_of result ≡ planar_of (layer_home self.now.centred m.now) }
        ensures matrix { (planar_of result).matrix ≡ (planar_of m.now).matrix }
        ensures side { (planar_of result).side ≡ (planar_of m.now).side }
        ensures first { IsHome self.now.centred (planar_of m.now).translation
            (planar_of result).translation }
    {
        LayerMotion {
            a: m.a,
            e: m.e,
            t: home_vector(self.centred, &m.t),
        }
    }

    /// Whether the matrix takes each vector of the lattice to a vector of the lattice.
    fn keeps(&self, m: &LayerMotion) -> bool {
        keeps_lattice(self.centred, &m.a)
    }

    ghost by_meaning = { λ shifts. by_meaning_lem shifts.centred };

    ghost shifts = { λ shifts. shifts_lem shifts.centred };

    ghost home_is_same = { λ shifts. home_is_same_lem shifts.centred };

    ghost homes = { λ shifts. homes_lem shifts.centred };
}

/// Whether the motion is a translation: whether its matrix is the unit matrix, and its sign is plus.
fn is_translation(m: &LayerMotion) -> bool
    ensures { IsTrue result
        ↔ (((planar_of m.now).matrix ≡ unit2) × ((planar_of m.now).side ≡ Plus)) }
{
    let linear_part = LayerMotion {
        a: m.a,
        e: m.e,
        t: [0, 0],
    };
    linear_part == LayerMotion::identity()
}

/// Whether a vector is in the lattice.
fn is_in_lattice(centred: bool, t: &[i64; 2]) -> bool
    ensures { result ≡ in_lattice centred (pair_of t.now) }
{
    leaves(0, t) || (centred && leaves(HALF_EDGE, t))
}

/// Whether both entries of a vector leave this rest of an edge.
fn leaves(rest: i64, t: &[i64; 2]) -> bool
    ensures { result ≡ leaves rest (pair_of t.now) }
{
    t[0].rem_euclid(EDGE) == rest && t[1].rem_euclid(EDGE) == rest
}

/// Whether a matrix takes the lattice into the lattice.
fn keeps_lattice(centred: bool, a: &[[i64; 2]; 2]) -> bool
    requires { IsMatrix2Within 500 (matrix2_of a.now) }
    ensures { result ≡ keeps_lattice centred (matrix2_of a.now) }
{
    !centred || is_in_lattice(centred, &image_of_centring(a))
}

/// The vector at home that differs from t by a vector of the lattice.
fn home_vector(centred: bool, t: &[i64; 2]) -> [i64; 2]
    requires { IsPairWithin (2 ^ 52) (pair_of t.now) }
    ensures { pair_of result ≡ home_vector centred (pair_of t.now) }
{
    let x = t[0].rem_euclid(EDGE);
    if !centred || x < HALF_EDGE {
        [x, t[1].rem_euclid(EDGE)]
    } else {
        [x - HALF_EDGE, (t[1] + HALF_EDGE).rem_euclid(EDGE)]
    }
}

/// Where a matrix takes the centring vector.
fn image_of_centring(a: &[[i64; 2]; 2]) -> [i64; 2]
    requires { IsMatrix2Within 500 (matrix2_of a.now) }
    ensures { pair_of result ≡ image2 (matrix2_of a.now) centring }
{
    [
        a[0][0] * HALF_EDGE + a[0][1] * HALF_EDGE,
        a[1][0] * HALF_EDGE + a[1][1] * HALF_EDGE,
    ]
}
