// Motions moved from one plane to another.
ghost use Rattle.std.specs.Prelude.{◌≡◌, ◌*◌, ◌+ℤ◌, ◌*ℤ◌, unsigned_abs};
ghost use Rattle.fractions.specs.declared.part.TheConstants.{UNIT};
ghost use Rattle.integers.specs.Size.{IsWithin};
ghost use Rattle.symmetry.specs.Sizes.{IsVectorWithin};
ghost use Rattle.symmetry.specs.Vectors.{multiple, plus};
ghost use Rattle.motions.specs.Views.{motion_of, parts};
ghost use Rattle.plane_lattice.specs.Bounds.{largest_home};
ghost use Rattle.scanning.specs.Bounds.{largest_count};

use fractions::Part;
use motions::Motion3;

/// First the motion, and then the translation by a multiple of a vector.
#[tactic(auto, unfolding(symmetry::specs::Vectors::multiple, symmetry::specs::Vectors::plus))]
pub(crate) fn raised(m: &Motion3, count: i64, vector: &[Part; 3]) -> Motion3
    requires motion { IsVectorWithin largest_home (motion_of m.now).translation }
    requires count { IsWithin largest_count count }
    requires vector { IsVectorWithin (1000 * unsigned_abs UNIT) (parts vector.now) }
    ensures { motion_of result ≡ record {
      matrix = (motion_of m.now).matrix;
      translation = plus (motion_of m.now).translation (multiple count (parts vector.now));
    } }
{
    Motion3 {
        w: m.w,
        t: [
            sum(m.t[0], count, vector[0]),
            sum(m.t[1], count, vector[1]),
            sum(m.t[2], count, vector[2]),
        ],
    }
}

/// A number of parts and a multiple of another.
fn sum(part: Part, count: i64, step: Part) -> Part
    requires part { IsWithin largest_home part.0 }
    requires count { IsWithin largest_count count }
    requires step { IsWithin (1000 * unsigned_abs UNIT) step.0 }
    ensures { result.0 ≡ part.0 +ℤ count *ℤ step.0 }
{
    part.add(step.times(count))
}
