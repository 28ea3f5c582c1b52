// Symmetry operations in the coordinates x + j z, y, z.
ghost use Rattle.std.specs.Prelude.{◌≡◌, ◌^◌};
ghost use Rattle.integers.specs.Size.{IsWithin};
ghost use Rattle.symmetry.specs.Motions.{Motion as MotionOfSpace};
ghost use Rattle.symmetry.specs.Sizes.{IsMatrixWithin, IsVectorWithin};
ghost use Rattle.symmetry.specs.Vectors.{origin};
ghost use Rattle.motions.specs.ListedSizes.{IsSmallWithin};
ghost use Rattle.motions.specs.Views.{motion_of};
ghost use Rattle.sample.specs.Shears.{shear, sheared};

use fractions::Part;
use motions::Motion3;
use quotient::Motion;

/// The operation in the coordinates x + j z, y, z.
pub(crate) fn sheared(m: &Motion3, j: i64) -> Motion3
    requires shear { IsWithin 2 j }
    requires matrix { IsMatrixWithin 1 (motion_of m.now).matrix }
    requires translation { IsVectorWithin (2 ^ 30) (motion_of m.now).translation }
    ensures is { motion_of result ≡ sheared j (motion_of m.now) }
    ensures small { IsSmallWithin 50 (motion_of result) }
{
    shear(-j).then(m).then(&shear(j))
}

/// The change of coordinates to x + j z, y, z.
fn shear(j: i64) -> Motion3
    ensures { motion_of result ≡ record { matrix = shear j; translation = origin } }
{
    Motion3 {
        w: [[1, 0, j], [0, 1, 0], [0, 0, 1]],
        t: [Part(0), Part(0), Part(0)],
    }
}
