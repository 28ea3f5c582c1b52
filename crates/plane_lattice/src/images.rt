// What the matrix of a motion does to vectors of a basis.
ghost use Rattle.std.specs.Prelude.{◌≡◌, ◌^◌};
ghost use Rattle.symmetry.specs.Sizes.{IsSmall, IsVectorWithin};
ghost use Rattle.symmetry.specs.Vectors.{image};
ghost use Rattle.motions.specs.Views.{motion_of, parts};
ghost use Rattle.plane_lattice.specs.Bounds.{largest_entry, largest_turned};

use fractions::Part;
use motions::Motion3;

/// The image of a vector of a basis under the matrix of the motion, and how large it is.
pub fn image(m: &Motion3, v: &[Part; 3]) -> [Part; 3]
    requires motion { IsSmall (motion_of m.now) }
    requires vector { IsVectorWithin largest_entry (parts v.now) }
    ensures is { parts result ≡ image (motion_of m.now).matrix (parts v.now) }
    ensures small { IsVectorWithin largest_turned (parts result) }
    ensures within_reach { IsVectorWithin (2 ^ 52) (parts result) }
{
    m.image(v)
}
