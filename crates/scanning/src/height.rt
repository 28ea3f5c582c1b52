// A special height and the operations at it.
ghost use Rattle.fractions.specs.FractionOf.{fraction_of};
ghost use Rattle.integers.specs.Size.{IsWithin};
ghost use Rattle.scanning.specs.Bounds.{largest_level};
ghost use Rattle.scanning.specs.Levels.{IsLevel};

use fractions::Ratio;
use motions::Motion3;

/// A special height, counted in steps of the indices: the plane h x + k y + l z = s, and the operations that map it to
/// itself.
///
/// `level` is twice the height, in parts: the (hkl).w of those operations that turn the row.
#[derive(Debug, Drop)]
pub struct Height {
    pub s: Ratio,
    pub level: i64,
    pub ops: Vec<Motion3>,
    pub ghost is_level: { IsLevel (fraction_of s) level },
    pub ghost in_range: { IsWithin largest_level level },
}
