// What an operation does to the planes of an orientation.
ghost use Rattle.integers.specs.Size.{IsWithin};
ghost use Rattle.plane_lattice.specs.Bounds.{largest_period};

use motions::Sign;

/// What an operation that keeps the orientation does to its planes: the plane of the height s goes to that of
/// `e s + t`, where `sign` is e, and `shift` is t, in parts from 0 to below the period.
#[derive(Clone, Copy, Debug)]
pub(crate) struct HeightMotion {
    pub sign: Sign,
    pub shift: i64,
    pub ghost in_range: { IsWithin largest_period shift },
}
