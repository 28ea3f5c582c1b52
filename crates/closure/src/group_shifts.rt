// A group as the shifts of its lattice.
ghost use Rattle.std.specs.Prelude.{◌≡◌, ◌^◌, pos};
ghost use Rattle.symmetry.specs.Sizes.{IsVectorWithin};
ghost use Rattle.motions.specs.Views.{motion_of};
ghost use Rattle.closure.specs.Groups.{lattice_of};
ghost use Rattle.closure.specs.Lattices.{lattice_home, IsHome, IsLatticeShift};
ghost use Rattle.closure.specs.Laws.ShiftLaws.{by_meaning_lem, shifts_lem, home_is_same_lem, homes_lem};

use crate::group::Group;
use crate::lattice::Lattice;
use motions::Motion3;
use quotient::Quotient;

impl Quotient for Group {
    type M = Motion3;

    const REACH: i64 = Lattice::REACH;

    ghost REACH = { pos (2 ^ 52) };

    ghost IsShift = { λ group. IsLatticeShift (lattice_of group) };

    ghost home_of = { λ group. lattice_home (lattice_of group) };

    /// Whether the motion is the translation by a vector of the lattice.
    fn is_shift(&self, m: &Motion3) -> bool {
        self.lattice().is_shift(m)
    }

    /// The motion with the lexicographically first translation, of those with entries from 0 to below
    /// [`UNIT`](fractions::UNIT), that differs from its own by a vector of the lattice.
    fn home(&self, m: &Motion3) -> Motion3
        requires { IsVectorWithin (2 ^ 52) (motion_of m.now).translation }
        ensures value { motion_of result ≡ motion_of (lattice_home (lattice_of self.now) m.now) }
        ensures matrix { (motion_of result).matrix ≡ (motion_of m.now).matrix }
        ensures first { IsHome (lattice_of self.now) (motion_of m.now).translation
            (motion_of result).translation }
    {
        self.lattice().home(m)
    }

    /// Whether the matrix takes each vector of the lattice to a vector of the lattice.
    fn keeps(&self, m: &Motion3) -> bool {
        self.lattice().keeps(m)
    }

    ghost by_meaning = { λ group. by_meaning_lem (lattice_of group) };

    ghost shifts = { λ group. shifts_lem (lattice_of group) };

    ghost home_is_same = { λ group. home_is_same_lem (lattice_of group) };

    ghost homes = { λ group. homes_lem (lattice_of group) };
}
