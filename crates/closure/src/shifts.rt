// A lattice as the shifts that motions are taken modulo.
ghost use Rattle.std.specs.Prelude.{◌≡◌, ◌↔◌, ◌^◌, All, IsTrue, map, pos};
ghost use Rattle.quotient.specs.Kind.{Keeps};
ghost use Rattle.symmetry.specs.Sizes.{IsSmall, IsVectorWithin};
ghost use Rattle.symmetry.specs.Vectors.{image, origin};
ghost use Rattle.motions.specs.Views.{motion_of, parts};
ghost use Rattle.closure.specs.Residues.{has_residue, is_before, IsResidue};
ghost use Rattle.closure.specs.Lattices.{first_with, lattice_home, IsHome, IsLatticeShift};
ghost use Rattle.closure.specs.Laws.ShiftLaws.{modulo, by_meaning_lem, shifts_lem, home_is_same_lem, homes_lem};

use crate::lattice::Lattice;
use crate::residues::{lists_residue, residue_of, residue_of_sum};
use fractions::Part;
use motions::Motion3;
use quotient::Quotient;

impl Quotient for Lattice {
    type M = Motion3;

    const REACH: i64 = 1 << 52;

    ghost REACH = { pos (2 ^ 52) };

    ghost IsShift = { IsLatticeShift };

    ghost home_of = { lattice_home };

    /// Whether the motion is the translation by a vector of the lattice.
    fn is_shift(&self, m: &Motion3) -> bool {
        m.is_translation() && lists_residue(self.residues(), &m.t)
    }

    /// The motion with the lexicographically first translation, of those with entries from 0 to below
    /// [`UNIT`](fractions::UNIT), that differs from its own by a vector of the lattice.
    fn home(&self, m: &Motion3) -> Motion3
        requires { IsVectorWithin (2 ^ 52) (motion_of m.now).translation }
        ensures value { motion_of result ≡ motion_of (lattice_home self.now m.now) }
        ensures matrix { (motion_of result).matrix ≡ (motion_of m.now).matrix }
        ensures first { IsHome self.now (motion_of m.now).translation
            (motion_of result).translation }
    {
        Motion3 {
            w: m.w,
            t: first_translation(self.residues(), &m.t),
        }
    }

    /// Whether the matrix takes each vector of the lattice to a vector of the lattice.
    fn keeps(&self, m: &Motion3) -> bool {
        keeps_residues(self.residues(), m)
    }

    ghost by_meaning = { by_meaning_lem };

    ghost shifts = { shifts_lem };

    ghost home_is_same = { home_is_same_lem };

    ghost homes = { homes_lem };
}

/// Whether two motions have one matrix.
pub(crate) fn has_same_matrix(m: &Motion3, n: &Motion3) -> bool
    ensures { IsTrue result ↔ ((motion_of m.now).matrix ≡ (motion_of n.now).matrix) }
{
    linear_part(m) == linear_part(n)
}

/// The motion with the same matrix that leaves the origin where it is.
fn linear_part(m: &Motion3) -> Motion3
    ensures { motion_of result
        ≡ record { matrix = (motion_of m.now).matrix; translation = origin } }
{
    Motion3 {
        w: m.w,
        t: [Part(0), Part(0), Part(0)],
    }
}

/// Whether the matrix of a motion takes each residue to a vector whose residue is listed.
fn keeps_residues(residues: &[[Part; 3]], m: &Motion3) -> bool
    requires residues { All IsResidue residues.now }
    requires motion { IsSmall (motion_of m.now) }
    ensures { IsTrue result
        ↔ All (λ r. IsTrue (has_residue (map parts residues.now)
        (image (motion_of m.now).matrix (parts r)))) residues.now }
{
    residues
        .iter()
        .all(|r| lists_residue(residues, &m.image(r)))
}

/// The first, in lexicographic order, of the residues of t with each residue added.
fn first_translation(residues: &[[Part; 3]], t: &[Part; 3]) -> [Part; 3]
    requires residues { All IsResidue residues.now }
    requires translation { IsVectorWithin (2 ^ 52) (parts t.now) }
    ensures { parts result ≡ first_with (parts t.now) (map parts residues.now) }
{
    let mut first = residue_of(t);
    for r in residues {
        let other = residue_of_sum(r, t);
        if comes_before(&other, &first) {
            first = other;
        }
    }
    first
}

/// Whether one residue comes before another in lexicographic order.
fn comes_before(residue: &[Part; 3], other: &[Part; 3]) -> bool
    requires residue { IsResidue residue.now }
    requires other { IsResidue other.now }
    ensures { result ≡ is_before (parts residue.now) (parts other.now) }
{
    residue < other
}
