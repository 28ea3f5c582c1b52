// The translation lattice, as its residues modulo whole cell edges.
ghost use Rattle.std.specs.Prelude.{◌≡◌, ◌≤◌, ◌^◌, All, map, vec_len, IfOk, IfErr};
ghost use Rattle.motions.specs.Views.{parts};
ghost use Rattle.symmetry.specs.Sizes.{IsVectorWithin};
ghost use Rattle.closure.specs.Residues.{IsResidue, IsResidueGroup, AreInOrder};
ghost use Rattle.closure.specs.Fineness.{centrings_alone, IsTooFine};

use crate::lattice_fault::LatticeFault;
use crate::residues::residues_of_sums;
use fractions::Part;
use std::alloc::Global;

/// How many residues modulo whole cell edges a lattice may have.
pub const MAX_RESIDUES: usize = 64;

/// A translation lattice that holds all whole vectors, as the set of its residues modulo whole cell edges.
///
/// There are at most [`MAX_RESIDUES`](crate::MAX_RESIDUES) of them. Vectors are counted in parts of the edges.
#[derive(Debug, Drop)]
pub struct Lattice {
    residues: Vec<[Part; 3]>,
    pub ghost group: { IsResidueGroup (map parts residues.items) },
    pub ghost reduced: { All IsResidue residues.items },
    pub ghost ordered: { AreInOrder (map parts residues.items) },
    pub ghost few: { vec_len residues ≤ 64 },
}

impl Lattice {
    ghost use Rattle.closure.specs.Faults.{IsLatticeFault};
    ghost use Rattle.closure.specs.Lattices.{residues_of, IsLatticeOf};

    /// The lattice of all sums of whole multiples of the cell edges and these vectors, whose entries are at most
    /// 2^40 parts in size.
    ///
    /// [`LatticeFault::TooFine`] comes exactly where it has more than [`MAX_RESIDUES`](crate::MAX_RESIDUES)
    /// residues.
    pub fn make(alloc: Global, vectors: &[[Part; 3]]) -> Result<Lattice, LatticeFault>
        requires { All (λ v. IsVectorWithin (2 ^ 40) (parts v)) vectors.now }
        ensures lattice { IfOk result (IsLatticeOf (centrings_alone (map parts vectors.now))) }
        ensures fine { IfOk result (λ _. ¬ IsTooFine (centrings_alone (map parts vectors.now))) }
        ensures fault { IfErr result (IsLatticeFault (centrings_alone (map parts vectors.now))) }
    {
        let mut residues = residues_of_sums(alloc, vectors)?;
        residues.sort()?;
        Ok(Lattice { residues })
    }

    /// The residues, with entries from 0 to below [`UNIT`](fractions::UNIT), in lexicographic order.
    pub fn residues(&self) -> &[[Part; 3]]
        ensures residues { map parts result.now ≡ residues_of self.now }
        ensures reduced { All IsResidue result.now }
        ensures ordered { AreInOrder (map parts result.now) }
    {
        &self.residues
    }
}
