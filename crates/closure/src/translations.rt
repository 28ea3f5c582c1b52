// The lattice of what is listed, and the vectors that it is made of.
ghost use Rattle.std.specs.Prelude.{◌↔◌, ◌^◌, All, IfErr, IfOk, map};
ghost use Rattle.symmetry.specs.Groups.{Generates};
ghost use Rattle.symmetry.specs.Sizes.{IsVectorWithin};
ghost use Rattle.symmetry.specs.Vectors.{Vector};
ghost use Rattle.motions.specs.ListedSizes.{IsListedSmall};
ghost use Rattle.motions.specs.Views.{listing_of, parts};
ghost use Rattle.closure.specs.Faults.{IsLatticeFault};
ghost use Rattle.closure.specs.Fineness.{centrings_alone, IsTooFine};
ghost use Rattle.closure.specs.Lattices.{IsLatticeOf};

use crate::lattice::Lattice;
use crate::lattice_fault::LatticeFault;
use fractions::Part;
use motions::Listed;
use std::alloc::{AllocError, Global};

/// The lattice of what is listed: of the cell edges, the centring vectors and the listed translations.
///
/// [`LatticeFault::TooFine`] comes exactly where it has more than [`MAX_RESIDUES`](crate::MAX_RESIDUES) residues.
pub(crate) fn listed_lattice(alloc: Global, listed: &Listed) -> Result<Lattice, LatticeFault>
    requires { IsListedSmall 50 listed.now }
    ensures lattice { IfOk result (IsLatticeOf (listing_of listed.now)) }
    ensures fine { IfOk result (λ _. ¬ IsTooFine (listing_of listed.now)) }
    ensures fault { IfErr result (IsLatticeFault (listing_of listed.now)) }
{
    let vectors = lattice_vectors(alloc, listed)?;
    Lattice::make(alloc, &vectors)
}

/// The centring vectors, and the vectors of the listed translations.
fn lattice_vectors(alloc: Global, listed: &Listed) -> Result<Vec<[Part; 3]>, AllocError>
    requires { IsListedSmall 50 listed.now }
    ensures small { IfOk result
        (λ vectors. All (λ v. IsVectorWithin (2 ^ 40) (parts v)) vectors.items) }
    ensures same { IfOk result (λ vectors. (v : Vector)
        → Generates (centrings_alone (map parts vectors.items)) v
        ↔ Generates (listing_of listed.now) v) }
{
    let mut vectors = Vec::from_slice(alloc, &listed.centrings)?;
    for m in &listed.ops {
        if m.is_translation() {
            vectors.push(m.t)?;
        }
    }
    Ok(vectors)
}
