// Lists of residues modulo whole cell edges, and how a group of them grows by one more vector.
ghost use Rattle.std.specs.Prelude.{◌≡◌, ◌+◌, ◌≤◌, ◌<◌, ◌^◌, ◌++◌, All, IfErr, IfOk, OnOk, map, take, vec_len};
ghost use Rattle.motions.specs.Views.{parts};
ghost use Rattle.symmetry.specs.Groups.{Listing};
ghost use Rattle.symmetry.specs.Vectors.{plus};
ghost use Rattle.symmetry.specs.Sizes.{IsVectorWithin};
ghost use Rattle.closure.specs.Residues.{residue, has_residue, IsResidue};
ghost use Rattle.closure.specs.Spans.{AreResiduesOf, coset, with_centring};
ghost use Rattle.closure.specs.Fineness.{centrings_alone};
ghost use Rattle.closure.specs.Faults.{IsLatticeFault};

use crate::lattice::MAX_RESIDUES;
use crate::lattice_fault::LatticeFault;
use fractions::Part;
use std::alloc::{AllocError, Global};

/// The residue of a vector.
#[tactic(auto, unfolding(crate::specs::Residues::residue))]
pub(crate) fn residue_of(v: &[Part; 3]) -> [Part; 3]
    ensures value { parts result ≡ residue (parts v.now) }
    ensures reduced { IsResidue result }
{
    [v[0].reduced(), v[1].reduced(), v[2].reduced()]
}

/// The residue of the sum of two vectors.
pub(crate) fn residue_of_sum(v: &[Part; 3], w: &[Part; 3]) -> [Part; 3]
    requires first { IsVectorWithin (2 ^ 52) (parts v.now) }
    requires second { IsVectorWithin (2 ^ 52) (parts w.now) }
    ensures value { parts result ≡ residue (plus (parts v.now) (parts w.now)) }
    ensures reduced { IsResidue result }
{
    residue_of(&[v[0].add(w[0]), v[1].add(w[1]), v[2].add(w[2])])
}

/// Whether the residue of the vector is listed.
pub(crate) fn lists_residue(residues: &[[Part; 3]], v: &[Part; 3]) -> bool
    ensures { result ≡ has_residue (map parts residues.now) (parts v.now) }
{
    residues.contains(&residue_of(v))
}

/// Appends the first `size` residues, each with the step added.
fn append_coset(
    residues: &mut Vec<[Part; 3]>,
    size: usize,
    step: &[Part; 3],
) -> Result<(), AllocError>
    requires size { size ≤ vec_len residues.old }
    requires residues { All IsResidue residues.old.items }
    requires step { IsResidue step.now }
    ensures items { OnOk result (map parts residues.new.items
        ≡ map parts residues.old.items ++ coset (parts step.now)
        (take size (map parts residues.old.items))) }
    ensures reduced { OnOk result (All IsResidue residues.new.items) }
{
    for i in 0..size {
        let sum = residue_of_sum(&residues[i], step);
        residues.push(sum)?;
    }
    Ok(())
}

/// Makes the residues of a lattice those of the lattice with one more vector.
///
/// [`LatticeFault::TooFine`] comes where that has more than [`MAX_RESIDUES`] residues.
pub(crate) fn add_vector(residues: &mut Vec<[Part; 3]>, v: &[Part; 3]) -> Result<(), LatticeFault>
    requires reduced { All IsResidue residues.old.items }
    requires some { 0 < vec_len residues.old }
    requires few { vec_len residues.old ≤ 64 }
    requires vector { IsVectorWithin (2 ^ 40) (parts v.now) }
    ensures reduced { OnOk result (All IsResidue residues.new.items) }
    ensures some { OnOk result (0 < vec_len residues.new) }
    ensures few { OnOk result (vec_len residues.new ≤ 64) }
    ensures lattice { OnOk result ((g : Listing) → AreResiduesOf g (map parts residues.old.items)
        → AreResiduesOf (with_centring g (parts v.now)) (map parts residues.new.items)) }
    ensures fault { IfErr result
        (λ fault. (g : Listing) → AreResiduesOf g (map parts residues.old.items)
        → IsLatticeFault (with_centring g (parts v.now)) fault) }
{
    let size = residues.len();
    let mut step = residue_of(v);
    while !lists_residue(residues, &step) {
        if residues.len() + size > MAX_RESIDUES {
            return Err(LatticeFault::TooFine);
        }
        append_coset(residues, size, &step)?;
        step = residue_of_sum(&step, v);
    }
    Ok(())
}

/// The residues of all sums of whole multiples of the cell edges and the vectors, each once.
///
/// [`LatticeFault::TooFine`] comes where there are more than [`MAX_RESIDUES`].
pub(crate) fn residues_of_sums(
    alloc: Global,
    vectors: &[[Part; 3]],
) -> Result<Vec<[Part; 3]>, LatticeFault>
    requires { All (λ v. IsVectorWithin (2 ^ 40) (parts v)) vectors.now }
    ensures reduced { IfOk result (λ residues. All IsResidue residues.items) }
    ensures few { IfOk result (λ residues. vec_len residues ≤ 64) }
    ensures lattice { IfOk result (λ residues.
        AreResiduesOf (centrings_alone (map parts vectors.now)) (map parts residues.items)) }
    ensures fault { IfErr result (IsLatticeFault (centrings_alone (map parts vectors.now))) }
{
    let mut residues = Vec::new(alloc);
    residues.push([Part(0), Part(0), Part(0)])?;
    for v in vectors {
        add_vector(&mut residues, v)?;
    }
    Ok(residues)
}
