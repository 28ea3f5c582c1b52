// Frames of a group, made from three vectors.
ghost use Rattle.std.specs.Prelude.{◌↔◌, ◌≤ℤ◌, pos, IsTrue};
ghost use Rattle.symmetry.specs.Frames.{IsFrame, IsSkewed};
ghost use Rattle.symmetry.specs.Groups.{IsInLattice};
ghost use Rattle.symmetry.specs.Vectors.{Vector};
ghost use Rattle.motions.specs.BasisView.{basis_of};
ghost use Rattle.motions.specs.Views.{row_of};
ghost use Rattle.closure.specs.Groups.{group_listing};
ghost use Rattle.plane_lattice.specs.Coordinates.{IsCombination, volume};

use crate::dual_basis::DualBasis;
use crate::frame::Frame;
use crate::frame_tests::{height_of, holds_all, holds_edges, is_oriented};
use crate::means::mean;
use crate::skews::is_skewed;
use closure::Group;
use fractions::Part;
use motions::{Basis, FrameFault, Miller};

impl Frame {
    ghost use Rattle.std.specs.Prelude.{◌≡◌, ◌↔◌, IfOk};
    ghost use Rattle.symmetry.specs.Groups.{Listing};
    ghost use Rattle.motions.specs.declared.basis.FrameFault.{FrameFault};
    ghost use Rattle.closure.specs.Groups.{IsGroupOf};
    ghost use Rattle.plane_lattice.specs.FrameOf.{IsFrameFault, IsFrameOf};

    /// The frame of a group and an orientation with the vectors a, b and tau.
    ///
    /// [`NotFrame`](FrameFault::NotFrame) comes exactly where they are no frame of the group and the orientation: where
    /// they are no basis of the lattice, a or b does not lie in the planes, (hkl).tau is not positive, or the cross
    /// product of a and b is no positive multiple of (hkl). Else [`Skewed`](FrameFault::Skewed) comes exactly where an
    /// operation that keeps the orientation has a matrix entry above 500 in size, written in the basis.
    pub fn make(group: &Group, plane: Miller, basis: Basis) -> Result<Frame, FrameFault>
        ensures made { (g : Listing) → IsGroupOf g group.now →
            IfOk result (IsFrameOf g plane basis) }
        ensures refused { (g : Listing) → IsGroupOf g group.now → (fault : FrameFault)
            → (result ≡ Err fault) ↔ IsFrameFault g (row_of plane) (basis_of basis) fault }
    {
        let dual = DualBasis::make(basis);
        if !is_frame(group, &plane, &dual) {
            return Err(FrameFault::NotFrame);
        }
        if is_skewed_frame(group, &plane, &dual) {
            return Err(FrameFault::Skewed);
        }
        let Basis { a, b, tau } = basis;
        let period = Part(height_of(&plane, &tau) as i64);
        let c = mean(group.ops(), &plane, &tau);
        Ok(Frame {
            plane,
            a,
            b,
            tau,
            period,
            c,
        })
    }
}

/// Whether the basis is a frame of the group and the orientation.
fn is_frame(group: &Group, plane: &Miller, dual: &DualBasis) -> bool
    ensures { IsTrue result
        ↔ IsFrame (group_listing group.now) (row_of plane.now) (basis_of dual.now.basis) }
{
    if !has_vectors(group, dual) {
        return false;
    }
    if !is_oriented(plane, dual) {
        return false;
    }
    spans_lattice(group, dual)
}

/// Whether a, b and tau are in the lattice.
pub fn has_vectors(group: &Group, dual: &DualBasis) -> bool
    ensures { IsTrue result
        ↔ (IsInLattice (group_listing group.now) (basis_of dual.now.basis).a
        × IsInLattice (group_listing group.now) (basis_of dual.now.basis).b
        × IsInLattice (group_listing group.now) (basis_of dual.now.basis).tau) }
{
    group.has(dual.basis.a) && group.has(dual.basis.b) && group.has(dual.basis.tau)
}

/// Whether each vector of the lattice is a whole combination of the basis.
pub fn spans_lattice(group: &Group, dual: &DualBasis) -> bool
    requires { pos 1 ≤ℤ volume (basis_of dual.now.basis) }
    ensures { IsTrue result
        ↔ ((v : Vector) → IsInLattice (group_listing group.now) v →
        IsCombination (basis_of dual.now.basis) v) }
{
    if !holds_edges(dual) {
        return false;
    }
    holds_all(dual, group.lattice().residues())
}

/// Whether an operation that keeps the orientation has a matrix entry above 500 in size, written in the basis.
fn is_skewed_frame(group: &Group, plane: &Miller, dual: &DualBasis) -> bool
    requires { pos 1 ≤ℤ volume (basis_of dual.now.basis) }
    ensures { IsTrue result
        ↔ IsSkewed (group_listing group.now) (row_of plane.now) (basis_of dual.now.basis) }
{
    is_skewed(group.ops(), plane, dual)
}
