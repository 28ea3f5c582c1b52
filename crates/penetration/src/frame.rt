// Rod frames of a group and a direction.
ghost use Rattle.std.specs.Prelude.{◌≡◌, ◌*◌, ◌*ℤ◌, ◌≤ℤ◌, pos, unsigned_abs};
ghost use Rattle.fractions.specs.declared.part.TheConstants.{UNIT};
ghost use Rattle.symmetry.specs.Sizes.{IsVectorWithin};
ghost use Rattle.motions.specs.Views.{parts};
ghost use Rattle.closure.specs.declared.lattice.TheConstants.{MAX_RESIDUES};
ghost use Rattle.plane_lattice.specs.Coordinates.{HoldsEdges, vectors, volume};
ghost use Rattle.penetration.specs.RodOperations.{IsAcrossWithin};

use crate::axes::{axis, is_rod_frame};
use crate::direction::Direction;
use crate::means::across;
use crate::skews::is_rod_skewed;
use closure::Group;
use fractions::{Part, Ratio};
use motions::{Basis, FrameFault};
use plane_lattice::DualBasis;

/// The vectors a and b of a rod frame. Each entry is at most 1000 cell edges in size.
#[derive(Clone, Copy, PartialEq, Eq, Debug)]
pub struct RodBasis {
    pub a: [Part; 3],
    pub b: [Part; 3],
    pub ghost a_in_range: { IsVectorWithin (1000 * unsigned_abs UNIT) (parts a) },
    pub ghost b_in_range: { IsVectorWithin (1000 * unsigned_abs UNIT) (parts b) },
}

/// A rod frame: the axis of a direction, and vectors a and b that with it are a right-handed basis of a lattice that holds
/// all whole vectors.
///
/// `across` is a' and b', the vectors a and b without the mean of their coordinate along the axis over the operations that
/// keep the direction, so that each of these takes them to whole combinations of the two. Vectors are counted in parts of
/// the cell edges, and `across` in the edges themselves, with numerators of at most 2^40 in size and denominators of at most 2^20.
///
/// Its cell is at least the cell of the edges divided by [`MAX_RESIDUES`](closure::MAX_RESIDUES), so that a translation
/// brought home along the axis fits an `i64`.
#[derive(Clone, Copy, PartialEq, Eq, Debug)]
pub struct RodFrame {
    pub direction: Direction,
    pub axis: [Part; 3],
    pub a: [Part; 3],
    pub b: [Part; 3],
    pub across: [[Ratio; 3]; 2],
    pub ghost axis_in_range: { IsVectorWithin (1000 * unsigned_abs UNIT) (parts axis) },
    pub ghost a_in_range: { IsVectorWithin (1000 * unsigned_abs UNIT) (parts a) },
    pub ghost b_in_range: { IsVectorWithin (1000 * unsigned_abs UNIT) (parts b) },
    pub ghost across_in_range: { IsAcrossWithin across },
    pub ghost right_handed: { pos 1 ≤ℤ volume (vectors a b axis) },
    pub ghost holds_edges: { ∥ HoldsEdges (vectors a b axis) ∥₁ },
    pub ghost large: { (UNIT *ℤ UNIT *ℤ UNIT) ≤ℤ (pos MAX_RESIDUES *ℤ volume (vectors a b axis)) },
}

impl RodFrame {
    ghost use Rattle.std.specs.Prelude.{◌↔◌, IfOk};
    ghost use Rattle.motions.specs.declared.basis.FrameFault.{FrameFault};
    ghost use Rattle.motions.specs.BasisView.{basis_of};
    ghost use Rattle.closure.specs.Groups.{group_listing};
    ghost use Rattle.penetration.specs.DirectionView.{direction_of};
    ghost use Rattle.penetration.specs.FrameOf.{IsRodFrameFault, IsRodFrameOf};
    ghost use Rattle.penetration.specs.RodFrameView.{basis_of_rod, IsRodMadeFor};

    /// The rod frame of a group and a direction with the vectors a and b.
    ///
    /// [`NotFrame`](FrameFault::NotFrame) comes exactly where with the axis they are no right-handed basis of the lattice,
    /// else [`Skewed`](FrameFault::Skewed) exactly where an operation that keeps the direction has a matrix entry above 500
    /// in size, written in that basis.
    pub fn make(
        group: &Group,
        direction: Direction,
        basis: RodBasis,
    ) -> Result<RodFrame, FrameFault>
        ensures ok { IfOk result (IsRodFrameOf group.now direction basis) }
        ensures made { IfOk result (IsRodMadeFor group.now) }
        ensures faults { (fault : FrameFault) → (result ≡ Err fault)
            ↔ IsRodFrameFault (group_listing group.now) (direction_of direction) (parts basis.a)
            (parts basis.b) fault }
    {
        let axis = axis(group, &direction);
        let RodBasis { a, b } = basis;
        let dual = DualBasis::make(Basis { a, b, tau: axis });
        if !is_rod_frame(group, &direction, &dual) {
            return Err(FrameFault::NotFrame);
        }
        if is_rod_skewed(group, &direction, &dual) {
            return Err(FrameFault::Skewed);
        }
        let across = across(group.ops(), &direction, &dual);
        Ok(RodFrame {
            direction,
            axis,
            a,
            b,
            across,
        })
    }

    /// The dual basis of a, b and the axis.
    pub fn dual(&self) -> DualBasis
        ensures { basis_of result.basis ≡ basis_of_rod self.now }
    {
        DualBasis::make(Basis {
            a: self.a,
            b: self.b,
            tau: self.axis,
        })
    }
}
