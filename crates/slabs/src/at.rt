// The operations that map a slab to itself.
ghost use Rattle.std.specs.Prelude.{◌≡◌, ◌↔◌, Err, IfOk, map};
ghost use Rattle.fractions.specs.Fraction.{IsFractionWithin};
ghost use Rattle.fractions.specs.FractionOf.{fraction_of};
ghost use Rattle.symmetry.specs.Groups.{IsGroup, Listing};
ghost use Rattle.symmetry.specs.Lists.{IsHomeList};
ghost use Rattle.symmetry.specs.Scans.{GivesAt};
ghost use Rattle.motions.specs.Views.{motion_of, row_of};
ghost use Rattle.plane_lattice.specs.FrameView.{basis_of_frame};
ghost use Rattle.scanning.specs.ScanView.{HasScan, scan_of};
ghost use Rattle.scanning.specs.declared.at_fault.AtFault.TheVariants.{Large};
ghost use Rattle.slabs.specs.Slabs.{InSlabStabiliser, IsAtMost, half_sum};
ghost use Rattle.plane_lattice.specs.FrameOf.{HasFrame};

use crate::heights::middle;
use fractions::Ratio;
use motions::Motion3;
use scanning::{AtFault, Scan};
use std::alloc::Global;

/// The operations that map the slab from low to high to itself, point for point: those that the scan gives at the
/// height of its middle. Where the scan is that of a group, they are the members of the group that do so and are at
/// home, each once, in the order of the group's operations (after International Tables, Volume E, part 5, for the plane
/// in the middle).
///
/// Low is at most high, and both have numerators and denominators of at most [`MOST_HEIGHT`](scanning::MOST_HEIGHT) in
/// size. [`Large`](AtFault::Large) comes exactly where half their sum has not.
pub fn slab_at(alloc: Global, scan: &Scan, low: Ratio, high: Ratio) -> Result<Vec<Motion3>, AtFault>
    requires order { IsAtMost (fraction_of low) (fraction_of high) }
    requires low { IsFractionWithin 1000000000 (fraction_of low) }
    requires high { IsFractionWithin 1000000000 (fraction_of high) }
    ensures large { (result ≡ Err Large)
        ↔ (¬ IsFractionWithin 1000000000 (half_sum (fraction_of low) (fraction_of high))) }
    ensures gives { (g : Listing) → IsGroup g →
        HasFrame g scan.now.frame → HasScan g scan.now →
        IfOk result (λ ops. GivesAt g (row_of scan.now.frame.plane) (basis_of_frame scan.now.frame)
        (scan_of scan.now) (half_sum (fraction_of low) (fraction_of high))
        (map motion_of ops.items)) }
    ensures list { (g : Listing) → IsGroup g →
        HasFrame g scan.now.frame → HasScan g scan.now →
        IfOk result (λ ops. IsHomeList g (basis_of_frame scan.now.frame)
        (InSlabStabiliser g (row_of scan.now.frame.plane) (fraction_of low) (fraction_of high))
        (map motion_of ops.items)) }
{
    scan.ops_at(alloc, middle(low, high))
}
