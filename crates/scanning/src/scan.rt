// The planes of an orientation, height by height.
ghost use Rattle.std.specs.Prelude.{All, AllPairs, map, unsigned_abs};
ghost use Rattle.symmetry.specs.Scans.{IsInPeriod, IsLower};
ghost use Rattle.motions.specs.ListedSizes.{IsSmallWithin};
ghost use Rattle.motions.specs.Views.{motion_of, row_of};
ghost use Rattle.closure.specs.declared.group.TheConstants.{MAX_ENTRY};
ghost use Rattle.plane_lattice.specs.FrameView.{basis_of_frame};
ghost use Rattle.scanning.specs.HeightView.{IsGeneralOperation, IsSpecialOperation, heights_of_specials, specials_of};

use crate::height::Height;
use motions::Motion3;
use plane_lattice::Frame;

/// The planes of an orientation in a frame: the operations that map every plane to itself, and the special heights from 0
/// to below the period, rising, with the operations at each.
///
/// The heights `s + k d`, with k whole and d the period, are in the class of the special height s; all others are general.
/// Each operation is at home in the frame, with matrix entries at most [`MAX_ENTRY`](closure::MAX_ENTRY) in size
/// (International Tables, Volume E, part 5).
#[derive(Debug, Drop)]
pub struct Scan {
    pub general: Vec<Motion3>,
    pub special: Vec<Height>,
    pub frame: Frame,
    pub ghost in_period: { All (IsInPeriod frame.period.0) (heights_of_specials special.items) },
    pub ghost rising: { AllPairs IsLower (heights_of_specials special.items) },
    pub ghost general_small: { All (IsSmallWithin (unsigned_abs MAX_ENTRY))
        (map motion_of general.items) },
    pub ghost special_small: { All (λ h. All (IsSmallWithin (unsigned_abs MAX_ENTRY)) h.ops)
        (specials_of special.items) },
    pub ghost general_rows: { ∥ All (IsGeneralOperation (row_of frame.plane) (basis_of_frame frame))
        (map motion_of general.items) ∥₁ },
    pub ghost special_rows: { ∥ All (λ h.
        All (IsSpecialOperation (row_of frame.plane) (basis_of_frame frame) h.height) h.ops)
        (specials_of special.items) ∥₁ },
}
