// The orientation (0 0 1), and the vectors of the frames.
ghost use Rattle.std.specs.Prelude.{◌≡◌};
ghost use Rattle.motions.specs.BasisView.{basis_of};
ghost use Rattle.motions.specs.Views.{row_of};
ghost use Rattle.sample.specs.SampleGroups.{sample_frame, upright};

use fractions::{Part, UNIT};
use motions::{Basis, Miller};

const NONE: Part = Part(0);

const EDGE: Part = Part(UNIT);

const HALF: Part = Part(UNIT / 2);

/// The orientation (0 0 1).
pub(crate) fn upright() -> Miller
    ensures { row_of result ≡ upright }
{
    Miller { h: 0, k: 0, l: 1 }
}

/// The vectors a, b and tau: 1,0,0 and 0,1,0, or for a centred layer type 1/2,1/2,0 and -1/2,1/2,0; and 0,0,1.
pub(crate) fn frame_vectors(centred: bool) -> Basis
    ensures { basis_of result ≡ sample_frame centred }
{
    let tau = [NONE, NONE, EDGE];
    if centred {
        Basis {
            a: [HALF, HALF, NONE],
            b: [Part(-UNIT / 2), HALF, NONE],
            tau,
        }
    } else {
        Basis {
            a: [EDGE, NONE, NONE],
            b: [NONE, EDGE, NONE],
            tau,
        }
    }
}
