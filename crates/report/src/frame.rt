// The line of a frame.
ghost use Rattle.std.specs.Prelude.{◌≡◌, IfOk};
ghost use Rattle.plane_lattice.specs.FrameView.{basis_of_frame};
ghost use Rattle.report.specs.Texts.{frame_line};

use crate::at::NoMemory;
use crate::written::InParts;
use plane_lattice::Frame;
use std::alloc::Global;

/// The line of the vectors a, b and tau of a frame, each three ratios of the cell edges joined by commas.
pub fn frame_line(alloc: Global, frame: &Frame) -> Result<Vec<u8>, NoMemory>
    ensures { IfOk result (λ text. text.items ≡ frame_line (basis_of_frame frame.now)) }
{
    let a = InParts::of(&frame.a);
    let b = InParts::of(&frame.b);
    let tau = InParts::of(&frame.tau);
    let line = format!(in alloc; "{a} {b} {tau}\n")?;
    Ok(line.into_bytes())
}
