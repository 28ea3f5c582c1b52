// The report of all heights of an orientation.
ghost use Rattle.std.specs.Prelude.{◌≡◌, IfErr, IfOk};
ghost use Rattle.motions.specs.BasisView.{basis_of};
ghost use Rattle.motions.specs.Views.{row_of};
ghost use Rattle.symmetry.specs.Groups.{Listing};
ghost use Rattle.closure.specs.Groups.{IsGroupOf};
ghost use Rattle.report.specs.ReportView.{report_of};
ghost use Rattle.requests.specs.Answers.{Answers};
ghost use Rattle.requests.specs.Causes.{IsGroupsObstacle};
ghost use Rattle.requests.specs.Layers.{written_report};
ghost use Rattle.requests.specs.Questions.{all_heights};

use crate::obstacle::Obstacle;
use crate::request::Form;
use closure::Group;
use motions::{Basis, Miller};
use plane_lattice::Frame;
use report::Report;
use std::alloc::{AllocError, Global};

/// The report in its form.
fn written(alloc: Global, report: &Report, form: Form) -> Result<Vec<u8>, AllocError>
    ensures { IfOk result (λ text. text.items ≡ written_report form (report_of report.now)) }
{
    match form {
        Form::Text => report.text(alloc),
        Form::Json => report.json(alloc),
    }
}

/// The report of all heights in the frame, in its form.
pub fn heights_text(
    alloc: Global,
    group: &Group,
    plane: Miller,
    basis: Basis,
    form: Form,
) -> Result<Vec<u8>, Obstacle>
    ensures text { IfOk result (λ text. (g : Listing) → IsGroupOf g group.now →
        Answers g (all_heights (row_of plane) (basis_of basis) form) text.items) }
    ensures obstacle { IfErr result
        (IsGroupsObstacle group.now (all_heights (row_of plane) (basis_of basis) form)) }
{
    let frame = Frame::make(group, plane, basis)?;
    let report = Report::make(alloc, group, &frame)?;
    Ok(written(alloc, &report, form)?)
}
