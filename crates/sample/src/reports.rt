// The reports of the groups of the sample, and the counts over them.
ghost use Rattle.std.specs.Prelude.{◌≡◌, ◌≤◌, IfOk, length};
ghost use Rattle.layer_types.specs.LayerTypes.{IsLayerType};
ghost use Rattle.report.specs.ReportView.{report_of};
ghost use Rattle.sample.specs.CountSizes.{most_heights};
ghost use Rattle.sample.specs.SampleGroups.{shear_number, type_number};
ghost use Rattle.sample.specs.Samples.{IsSample, IsSampleReport};

use crate::counts::{Counts, NoMemory};
use crate::frame::{frame_vectors, upright};
use crate::group::sheared_group;
use layer_types::{LayerType, layer};
use plane_lattice::Frame;
use report::Report;
use std::alloc::Global;

/// The counts over the reports of the groups below n, from 1 to 400.
///
/// The group i is that of the layer type 1 + i mod 80 with the translation 0,0,1 added, in the coordinates x + j z, y, z
/// with j = i mod 5 - 2. Its report is along (0 0 1), in the frame with tau 0,0,1 and with a and b 1,0,0 and 0,1,0, or
/// for a centred type 1/2,1/2,0 and -1/2,1/2,0.
pub fn sample(alloc: Global, n: u32) -> Result<Counts, NoMemory>
    requires { (1 ≤ n) × (n ≤ 400) }
    ensures { IfOk result (IsSample n) }
{
    let mut counts = Counts::none();
    for i in 0..n {
        let report = sample_report(alloc, i)?;
        counts = counts.plus(Counts::of_report(&report, type_number(i)));
    }
    Ok(counts)
}

/// The report of the group i.
fn sample_report(alloc: Global, i: u32) -> Result<Report, NoMemory>
    ensures is { IfOk result (λ report. IsSampleReport i (report_of report)) }
    ensures few { IfOk result (λ report. length report.heights.items ≤ most_heights) }
{
    let layer_type = layer_type(i);
    let group = sheared_group(alloc, layer_type, shear_number(i))?;
    let Ok(frame) = Frame::make(&group, upright(), frame_vectors(layer_type.centred)) else {
        unreachable!()
    };
    Report::make(alloc, &group, &frame)
}

/// The layer type that the group i is made from.
fn layer_type(i: u32) -> &'static LayerType
    ensures { IsLayerType (type_number i) result.now }
{
    let Some(layer_type) = layer(type_number(i)) else {
        unreachable!()
    };
    layer_type
}

/// Its number.
fn type_number(i: u32) -> u8
    ensures { result ≡ type_number i }
{
    (i % 80) as u8 + 1
}

/// The number j of the coordinates x + j z, y, z of the group i.
fn shear_number(i: u32) -> i64
    ensures { result ≡ shear_number i }
{
    i64::from(i % 5) - 2
}
