// The JSON of a report.
ghost use Rattle.std.specs.Prelude.{◌≡◌, All, IfOk, map, option_map};
ghost use Rattle.fractions.specs.FractionOf.{fraction_of};
ghost use Rattle.fractions.specs.Fractions.{fractions_of};
ghost use Rattle.triplets.specs.Writing.{number_text, triplet_text};
ghost use Rattle.motions.specs.Views.{motion_of, row_of};
ghost use Rattle.plane_lattice.specs.FrameView.{basis_of_frame};
ghost use Rattle.recognition.specs.Search.{change_of};
ghost use Rattle.serde_json.specs.Data.{array, string};
ghost use Rattle.serde_json.specs.View.{items_of, view};
ghost use Rattle.plane_lattice.specs.SmallHeights.{IsSmallHeight};
ghost use Rattle.report.specs.ReportView.{report_of};
ghost use Rattle.report.specs.SectionView.{block_of};
ghost use Rattle.report.specs.Values.{fractions_data, general_data, general_type_data, height_data, indices_data, named_data, operations_data, report_data, type_data, vector_data};
ghost use Rattle.report.specs.WrittenView.{directed_of, edges_of, parts_of};

use crate::at::NoMemory;
use crate::named::{TypeBasis, origin_at_height, origin_in_plane, symbol};
use crate::report::{HeightSection, Report};
use crate::written::{Directed, InEdges, InParts};
use fractions::{Part, Ratio};
use motions::{Miller, Motion3};
use plane_lattice::Frame;
use recognition::Found;
use serde_json::{Value, json};
use std::alloc::Global;
use triplets::Triplet;

impl Report {
    ghost use Rattle.std.specs.Prelude.{◌≡◌, IfOk};
    ghost use Rattle.report.specs.ReportView.{report_of};
    ghost use Rattle.report.specs.Values.{report_json};

    /// The report as one line of JSON: an object with the keys `a`, `b`, `c`, `general`, `heights`, `period`, `plane` and
    /// `tau`.
    ///
    /// `plane` is a list of the three indices. `general` has `ops`, `planes` and `type`, and each of `heights` has
    /// `height`, `ops`, `orbit` and `type`. `ops` lists coordinate triplets; `planes` and `orbit` are numbers. A type has
    /// `basis`, a list of three vectors, `number`, `origin` and `symbol`, and is null where no bounded change carries the
    /// section onto a layer type. The origin of the general section at the height s lies (s/d) c' above the one given.
    /// Vectors, the period and the heights are texts as in [`Report::text`], in cell edges.
    pub fn json(&self, alloc: Global) -> Result<Vec<u8>, NoMemory>
        ensures { IfOk result (λ line. line.items ≡ report_json (report_of self.now)) }
    {
        let mut line = report_value(alloc, self)?.to_string(alloc)?;
        line.push_str("\n")?;
        Ok(line.into_bytes())
    }
}

#[tactic(auto, unfolding(crate::specs::Values::report_data))]
fn report_value(alloc: Global, report: &Report) -> Result<Value, NoMemory>
    ensures { IfOk result (λ value. view value ≡ report_data (report_of report.now)) }
{
    let frame = &report.frame;
    json!(in alloc; {
        "a": vector_value(alloc, InParts::of(&frame.a))?,
        "b": vector_value(alloc, InParts::of(&frame.b))?,
        "c": fractions_value(alloc, InEdges::of(&frame.c))?,
        "general": general_value(alloc, report)?,
        "heights": heights_value(alloc, report, &report.heights)?,
        "period": period_value(alloc, frame.period)?,
        "plane": plane_value(alloc, &frame.plane)?,
        "tau": vector_value(alloc, InParts::of(&frame.tau))?,
    })
}

#[tactic(auto, unfolding(crate::specs::Values::vector_data))]
fn vector_value(alloc: Global, v: InParts) -> Result<Value, NoMemory>
    ensures { IfOk result (λ value. view value ≡ vector_data (parts_of v)) }
{
    Ok(Value::from(format!(in alloc; "{v}")?))
}

#[tactic(auto, unfolding(crate::specs::Values::fractions_data))]
fn fractions_value(alloc: Global, v: InEdges) -> Result<Value, NoMemory>
    ensures { IfOk result (λ value. view value ≡ fractions_data (edges_of v)) }
{
    Ok(Value::from(format!(in alloc; "{v}")?))
}

fn period_value(alloc: Global, period: Part) -> Result<Value, NoMemory>
    ensures { IfOk result (λ value. view value ≡ string (number_text period.0)) }
{
    Ok(Value::from(format!(in alloc; "{period}")?))
}

#[tactic(auto, unfolding(crate::specs::Values::indices_data))]
fn plane_value(alloc: Global, plane: &Miller) -> Result<Value, NoMemory>
    ensures { IfOk result (λ value. view value ≡ indices_data (row_of plane.now)) }
{
    json!(in alloc; [plane.h, plane.k, plane.l])
}

// The general planes.
#[tactic(auto, unfolding(crate::specs::Values::general_data))]
fn general_value(alloc: Global, report: &Report) -> Result<Value, NoMemory>
    ensures { IfOk result (λ value. view value ≡ general_data (report_of report.now)) }
{
    json!(in alloc; {
        "ops": operations_value(alloc, &report.general.ops)?,
        "planes": report.planes,
        "type": general_type_value(alloc, report, &report.general.found)?,
    })
}

fn general_type_value(
    alloc: Global,
    report: &Report,
    found: &Option<Found>,
) -> Result<Value, NoMemory>
    ensures { IfOk result
        (λ value. view value
        ≡ general_type_data (report_of report.now) (option_map change_of found.now)) }
{
    match found {
        None => Ok(Value::Null),
        Some(found) => {
            let origin = origin_in_plane(&report.frame, found);
            named_value(alloc, &report.frame, found, origin)
        }
    }
}

// The special heights.
fn heights_value(
    alloc: Global,
    report: &Report,
    heights: &[HeightSection],
) -> Result<Value, NoMemory>
    requires { All (λ h. IsSmallHeight (fraction_of h.s)) heights.now }
    ensures { IfOk result (λ value. view value
        ≡ array (items_of (map (height_data (report_of report.now)) (map block_of heights.now)))) }
{
    let mut values = Vec::new(alloc);
    for height in heights {
        values.push(height_value(alloc, report, height)?)?;
    }
    Ok(Value::from(values))
}

#[tactic(auto, unfolding(crate::specs::Values::height_data))]
fn height_value(alloc: Global, report: &Report, height: &HeightSection) -> Result<Value, NoMemory>
    requires { IsSmallHeight (fraction_of height.now.s) }
    ensures { IfOk result
        (λ value. view value ≡ height_data (report_of report.now) (block_of height.now)) }
{
    let s = height.s;
    json!(in alloc; {
        "height": format!(in alloc; "{s}")?,
        "ops": operations_value(alloc, &height.section.ops)?,
        "orbit": height.orbit,
        "type": type_value(alloc, report, s, &height.section.found)?,
    })
}

fn type_value(
    alloc: Global,
    report: &Report,
    s: Ratio,
    found: &Option<Found>,
) -> Result<Value, NoMemory>
    requires { IsSmallHeight (fraction_of s) }
    ensures { IfOk result (λ value. view value
        ≡ type_data (report_of report.now) (fraction_of s) (option_map change_of found.now)) }
{
    match found {
        None => Ok(Value::Null),
        Some(found) => {
            let origin = origin_at_height(&report.frame, s, found);
            named_value(alloc, &report.frame, found, origin)
        }
    }
}

// The coordinate triplets of the operations.
#[tactic(auto, unfolding(crate::specs::Values::operations_data))]
fn operations_value(alloc: Global, ops: &[Motion3]) -> Result<Value, NoMemory>
    ensures { IfOk result (λ value. view value ≡ operations_data (map motion_of ops.now)) }
{
    let mut values = Vec::new(alloc);
    for m in ops {
        values.push(operation_value(alloc, m)?)?;
    }
    Ok(Value::from(values))
}

fn operation_value(alloc: Global, m: &Motion3) -> Result<Value, NoMemory>
    ensures { IfOk result (λ value. view value ≡ string (triplet_text (motion_of m.now))) }
{
    let triplet = Triplet(m);
    Ok(Value::from(format!(in alloc; "{triplet}")?))
}

// A type, by the change that was found and its origin.
#[tactic(auto, unfolding(crate::specs::Values::named_data))]
fn named_value(
    alloc: Global,
    frame: &Frame,
    found: &Found,
    origin: InEdges,
) -> Result<Value, NoMemory>
    ensures { IfOk result (λ value. view value
        ≡ named_data (basis_of_frame frame.now) (fractions_of frame.now.c) (edges_of origin)
        (change_of found.now)) }
{
    let basis = TypeBasis::of(frame, found);
    json!(in alloc; {
        "basis": [
            vector_value(alloc, basis.first)?,
            vector_value(alloc, basis.second)?,
            third_value(alloc, basis.third)?,
        ],
        "number": found.number,
        "origin": fractions_value(alloc, origin)?,
        "symbol": symbol(found),
    })
}

#[tactic(auto, unfolding(crate::specs::Values::fractions_data))]
fn third_value(alloc: Global, third: Directed) -> Result<Value, NoMemory>
    ensures { IfOk result (λ value. view value ≡ fractions_data (directed_of third)) }
{
    Ok(Value::from(format!(in alloc; "{third}")?))
}
