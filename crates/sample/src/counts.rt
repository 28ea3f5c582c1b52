// What is counted over reports.
ghost use Rattle.std.specs.Prelude.{◌≡◌, ◌+◌, ◌-◌, ◌≤◌, ◌^◌, ◌++◌, IfOk, OnOk, count_by, is_none, length, option_map, string_bytes};
ghost use Rattle.recognition.specs.Search.{change_of};
ghost use Rattle.report.specs.ReportView.{report_of};
ghost use Rattle.sample.specs.Counted.{count_line, counts_of, counts_plus, counts_text, has_number, no_counts, types_of};
ghost use Rattle.sample.specs.CountSizes.{AreCountsWithin, most_heights};

use recognition::Found;
use report::Report;
use std::alloc::{AllocError, Global};

/// Memory ran out.
pub type NoMemory = AllocError;

/// What is counted over the reports of groups, each made from a layer type.
#[derive(Clone, Copy, PartialEq, Eq, Debug)]
pub struct Counts {
    /// The groups.
    pub groups: u32,
    /// The special heights from 0 to below the period, of each group.
    pub special: u32,
    /// The sections: the general one and that of each special height, of each group.
    pub sections: u32,
    /// The sections with the layer type that their group is made from.
    pub own: u32,
    /// The sections without a layer type.
    pub unrecognised: u32,
}

impl Counts {
    /// The counts over no report.
    pub(crate) fn none() -> Counts
        ensures { result ≡ no_counts }
    {
        Counts {
            groups: 0,
            special: 0,
            sections: 0,
            own: 0,
            unrecognised: 0,
        }
    }

    /// The counts over one report, of a group that is made from the layer type of this number.
    pub(crate) fn of_report(report: &Report, number: u8) -> Counts
        requires { length report.now.heights.items ≤ most_heights }
        ensures counts { result ≡ counts_of number (report_of report.now) }
        ensures within { AreCountsWithin (most_heights + 1) result }
    {
        let special = report.heights.len() as u32;
        Counts {
            groups: 1,
            special,
            sections: special + 1,
            own: own_sections(report, number),
            unrecognised: unrecognised_sections(report),
        }
    }

    /// The counts over the reports of both.
    pub(crate) fn plus(self, other: Counts) -> Counts
        requires first { AreCountsWithin (2 ^ 31 - 1) self }
        requires second { AreCountsWithin (2 ^ 31 - 1) other }
        ensures { result ≡ counts_plus self other }
    {
        Counts {
            groups: self.groups + other.groups,
            special: self.special + other.special,
            sections: self.sections + other.sections,
            own: self.own + other.own,
            unrecognised: self.unrecognised + other.unrecognised,
        }
    }
}

/// How many sections of the report have the layer type of this number.
fn own_sections(report: &Report, number: u8) -> u32
    requires { length report.now.heights.items ≤ most_heights }
    ensures { result ≡ count_by (has_number number) (types_of (report_of report.now)) }
{
    let mut own = 0;
    if has_number(&report.general.found, number) {
        own += 1;
    }
    for height in &report.heights {
        if has_number(&height.section.found, number) {
            own += 1;
        }
    }
    own
}

/// Whether a section has the layer type of this number.
fn has_number(found: &Option<Found>, number: u8) -> bool
    ensures { result ≡ has_number number (option_map change_of found.now) }
{
    match found {
        Some(found) => found.number == number,
        None => false,
    }
}

/// How many sections of the report have no layer type.
fn unrecognised_sections(report: &Report) -> u32
    requires { length report.now.heights.items ≤ most_heights }
    ensures { result ≡ count_by is_none (types_of (report_of report.now)) }
{
    let mut unrecognised = 0;
    if report.general.found.is_none() {
        unrecognised += 1;
    }
    for height in &report.heights {
        if height.section.found.is_none() {
            unrecognised += 1;
        }
    }
    unrecognised
}

/// The text of counts: the lines `groups n`, `special n`, `sections n`, `own n` and `unrecognised n`, and `end`.
pub fn counts_text(alloc: Global, counts: &Counts) -> Result<Vec<u8>, NoMemory>
    ensures { IfOk result (λ text. text.items ≡ counts_text counts.now) }
{
    let mut text = String::new(alloc);
    write_count(&mut text, "groups", counts.groups)?;
    write_count(&mut text, "special", counts.special)?;
    write_count(&mut text, "sections", counts.sections)?;
    write_count(&mut text, "own", counts.own)?;
    write_count(&mut text, "unrecognised", counts.unrecognised)?;
    text.push_str("end\n")?;
    Ok(text.into_bytes())
}

fn write_count(text: &mut String, name: &str, n: u32) -> Result<(), NoMemory>
    ensures { OnOk result (string_bytes text.new ≡ string_bytes text.old ++ count_line name.now n) }
{
    write!(text, "{name} {n}\n")
}
