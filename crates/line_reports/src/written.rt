// Values as they are written.
ghost use Rattle.std.specs.Prelude.{◌≡◌};
ghost use Rattle.plane_motions.specs.PlaneMotions.{parts2};
ghost use Rattle.line_scans.specs.LineView.{line_scan_of};
ghost use Rattle.line_reports.specs.WrittenView.{edges_of, indices_of, parts_of, two_fractions_of};

use fractions::{Part, Ratio};
use line_scans::LineScan;
use std::fmt;

/// A vector counted in parts, written as two ratios of the cell edges.
#[derive(Clone, Copy)]
pub(crate) struct InParts {
    pub(crate) x: Part,
    pub(crate) y: Part,
}

impl InParts {
    pub(crate) fn of(v: &[Part; 2]) -> InParts
        ensures { parts_of result ≡ parts2 v.now }
    {
        InParts { x: v[0], y: v[1] }
    }
}

impl fmt::Display for InParts {
    ghost use Rattle.std.specs.Prelude.{Some};
    ghost use Rattle.line_reports.specs.LineTexts.{vector_text};
    ghost use Rattle.line_reports.specs.WrittenView.{parts_of};

    ghost output = { λ v. Some (vector_text (parts_of v)) };

    fn fmt<W: fmt::Write>(&self, f: &mut fmt::Formatter<W>) -> fmt::Result {
        write!(f, "{},{}", self.x, self.y)
    }
}

/// A vector counted in cell edges, written as two ratios.
#[derive(Clone, Copy)]
pub(crate) struct InEdges {
    pub(crate) x: Ratio,
    pub(crate) y: Ratio,
}

impl InEdges {
    pub(crate) fn of(v: &[Ratio; 2]) -> InEdges
        ensures { edges_of result ≡ two_fractions_of v.now }
    {
        InEdges { x: v[0], y: v[1] }
    }
}

impl fmt::Display for InEdges {
    ghost use Rattle.std.specs.Prelude.{Some};
    ghost use Rattle.line_reports.specs.LineTexts.{fractions_text};
    ghost use Rattle.line_reports.specs.WrittenView.{edges_of};

    ghost output = { λ v. Some (fractions_text (edges_of v)) };

    fn fmt<W: fmt::Write>(&self, f: &mut fmt::Formatter<W>) -> fmt::Result {
        write!(f, "{},{}", self.x, self.y)
    }
}

/// The indices of lines, written with a blank before each.
#[derive(Clone, Copy)]
pub(crate) struct Indices {
    pub(crate) h: i64,
    pub(crate) k: i64,
}

impl Indices {
    pub(crate) fn of(scan: &LineScan) -> Indices
        ensures { indices_of result ≡ (line_scan_of scan.now).row }
    {
        Indices {
            h: scan.h,
            k: scan.k,
        }
    }
}

impl fmt::Display for Indices {
    ghost use Rattle.std.specs.Prelude.{Some};
    ghost use Rattle.line_reports.specs.LineTexts.{indices_text};
    ghost use Rattle.line_reports.specs.WrittenView.{indices_of};

    ghost output = { λ v. Some (indices_text (indices_of v)) };

    fn fmt<W: fmt::Write>(&self, f: &mut fmt::Formatter<W>) -> fmt::Result {
        write!(f, " {} {}", self.h, self.k)
    }
}
