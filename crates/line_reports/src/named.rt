// The symbol and the origin of the frieze type of a section.
ghost use Rattle.std.specs.Prelude.{◌≡◌, ◌+ℤ◌, ◌*ℤ◌, ◌≤ℤ◌, ◌*◌, pos, unsigned_abs};
ghost use Rattle.fractions.specs.FractionOf.{fraction_of};
ghost use Rattle.fractions.specs.LowestTerms.{lowest_terms};
ghost use Rattle.fractions.specs.declared.part.TheConstants.{UNIT};
ghost use Rattle.friezes.specs.Types.{change_of};
ghost use Rattle.friezes.specs.declared.found_frieze.TheConstants.{GRID};
ghost use Rattle.integers.specs.Size.{IsWithin};
ghost use Rattle.line_types.specs.FriezeRows.{frieze_row};
ghost use Rattle.motions.specs.PlaneSizes.{IsPairWithin};
ghost use Rattle.plane_lattice.specs.Bounds.{largest_entry, largest_period};
ghost use Rattle.plane_motions.specs.PlaneMotions.{parts2};
ghost use Rattle.line_reports.specs.LineOrigins.{lowest_point2, origin_along, origin_at_height};
ghost use Rattle.plane_lattice.specs.SmallHeights.{IsSmallHeight};
ghost use Rattle.line_scans.specs.SmallLineScans.{IsSmallLineScan, IsSmallPeriod};
ghost use Rattle.line_reports.specs.WrittenView.{edges_of, parts_of};

use crate::written::{InEdges, InParts};
use fractions::{Part, Ratio, UNIT};
use friezes::{FoundFrieze, GRID};
use line_scans::LineScan;
use line_types::frieze;

// An origin x a of the grid, with a in parts, is counted in cell edges over this.
const OVER: i64 = GRID as i64 * UNIT;

/// The symbol of the type.
pub(crate) fn symbol(found: &FoundFrieze) -> &'static str
    ensures { result.now ≡ (frieze_row found.now.number).symbol }
{
    let Some(frieze_type) = frieze(found.number) else {
        unreachable!()
    };
    frieze_type.symbol
}

/// The origin (x/grid) a of a change, in lowest terms.
pub(crate) fn origin_along(a: &[Part; 2], found: &FoundFrieze) -> InEdges
    requires { IsPairWithin largest_entry (parts2 a.now) }
    ensures { edges_of result ≡ lowest_point2 (origin_along (parts2 a.now) (change_of found.now)) }
{
    let v = grid_vector(a, found);
    InEdges {
        x: lowest(v.x.0, OVER),
        y: lowest(v.y.0, OVER),
    }
}

/// The origin (s/d) tau + (x/grid) a of a change at a special height, in lowest terms.
pub(crate) fn origin_at_height(scan: &LineScan, s: Ratio, found: &FoundFrieze) -> InEdges
    requires scan { IsSmallLineScan scan.now }
    requires s { IsSmallHeight (fraction_of s) }
    ensures { edges_of result ≡ lowest_point2 (origin_at_height scan.now.period.0 (fraction_of s)
        (parts2 scan.now.a) (parts2 scan.now.tau) (change_of found.now)) }
{
    let v = grid_vector(&scan.a, found);
    InEdges {
        x: origin_entry(s, scan.period, scan.tau[0], v.x),
        y: origin_entry(s, scan.period, scan.tau[1], v.y),
    }
}

// An entry of it, by the entries of tau and of x a.
fn origin_entry(s: Ratio, period: Part, tau: Part, v: Part) -> Ratio
    requires s { IsSmallHeight (fraction_of s) }
    requires period { IsSmallPeriod period.0 }
    requires tau { IsWithin largest_entry tau.0 }
    requires v { IsWithin (GRID * largest_entry) v.0 }
    ensures { let q = fraction_of s in
        fraction_of result ≡ lowest_terms
        (pos GRID *ℤ UNIT *ℤ (q.num *ℤ UNIT *ℤ tau.0) +ℤ q.den *ℤ period.0 *ℤ UNIT *ℤ v.0)
        (q.den *ℤ period.0 *ℤ UNIT *ℤ (pos GRID *ℤ UNIT)) }
{
    let num = s.num() as i64;
    let den = s.den() as i64;
    lowest(
        numerator(num, den, period, tau, v),
        denominator(den, period),
    )
}

fn numerator(num: i64, den: i64, period: Part, tau: Part, v: Part) -> i64
    requires num { IsWithin (2 * largest_period) num }
    requires den { IsWithin (2 * unsigned_abs UNIT) den }
    requires period { IsWithin largest_period period.0 }
    requires tau { IsWithin largest_entry tau.0 }
    requires v { IsWithin (GRID * largest_entry) v.0 }
    ensures { result ≡ pos GRID *ℤ UNIT *ℤ (num *ℤ tau.0) +ℤ den *ℤ period.0 *ℤ v.0 }
{
    OVER * (num * tau.0) + den * period.0 * v.0
}

fn denominator(den: i64, period: Part) -> i64
    requires den { IsWithin (2 * unsigned_abs UNIT) den }
    requires above { pos 1 ≤ℤ den }
    requires period { IsWithin largest_period period.0 }
    requires period_above { pos 1 ≤ℤ period.0 }
    ensures is { result ≡ den *ℤ period.0 *ℤ (pos GRID *ℤ UNIT) }
    ensures above { pos 1 ≤ℤ result }
{
    den * period.0 * OVER
}

// x a, for the origin x of the grid.
fn grid_vector(a: &[Part; 2], found: &FoundFrieze) -> InParts
    requires { IsPairWithin largest_entry (parts2 a.now) }
    ensures is { parts_of result ≡ (origin_along (parts2 a.now) (change_of found.now)).at }
    ensures small { IsPairWithin (GRID * largest_entry) (parts_of result) }
{
    let x = i64::from(found.x);
    InParts {
        x: grid_entry(a[0], x),
        y: grid_entry(a[1], x),
    }
}

fn grid_entry(a: Part, x: i64) -> Part
    requires a { IsWithin largest_entry a.0 }
    requires x { IsWithin GRID x }
    ensures is { result.0 ≡ x *ℤ a.0 }
    ensures small { IsWithin (GRID * largest_entry) result.0 }
{
    Part(x * a.0)
}

// A ratio in lowest terms.
fn lowest(num: i64, den: i64) -> Ratio
    requires { pos 1 ≤ℤ den }
    ensures { fraction_of result ≡ lowest_terms num den }
{
    Ratio::make(i128::from(num), i128::from(den)).unwrap()
}
