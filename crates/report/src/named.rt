// The symbol, the basis and the origin of the type of a section.
ghost use Rattle.std.specs.Prelude.{◌≡◌, ◌+ℤ◌, ◌*ℤ◌, ◌≤ℤ◌, ◌*◌, int_lt, pos, unsigned_abs};
ghost use Rattle.fractions.specs.FractionOf.{fraction_of};
ghost use Rattle.fractions.specs.Fractions.{fractions_of};
ghost use Rattle.fractions.specs.LowestTerms.{lowest_terms};
ghost use Rattle.fractions.specs.declared.part.TheConstants.{UNIT};
ghost use Rattle.integers.specs.Size.{IsWithin};
ghost use Rattle.symmetry.specs.Sizes.{IsVectorWithin};
ghost use Rattle.symmetry.specs.Vectors.{multiple, plus};
ghost use Rattle.layer_types.specs.Rows.{layer_row};
ghost use Rattle.motions.specs.PlaneMatrices.{determinant2};
ghost use Rattle.plane_lattice.specs.Bounds.{largest_entry, largest_period};
ghost use Rattle.plane_lattice.specs.FrameView.{basis_of_frame};
ghost use Rattle.recognition.specs.Grid.{grid};
ghost use Rattle.recognition.specs.Search.{change_of};
ghost use Rattle.plane_lattice.specs.SmallHeights.{IsSmallHeight};
ghost use Rattle.report.specs.TypeVectors.{first_vector, lowest_point, origin_at_height, origin_in_plane, second_vector, third_vector};
ghost use Rattle.report.specs.WrittenView.{directed_of, edges_of, parts_of};

use crate::written::{Directed, InEdges, InParts};
use fractions::{Part, Ratio, UNIT};
use layer_types::layer;
use plane_lattice::Frame;
use recognition::{Found, GRID, determinant};

// An origin x a + y b of the grid, with a and b in parts, is counted in cell edges over this.
const OVER: i64 = GRID as i64 * UNIT;

/// The symbol of the type.
pub(crate) fn symbol(found: &Found) -> &'static str
    ensures { result.now ≡ (layer_row (change_of found.now).number).symbol }
{
    let Some(layer_type) = layer(found.number) else {
        unreachable!()
    };
    layer_type.symbol
}

/// The basis of a type: its two vectors in the plane, and the third one.
#[derive(Clone, Copy)]
pub(crate) struct TypeBasis {
    pub(crate) first: InParts,
    pub(crate) second: InParts,
    pub(crate) third: Directed,
}

impl TypeBasis {
    /// The basis by the change that was found.
    pub(crate) fn of(frame: &Frame, found: &Found) -> TypeBasis
        ensures first { parts_of result.first
            ≡ first_vector (basis_of_frame frame.now) (change_of found.now) }
        ensures second { parts_of result.second
            ≡ second_vector (basis_of_frame frame.now) (change_of found.now) }
        ensures third { directed_of result.third
            ≡ third_vector (fractions_of frame.now.c) (change_of found.now) }
    {
        TypeBasis {
            first: in_plane(frame, found.p[0][0], found.p[1][0]),
            second: in_plane(frame, found.p[0][1], found.p[1][1]),
            third: Directed {
                v: InEdges::of(&frame.c),
                opposite: is_turned(found),
            },
        }
    }
}

// Whether the determinant of the matrix is negative.
fn is_turned(found: &Found) -> bool
    ensures { result ≡ int_lt (determinant2 (change_of found.now).matrix) (pos 0) }
{
    determinant(&found.p) < 0
}

/// The origin (x/grid) a + (y/grid) b of a change, in lowest terms.
pub(crate) fn origin_in_plane(frame: &Frame, found: &Found) -> InEdges
    ensures { edges_of result
        ≡ lowest_point (origin_in_plane (basis_of_frame frame.now) (change_of found.now)) }
{
    let v = grid_vector(frame, found);
    InEdges {
        x: lowest(v.x.0, OVER),
        y: lowest(v.y.0, OVER),
        z: lowest(v.z.0, OVER),
    }
}

/// The origin (s/d) tau + (x/grid) a + (y/grid) b of a change at a special height, in lowest terms.
pub(crate) fn origin_at_height(frame: &Frame, s: Ratio, found: &Found) -> InEdges
    requires { IsSmallHeight (fraction_of s) }
    ensures { edges_of result
        ≡ lowest_point (origin_at_height
        frame.now.period.0 (fraction_of s) (basis_of_frame frame.now) (change_of found.now)) }
{
    let v = grid_vector(frame, found);
    InEdges {
        x: origin_entry(s, frame.period, frame.tau[0], v.x),
        y: origin_entry(s, frame.period, frame.tau[1], v.y),
        z: origin_entry(s, frame.period, frame.tau[2], v.z),
    }
}

// An entry of it, by the entries of tau and of x a + y b.
fn origin_entry(s: Ratio, period: Part, tau: Part, v: Part) -> Ratio
    requires s { IsSmallHeight (fraction_of s) }
    requires period { IsWithin largest_period period.0 }
    requires above { pos 1 ≤ℤ period.0 }
    requires tau { IsWithin largest_entry tau.0 }
    requires v { IsWithin (2 * (grid * largest_entry)) v.0 }
    ensures { let q = fraction_of s in
        fraction_of result ≡ lowest_terms
        (pos grid *ℤ UNIT *ℤ (q.num *ℤ UNIT *ℤ tau.0) +ℤ q.den *ℤ period.0 *ℤ UNIT *ℤ v.0)
        (q.den *ℤ period.0 *ℤ UNIT *ℤ (pos grid *ℤ UNIT)) }
{
    let num = s.num() as i64;
    let den = s.den() as i64;
    lowest(
        numerator(num, den, period, tau, v),
        denominator(den, period),
    )
}

fn numerator(num: i64, den: i64, period: Part, tau: Part, v: Part) -> i64
    requires num { IsWithin (2 * largest_period) num }
    requires den { IsWithin (2 * unsigned_abs UNIT) den }
    requires period { IsWithin largest_period period.0 }
    requires tau { IsWithin largest_entry tau.0 }
    requires v { IsWithin (2 * (grid * largest_entry)) v.0 }
    ensures { result ≡ pos grid *ℤ UNIT *ℤ (num *ℤ tau.0) +ℤ den *ℤ period.0 *ℤ v.0 }
{
    OVER * (num * tau.0) + den * period.0 * v.0
}

fn denominator(den: i64, period: Part) -> i64
    requires den { IsWithin (2 * unsigned_abs UNIT) den }
    requires above { pos 1 ≤ℤ den }
    requires period { IsWithin largest_period period.0 }
    requires period_above { pos 1 ≤ℤ period.0 }
    ensures is { result ≡ den *ℤ period.0 *ℤ (pos grid *ℤ UNIT) }
    ensures above { pos 1 ≤ℤ result }
{
    den * period.0 * OVER
}

/// A ratio in lowest terms.
pub(crate) fn lowest(num: i64, den: i64) -> Ratio
    requires { pos 1 ≤ℤ den }
    ensures { fraction_of result ≡ lowest_terms num den }
{
    Ratio::make(i128::from(num), i128::from(den)).unwrap()
}

// x a + y b, for the origin (x, y) of the grid.
fn grid_vector(frame: &Frame, found: &Found) -> InParts
    ensures is { parts_of result
        ≡ (origin_in_plane (basis_of_frame frame.now) (change_of found.now)).at }
    ensures small { IsVectorWithin (2 * (grid * largest_entry)) (parts_of result) }
{
    in_plane(frame, i64::from(found.x), i64::from(found.y))
}

// x a + y b.
fn in_plane(frame: &Frame, x: i64, y: i64) -> InParts
    requires x { IsWithin grid x }
    requires y { IsWithin grid y }
    ensures is { parts_of result
        ≡ plus (multiple x (basis_of_frame frame.now).a) (multiple y (basis_of_frame frame.now).b) }
    ensures small { IsVectorWithin (2 * (grid * largest_entry)) (parts_of result) }
{
    InParts {
        x: entry_in_plane(frame.a[0], frame.b[0], x, y),
        y: entry_in_plane(frame.a[1], frame.b[1], x, y),
        z: entry_in_plane(frame.a[2], frame.b[2], x, y),
    }
}

fn entry_in_plane(a: Part, b: Part, x: i64, y: i64) -> Part
    requires a { IsWithin largest_entry a.0 }
    requires b { IsWithin largest_entry b.0 }
    requires x { IsWithin grid x }
    requires y { IsWithin grid y }
    ensures is { result.0 ≡ x *ℤ a.0 +ℤ y *ℤ b.0 }
    ensures small { IsWithin (2 * (grid * largest_entry)) result.0 }
{
    Part(x * a.0 + y * b.0)
}
