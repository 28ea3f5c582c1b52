// The symbol, the basis and the origin of a rod type.
ghost use Rattle.std.specs.Prelude.{◌≡◌, ◌+ℤ◌, ◌*ℤ◌, ◌≤ℤ◌, ◌<◌, ◌^◌, pos};
ghost use Rattle.fractions.specs.FractionOf.{fraction_of};
ghost use Rattle.fractions.specs.Fractions.{fractions_of};
ghost use Rattle.fractions.specs.LowestTerms.{lowest_terms};
ghost use Rattle.fractions.specs.declared.part.TheConstants.{UNIT};
ghost use Rattle.integers.specs.Size.{IsWithin};
ghost use Rattle.symmetry.specs.Sizes.{IsVectorWithin};
ghost use Rattle.symmetry.specs.Vectors.{multiple};
ghost use Rattle.line_types.specs.RodRows.{rod_row};
ghost use Rattle.motions.specs.Views.{parts};
ghost use Rattle.plane_lattice.specs.Bounds.{largest_entry};
ghost use Rattle.recognition.specs.declared.found_rod.TheConstants.{ROD_GRID};
ghost use Rattle.recognition.specs.RodTypes.{change_of};
ghost use Rattle.penetration.specs.RodOperations.{AreAcrossFractions, IsAcrossFraction, vector_across};
ghost use Rattle.report.specs.RodTexts.{combined_fraction, combined_fractions, first_across, origin_along, second_across, third_along};
ghost use Rattle.report.specs.TypeVectors.{lowest_point};
ghost use Rattle.report.specs.WrittenView.{edges_of, parts_of};

use crate::named::lowest;
use crate::written::{InEdges, InParts};
use fractions::{Part, Ratio, UNIT};
use line_types::rod;
use penetration::{Rod, RodFrame};
use recognition::{FoundRod, ROD_GRID, hand};

/// The symbol of the type.
pub(crate) fn symbol(found: &FoundRod) -> &'static str
    ensures { result.now ≡ (rod_row (change_of found.now).number).symbol }
{
    let Some(rod_type) = rod(found.number) else {
        unreachable!()
    };
    rod_type.symbol
}

/// The vector a' of a frame, or b'.
pub(crate) fn across_at(frame: &RodFrame, i: usize) -> [Ratio; 3]
    requires { i < 2 }
    ensures { fractions_of result ≡ vector_across frame.now.across i }
{
    match frame.across[..].get(i) {
        Some(v) => *v,
        None => unreachable!(),
    }
}

/// The basis of a rod type: its two vectors across the axis, and the third one along it.
#[derive(Clone, Copy)]
pub(crate) struct RodTypeBasis {
    pub(crate) first: InEdges,
    pub(crate) second: InEdges,
    pub(crate) third: InParts,
}

impl RodTypeBasis {
    /// The basis by the change that was found.
    pub(crate) fn of(frame: &RodFrame, found: &FoundRod) -> RodTypeBasis
        ensures first { edges_of result.first
            ≡ first_across (vector_across frame.now.across 0) (vector_across frame.now.across 1)
            (change_of found.now) }
        ensures second { edges_of result.second
            ≡ second_across (vector_across frame.now.across 0) (vector_across frame.now.across 1)
            (change_of found.now) }
        ensures third { parts_of result.third
            ≡ third_along (parts frame.now.axis) (change_of found.now) }
    {
        let a = InEdges::of(&across_at(frame, 0));
        let b = InEdges::of(&across_at(frame, 1));
        RodTypeBasis {
            first: combined(found.p[0][0], found.p[1][0], a, b),
            second: combined(found.p[0][1], found.p[1][1], a, b),
            third: directed(&frame.axis, hand(&found.p)),
        }
    }
}

// A multiple of a vector.
#[tactic(auto, unfolding(symmetry::specs::Vectors::multiple))]
fn directed(v: &[Part; 3], n: i64) -> InParts
    requires v { IsVectorWithin largest_entry (parts v.now) }
    requires n { IsWithin 1 n }
    ensures { parts_of result ≡ multiple n (parts v.now) }
{
    InParts {
        x: directed_entry(v[0], n),
        y: directed_entry(v[1], n),
        z: directed_entry(v[2], n),
    }
}

fn directed_entry(part: Part, n: i64) -> Part
    requires part { IsWithin largest_entry part.0 }
    requires n { IsWithin 1 n }
    ensures { result.0 ≡ n *ℤ part.0 }
{
    Part(n * part.0)
}

// x v + y w, in lowest terms.
fn combined(x: i64, y: i64, v: InEdges, w: InEdges) -> InEdges
    requires x { IsWithin 2 x }
    requires y { IsWithin 2 y }
    requires v { AreAcrossFractions (edges_of v) }
    requires w { AreAcrossFractions (edges_of w) }
    ensures { edges_of result ≡ combined_fractions x y (edges_of v) (edges_of w) }
{
    InEdges {
        x: combined_entry(x, y, v.x, w.x),
        y: combined_entry(x, y, v.y, w.y),
        z: combined_entry(x, y, v.z, w.z),
    }
}

fn combined_entry(x: i64, y: i64, v: Ratio, w: Ratio) -> Ratio
    requires x { IsWithin 2 x }
    requires y { IsWithin 2 y }
    requires v { IsAcrossFraction (fraction_of v) }
    requires w { IsAcrossFraction (fraction_of w) }
    ensures { fraction_of result ≡ combined_fraction x y (fraction_of v) (fraction_of w) }
{
    let above = term(x, v, w) + term(y, w, v);
    lowest(above, denominator(v, w))
}

// x v, over the product of both denominators.
fn term(x: i64, v: Ratio, w: Ratio) -> i64
    requires x { IsWithin 2 x }
    requires v { IsAcrossFraction (fraction_of v) }
    requires w { IsAcrossFraction (fraction_of w) }
    ensures is { result ≡ x *ℤ (fraction_of v).num *ℤ (fraction_of w).den }
    ensures small { IsWithin (2 ^ 61) result }
{
    x * v.num() as i64 * w.den() as i64
}

fn denominator(v: Ratio, w: Ratio) -> i64
    requires v { IsAcrossFraction (fraction_of v) }
    requires w { IsAcrossFraction (fraction_of w) }
    ensures is { result ≡ (fraction_of v).den *ℤ (fraction_of w).den }
    ensures above { pos 1 ≤ℤ result }
{
    v.den() as i64 * w.den() as i64
}

/// The origin p + (z/grid) c of a change, in lowest terms.
#[tactic(auto, unfolding(symmetry::specs::Vectors::multiple, symmetry::specs::Vectors::plus))]
pub(crate) fn origin_along(rod: &Rod, found: &FoundRod) -> InEdges
    requires { IsVectorWithin largest_entry (parts rod.now.point) }
    ensures { edges_of result
        ≡ lowest_point
        (origin_along (parts rod.now.point) (parts rod.now.frame.axis) (change_of found.now)) }
{
    let z = i64::from(found.z);
    let axis = &rod.frame.axis;
    InEdges {
        x: origin_entry(rod.point[0], axis[0], z),
        y: origin_entry(rod.point[1], axis[1], z),
        z: origin_entry(rod.point[2], axis[2], z),
    }
}

fn origin_entry(point: Part, axis: Part, z: i64) -> Ratio
    requires point { IsWithin largest_entry point.0 }
    requires axis { IsWithin largest_entry axis.0 }
    requires z { IsWithin 96 z }
    ensures { fraction_of result
        ≡ lowest_terms (ROD_GRID *ℤ point.0 +ℤ z *ℤ axis.0) (ROD_GRID *ℤ UNIT) }
{
    lowest(ROD_GRID * point.0 + z * axis.0, ROD_GRID * UNIT)
}
