// The arithmetic of coordinates in a basis: products in 128 bits, and what is left of a vector.
ghost use Rattle.std.specs.Prelude.{◌≡◌, ℤ, ◌+ℤ◌, ◌-ℤ◌, ◌*◌, ◌*ℤ◌, ◌^◌, ◌≤ℤ◌, pos, ◌↔◌, FitsSigned, IsTrue, MatchOption};
ghost use Rattle.std.specs.Int.{int_div_euclid, int_rem_euclid, w64};
ghost use Rattle.fractions.specs.declared.part.TheConstants.{UNIT};
ghost use Rattle.integers.specs.Size.{IsWithin};
ghost use Rattle.symmetry.specs.Frames.{combination};
ghost use Rattle.symmetry.specs.Sizes.{IsVectorWithin};
ghost use Rattle.symmetry.specs.Vectors.{cross, dot, minus};
ghost use Rattle.motions.specs.BasisView.{basis_of};
ghost use Rattle.motions.specs.Views.{parts, vector_of};
ghost use Rattle.plane_lattice.specs.Bounds.{largest_combined, largest_cross, largest_entry, largest_scaled};
ghost use Rattle.plane_lattice.specs.Coordinates.{floors, IsCombination, IsPlaneCombination, scaled, volume};

use fractions::{Part, UNIT};
use motions::Basis;

/// A row times a column.
#[tactic(auto, unfolding(symmetry::specs::Vectors::dot))]
pub(crate) fn row_by_column(row: &[i64; 3], v: &[Part; 3]) -> i128
    requires row { IsVectorWithin largest_cross (vector_of row.now) }
    requires v { IsVectorWithin (2 ^ 52) (parts v.now) }
    ensures is { result ≡ dot (vector_of row.now) (parts v.now) }
    ensures small { IsWithin largest_scaled result }
{
    wide_product(row[0], v[0]) + wide_product(row[1], v[1]) + wide_product(row[2], v[2])
}

/// The product of two numbers, of which the second is a number of parts.
fn wide_product(x: i64, part: Part) -> i128
    requires x { IsWithin largest_cross x }
    requires part { IsWithin (2 ^ 52) part.0 }
    ensures is { result ≡ x *ℤ part.0 }
    ensures small { IsWithin (largest_cross * 2 ^ 52) result }
{
    x as i128 * part.0 as i128
}

/// The cross product of two vectors of a basis.
#[tactic(auto, unfolding(symmetry::specs::Vectors::cross))]
pub(crate) fn cross(v: &[Part; 3], w: &[Part; 3]) -> [i64; 3]
    requires v { IsVectorWithin largest_entry (parts v.now) }
    requires w { IsVectorWithin largest_entry (parts w.now) }
    ensures is { vector_of result ≡ cross (parts v.now) (parts w.now) }
    ensures small { IsVectorWithin largest_cross (vector_of result) }
{
    [
        minor(v[1], v[2], w[1], w[2]),
        minor(v[2], v[0], w[2], w[0]),
        minor(v[0], v[1], w[0], w[1]),
    ]
}

/// The determinant of the rows (a, b) and (c, d).
fn minor(a: Part, b: Part, c: Part, d: Part) -> i64
    requires a { IsWithin largest_entry a.0 }
    requires b { IsWithin largest_entry b.0 }
    requires c { IsWithin largest_entry c.0 }
    requires d { IsWithin largest_entry d.0 }
    ensures is { result ≡ a.0 *ℤ d.0 -ℤ b.0 *ℤ c.0 }
    ensures small { IsWithin largest_cross result }
{
    a.0 * d.0 - b.0 * c.0
}

/// The quotient of two numbers, rounded down.
pub fn floor(x: i128, d: i128) -> i128
    requires x { IsWithin largest_scaled x }
    requires d { IsWithin largest_scaled d }
    requires positive { pos 1 ≤ℤ d }
    ensures is { result ≡ int_div_euclid x d }
    ensures small { IsWithin largest_scaled result }
{
    x.div_euclid(d)
}

/// How often a vector has a whole a and a whole b, from its coordinates times the volume d.
pub(crate) fn whole_part(scaled: &[i128; 3], d: i128) -> [i128; 3]
    requires scaled { IsVectorWithin largest_scaled (vector_of scaled.now) }
    requires d { IsWithin largest_scaled d }
    requires positive { pos 1 ≤ℤ d }
    ensures is { vector_of result ≡ floors (vector_of scaled.now) d }
    ensures small { IsVectorWithin largest_scaled (vector_of result) }
{
    [floor(scaled[0], d), floor(scaled[1], d), 0]
}

/// The vector without a combination of the basis.
pub fn without(v: &[Part; 3], basis: &Basis, c: &[i128; 3]) -> [Part; 3]
    requires vector { IsVectorWithin (2 ^ 40) (parts v.now) }
    requires coefficients { IsVectorWithin largest_scaled (vector_of c.now) }
    requires rest { IsVectorWithin (2 ^ 62)
        (minus (parts v.now) (combination (basis_of basis.now) (vector_of c.now))) }
    ensures { parts result
        ≡ minus (parts v.now) (combination (basis_of basis.now) (vector_of c.now)) }
{
    [
        difference(v[0], combined(c, basis.a[0], basis.b[0], basis.tau[0])),
        difference(v[1], combined(c, basis.a[1], basis.b[1], basis.tau[1])),
        difference(v[2], combined(c, basis.a[2], basis.b[2], basis.tau[2])),
    ]
}

/// An entry of a combination: x a + y b + z tau.
fn combined(c: &[i128; 3], a: Part, b: Part, tau: Part) -> i128
    requires coefficients { IsVectorWithin largest_scaled (vector_of c.now) }
    requires a { IsWithin largest_entry a.0 }
    requires b { IsWithin largest_entry b.0 }
    requires tau { IsWithin largest_entry tau.0 }
    ensures is { result
        ≡ (vector_of c.now).x *ℤ a.0 +ℤ (vector_of c.now).y *ℤ b.0 +ℤ (vector_of c.now).z *ℤ tau.0 }
    ensures small { IsWithin largest_combined result }
{
    wide_multiple(c[0], a) + wide_multiple(c[1], b) + wide_multiple(c[2], tau)
}

/// A multiple of a number of parts.
fn wide_multiple(x: i128, part: Part) -> i128
    requires x { IsWithin largest_scaled x }
    requires part { IsWithin largest_entry part.0 }
    ensures is { result ≡ x *ℤ part.0 }
    ensures small { IsWithin (largest_scaled * largest_entry) result }
{
    x * part.0 as i128
}

/// A number of parts less another.
fn difference(part: Part, taken: i128) -> Part
    requires part { IsWithin (2 ^ 40) part.0 }
    requires taken { IsWithin largest_combined taken }
    requires rest { IsWithin (2 ^ 62) (part.0 -ℤ taken) }
    ensures { result.0 ≡ part.0 -ℤ taken }
{
    Part((part.0 as i128 - taken) as i64)
}

/// A coordinate in parts, of a coordinate that is given times the volume d.
pub(crate) fn edge_coordinate(x: i128, d: i128) -> i64
    requires x { IsWithin largest_scaled x }
    requires d { IsWithin largest_scaled d }
    requires positive { pos 1 ≤ℤ d }
    requires whole { int_rem_euclid (x *ℤ UNIT) d ≡ pos 0 }
    requires fits { FitsSigned w64 (int_div_euclid (x *ℤ UNIT) d) }
    ensures { d *ℤ result ≡ x *ℤ UNIT }
{
    (x * UNIT as i128).div_euclid(d) as i64
}
