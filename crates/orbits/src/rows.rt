// The orientations of planes that are the same to the crystal.
ghost use Rattle.std.specs.Prelude.{◌≡◌, ◌↔◌, Any, IfErr, IfOk, IsTrue, List, map, unsigned_abs};
ghost use Rattle.quotient.specs.Lists.{AreFirst};
ghost use Rattle.symmetry.specs.Groups.{Listing, SameModulo};
ghost use Rattle.symmetry.specs.Sizes.{IsVectorWithin};
ghost use Rattle.symmetry.specs.Vectors.{Vector};
ghost use Rattle.motions.specs.Views.{row_of, vector_of};
ghost use Rattle.closure.specs.Groups.{IsGroupOf};
ghost use Rattle.orbits.specs.Orientations.{AreOrientations, IsOrbitFault, IsWide};
ghost use Rattle.orbits.specs.declared.rows.TheConstants.{WIDE};

use crate::orbit_fault::OrbitFault;
use closure::Group;
use motions::{Miller, row_image};
use std::alloc::Global;

/// How large an index of an orientation that is the same to the crystal may be.
pub const WIDE: i64 = 500;

/// The orientations that are the same to the crystal as (hkl): the rows `(hkl) W` of the operations in order, each
/// triple at its first appearance. They are those of each listing of the group.
///
/// `Wide` comes exactly where an index of one of these triples passes [`WIDE`] in size.
pub fn orientations(
    alloc: Global,
    group: &Group,
    plane: Miller,
) -> Result<Vec<[i64; 3]>, OrbitFault>
    ensures rows { (g : Listing) → IsGroupOf g group.now →
        IfOk result (λ rows. AreOrientations g (row_of plane) (map vector_of rows.items)) }
    ensures narrow { (g : Listing) → IsGroupOf g group.now →
        IfOk result (λ _. ¬ IsWide g (row_of plane)) }
    ensures refused { (g : Listing) → IsGroupOf g group.now →
        IfErr result (IsOrbitFault g (row_of plane)) }
{
    let mut rows = Vec::new(alloc);
    for m in group.ops() {
        let row = row_image(m, &plane);
        if !is_narrow(&row) {
            return Err(OrbitFault::Wide);
        }
        if !lists_row(&rows, &row) {
            rows.push(row)?;
        }
    }
    Ok(rows)
}

/// Two listings have the same orientations where the operations of the one are those of the other, each at its first
/// appearance modulo the lattice.
pub fn orientations_of_first_operations()
    ensures { (g : Listing) (h : Listing) (r : Vector) (rows : List Vector) →
        AreFirst (SameModulo g) g.ops h.ops → AreOrientations g r rows ↔ AreOrientations h r rows }
{}

/// Whether no index of the row passes [`WIDE`] in size.
fn is_narrow(row: &[i64; 3]) -> bool
    ensures { IsTrue result ↔ IsVectorWithin (unsigned_abs WIDE) (vector_of row.now) }
{
    let largest = WIDE.unsigned_abs();
    row[0].unsigned_abs() <= largest
        && row[1].unsigned_abs() <= largest
        && row[2].unsigned_abs() <= largest
}

/// Whether the row is one of the list.
fn lists_row(rows: &[[i64; 3]], row: &[i64; 3]) -> bool
    ensures { IsTrue result ↔ Any (λ v. vector_of row.now ≡ v) (map vector_of rows.now) }
{
    rows.contains(row)
}
