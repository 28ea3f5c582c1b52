// The triples that are equivalent to an orientation.
ghost use Rattle.std.specs.Prelude.{◌≡◌, ◌↔◌, ◌≤◌, ◌+◌, ◌⊎◌, ◌++◌, ◌∷◌, [], Any, IfOk, IsTrue, OnOk, map, vec_len};
ghost use Rattle.motions.specs.Views.{row_of, vector_of};
ghost use Rattle.closure.specs.Groups.{group_listing};
ghost use Rattle.surveys.specs.Additions.{IsWith};
ghost use Rattle.surveys.specs.Surveys.{AreEquivalent, ListsSet};

use crate::rows::opposite_row;
use closure::Group;
use motions::{Miller, row_image};
use std::alloc::{AllocError, Global};

/// The rows (hkl) W and -(hkl) W of the operations, each once.
pub(crate) fn images(
    alloc: Global,
    group: &Group,
    plane: &Miller,
) -> Result<Vec<[i64; 3]>, AllocError>
    ensures each { IfOk result (λ rows.
        ListsSet (AreEquivalent (group_listing group.now) (row_of plane.now))
        (map vector_of rows.items)) }
    ensures few { IfOk result (λ rows. vec_len rows ≤ 384) }
{
    let mut rows = Vec::new(alloc);
    for m in group.ops() {
        let image = row_image(m, plane);
        let opposite = opposite_row(&image);
        add_row(&mut rows, &image)?;
        add_row(&mut rows, &opposite)?;
    }
    Ok(rows)
}

/// Appends the row where it is not listed.
fn add_row(rows: &mut Vec<[i64; 3]>, row: &[i64; 3]) -> Result<(), AllocError>
    ensures with { OnOk result (IsWith (map vector_of rows.old.items) (vector_of row.now)
        (map vector_of rows.new.items)) }
    ensures few { OnOk result (vec_len rows.new ≤ vec_len rows.old + 1) }
{
    if !lists_row(rows, row) {
        rows.push(*row)?;
    }
    Ok(())
}

/// Whether the row is one of the list.
fn lists_row(rows: &[[i64; 3]], row: &[i64; 3]) -> bool
    ensures { IsTrue result ↔ Any (λ v. vector_of row.now ≡ v) (map vector_of rows.now) }
{
    rows.contains(row)
}
