// The least vectors of a lattice along the axes.
ghost use Rattle.std.specs.Prelude.{◌≡◌, ◌↔◌, IsTrue, ◌⊎◌, ◌<ℤ◌, ◌≤ℤ◌, pos, All, Contains, map};
ghost use Rattle.fractions.specs.declared.part.TheConstants.{UNIT};
ghost use Rattle.motions.specs.Views.{parts};
ghost use Rattle.reduction.specs.LeadingEntries.{edge_at, leading_entry};

use fractions::{Part, UNIT};

/// The entry at a place, where those before it are 0; else 0.
fn leading_entry(v: &[Part; 3], place: usize) -> i64
    ensures { result ≡ leading_entry place (parts v.now) }
{
    if place == 0 {
        v[0].0
    } else if v[0].0 != 0 {
        0
    } else if place == 1 {
        v[1].0
    } else if v[1].0 != 0 {
        0
    } else {
        v[2].0
    }
}

/// The edge along an axis.
fn edge(place: usize) -> [Part; 3]
    ensures { parts result ≡ edge_at place }
{
    if place == 0 {
        [Part(UNIT), Part(0), Part(0)]
    } else if place == 1 {
        [Part(0), Part(UNIT), Part(0)]
    } else {
        [Part(0), Part(0), Part(UNIT)]
    }
}

/// Whether the leading entry of the first vector is positive and less than that of the second.
fn is_less_along(v: &[Part; 3], least: &[Part; 3], place: usize) -> bool
    ensures { IsTrue result ↔ ((pos 0 <ℤ leading_entry place (parts v.now))
        × (leading_entry place (parts v.now) <ℤ leading_entry place (parts least.now))) }
{
    let here = leading_entry(v, place);
    let there = leading_entry(least, place);
    here > 0 && here < there
}

/// Of the edge along an axis and the residues, one with the least positive entry there and 0 before it: the first such.
///
/// Residues stand in lexicographic order, so it depends on the lattice alone.
pub(crate) fn least_along(residues: &[[Part; 3]], place: usize) -> [Part; 3]
    ensures one { (parts result ≡ edge_at place)
        ⊎ Contains (map parts residues.now) (parts result) }
    ensures positive { pos 0 <ℤ leading_entry place (parts result) }
    ensures most { leading_entry place (parts result) ≤ℤ UNIT }
    ensures least { All (λ r. pos 0 <ℤ leading_entry place (parts r)
        → leading_entry place (parts result) ≤ℤ leading_entry place (parts r)) residues.now }
{
    let mut least = edge(place);
    for r in residues {
        if is_less_along(r, &least, place) {
            least = *r;
        }
    }
    least
}
