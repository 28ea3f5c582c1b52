// The orientations within a survey, the greatest first.
ghost use Rattle.std.specs.Prelude.{◌≡◌, ◌≤ℤ◌, ◌<ℤ◌, ◌*ℤ◌, pos, MatchOption, unsigned_abs};
ghost use Rattle.symmetry.specs.Sizes.{IsVectorWithin};
ghost use Rattle.symmetry.specs.Vectors.{Vector};
ghost use Rattle.motions.specs.Views.{row_of, vector_of};
ghost use Rattle.surveys.specs.Places.{place_of, side};
ghost use Rattle.surveys.specs.Surveys.{IsWithinSurvey};

use motions::Miller;

/// The orientation with indices at most n in size at the place. None comes exactly where the triple there is not
/// coprime.
pub(crate) fn plane_at(n: i64, place: u32) -> Option<Miller>
    requires from { pos 1 ≤ℤ n }
    requires most { n ≤ℤ pos 5 }
    requires place { pos place <ℤ (side n *ℤ side n *ℤ side n) }
    ensures { MatchOption result
        ((r : Vector) → IsWithinSurvey (unsigned_abs n) r → ¬ (place_of n r ≡ pos place))
        (λ plane. IsVectorWithin (unsigned_abs n) (row_of plane)
        × (place_of n (row_of plane) ≡ pos place)) }
{
    let [h, k, l] = triple_at(n, place);
    Miller::make(h, k, l).ok()
}

/// The triple with indices at most n in size at the place.
fn triple_at(n: i64, place: u32) -> [i64; 3]
    requires from { pos 1 ≤ℤ n }
    requires most { n ≤ℤ pos 5 }
    requires place { pos place <ℤ (side n *ℤ side n *ℤ side n) }
    ensures within { IsVectorWithin (unsigned_abs n) (vector_of result) }
    ensures place { place_of n (vector_of result) ≡ pos place }
{
    let side = (2 * n + 1) as u32;
    let row = place / side;
    [
        n - i64::from(row / side),
        n - i64::from(row % side),
        n - i64::from(place % side),
    ]
}
