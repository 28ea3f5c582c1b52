// Shorter vectors, by the form.
ghost use Rattle.std.specs.Prelude.{◌≡◌, ◌^◌, ◌≤ℤ◌, ◌<ℤ◌, ◌-ℤ◌, ◌*ℤ◌, pos, negsuc, MatchOption};
ghost use Rattle.integers.specs.Size.{IsWithin};
ghost use Rattle.motions.specs.Views.{vector_of};
ghost use Rattle.symmetry.specs.Sizes.{IsVectorWithin};
ghost use Rattle.symmetry.specs.Vectors.{opposite, Vector};
ghost use Rattle.symmetry.specs.Groups.{Listing};
ghost use Rattle.reduction.specs.BasisView.{vectors_of};
ghost use Rattle.reduction.specs.Pairs.{IsShortPair};
ghost use Rattle.reduction.specs.Reduced.{IsReduced};
ghost use Rattle.reduction.specs.Bounds.{largest_form_value, largest_short};
ghost use Rattle.reduction.specs.Forms.{by_form, form_matrix, IsForm, IsShort, IsUnshortened, Shortens};
ghost use Rattle.reduction.specs.LatticeBases.{combined, IsAdapted};

use crate::form::{Form, value_at};
use crate::lattice_basis::LatticeBasis;

/// How large a multiple is taken at once, so that no product overflows.
const STEP: i128 = 1 << 44;

/// The vector without a multiple of another, or with one, where that is shorter.
fn shortened(form: &Form, v: &[i64; 3], w: &[i64; 3]) -> Option<[i64; 3]>
    requires form { IsForm (form_matrix form.now) }
    requires v { IsShort (form_matrix form.now) (vector_of v.now) }
    requires w { IsShort (form_matrix form.now) (vector_of w.now) }
    ensures { MatchOption result
        (IsUnshortened (form_matrix form.now) (vector_of v.now) (vector_of w.now))
        (λ u. Shortens (form_matrix form.now) (vector_of v.now) (vector_of w.now) (vector_of u)) }
{
    match lessened(form, v, w) {
        Some(u) => Some(u),
        None => lessened(form, v, &opposite(w)),
    }
}

/// The vector with each sign changed.
#[tactic(auto, unfolding(symmetry::specs::Vectors::multiple))]
pub(crate) fn opposite(w: &[i64; 3]) -> [i64; 3]
    requires { IsVectorWithin largest_short (vector_of w.now) }
    ensures { vector_of result ≡ opposite (vector_of w.now) }
{
    [-w[0], -w[1], -w[2]]
}

/// The vector without a multiple of another, where that is shorter.
fn lessened(form: &Form, v: &[i64; 3], w: &[i64; 3]) -> Option<[i64; 3]>
    requires form { IsForm (form_matrix form.now) }
    requires v { IsShort (form_matrix form.now) (vector_of v.now) }
    requires w { IsShort (form_matrix form.now) (vector_of w.now) }
    ensures { MatchOption result
        (pos 1 ≤ℤ by_form (form_matrix form.now) (vector_of w.now) (vector_of w.now)
        → (pos 2 *ℤ by_form (form_matrix form.now) (vector_of v.now) (vector_of w.now))
        ≤ℤ by_form (form_matrix form.now) (vector_of w.now) (vector_of w.now))
        (λ u. Shortens (form_matrix form.now) (vector_of v.now) (vector_of w.now) (vector_of u)) }
{
    let a = value_at(form, w, w);
    let h = value_at(form, v, w);
    if a < 1 || 2 * h <= a {
        return None;
    }
    let k = multiple(h, a);
    Some(without(v, w, k))
}

/// A whole number k from 1 with k a below 2 h, where a is below 2 h.
fn multiple(h: i128, a: i128) -> i128
    requires h { IsWithin largest_form_value h }
    requires a { IsWithin largest_form_value a }
    requires some { pos 1 ≤ℤ a }
    requires below { a <ℤ (pos 2 *ℤ h) }
    ensures from { pos 1 ≤ℤ result }
    ensures most { result ≤ℤ pos (2 ^ 44) }
    ensures below { (result *ℤ a) <ℤ (pos 2 *ℤ h) }
{
    let k = h.div_euclid(a);
    if k < 1 {
        1
    } else if k > STEP {
        STEP
    } else {
        k
    }
}

/// The vector v less k times w.
fn without(v: &[i64; 3], w: &[i64; 3], k: i128) -> [i64; 3]
    requires v { IsVectorWithin largest_short (vector_of v.now) }
    requires w { IsVectorWithin largest_short (vector_of w.now) }
    requires k { IsWithin (2 ^ 44) k }
    requires rest { IsVectorWithin largest_short
        (combined (pos 1) (vector_of v.now) (pos 0 -ℤ k) (vector_of w.now)) }
    ensures { vector_of result ≡ combined (pos 1) (vector_of v.now) (pos 0 -ℤ k) (vector_of w.now) }
{
    [
        less(v[0], k, w[0]),
        less(v[1], k, w[1]),
        less(v[2], k, w[2]),
    ]
}

/// A number less a multiple of another.
fn less(v: i64, k: i128, w: i64) -> i64
    requires v { IsWithin largest_short v }
    requires k { IsWithin (2 ^ 44) k }
    requires w { IsWithin largest_short w }
    requires rest { IsWithin largest_short (v -ℤ k *ℤ w) }
    ensures is { result ≡ v -ℤ k *ℤ w }
    ensures small { IsWithin largest_short result }
{
    (v as i128 - k * w as i128) as i64
}

/// The basis with two vectors of the planes of which no multiple of the one makes the other shorter.
pub(crate) fn with_short_pair(form: &Form, basis: &LatticeBasis) -> LatticeBasis
    requires form { IsForm (form_matrix form.now) }
    requires pair { IsShortPair (form_matrix form.now) (vectors_of basis.now) }
    ensures adapted { (g : Listing) (r : Vector) → IsAdapted g r (vectors_of basis.now) →
        IsAdapted g r (vectors_of result) }
    ensures pair { IsShortPair (form_matrix form.now) (vectors_of result) }
    ensures tau { result.tau ≡ basis.now.tau }
    ensures first { IsUnshortened (form_matrix form.now) (vector_of result.b) (vector_of result.a) }
    ensures second { IsUnshortened (form_matrix form.now) (vector_of result.a)
        (vector_of result.b) }
{
    match shortened(form, &basis.b, &basis.a) {
        Some(b) => with_short_pair(
            form,
            &LatticeBasis {
                a: basis.a,
                b,
                tau: basis.tau,
            },
        ),
        None => match shortened(form, &basis.a, &basis.b) {
            Some(a) => with_short_pair(
                form,
                &LatticeBasis {
                    a,
                    b: basis.b,
                    tau: basis.tau,
                },
            ),
            None => *basis,
        },
    }
}

/// The basis with the shorter of the two first.
pub(crate) fn with_shorter_first(form: &Form, basis: &LatticeBasis) -> LatticeBasis
    requires form { IsForm (form_matrix form.now) }
    requires pair { IsShortPair (form_matrix form.now) (vectors_of basis.now) }
    requires first { IsUnshortened (form_matrix form.now) (vector_of basis.now.b)
        (vector_of basis.now.a) }
    requires second { IsUnshortened (form_matrix form.now) (vector_of basis.now.a)
        (vector_of basis.now.b) }
    ensures adapted { (g : Listing) (r : Vector) → IsAdapted g r (vectors_of basis.now) →
        IsAdapted g r (vectors_of result) }
    ensures pair { IsShortPair (form_matrix form.now) (vectors_of result) }
    ensures tau { result.tau ≡ basis.now.tau }
    ensures first { IsUnshortened (form_matrix form.now) (vector_of result.b) (vector_of result.a) }
    ensures order { by_form (form_matrix form.now) (vector_of result.a) (vector_of result.a)
        ≤ℤ by_form (form_matrix form.now) (vector_of result.b) (vector_of result.b) }
{
    let a = value_at(form, &basis.a, &basis.a);
    let b = value_at(form, &basis.b, &basis.b);
    if b < a {
        LatticeBasis {
            a: basis.b,
            b: basis.a,
            tau: basis.tau,
        }
    } else {
        *basis
    }
}

/// The basis with a tau that no sum of one of a, b and their opposites makes shorter.
pub(crate) fn with_short_tau(form: &Form, basis: &LatticeBasis) -> LatticeBasis
    requires form { IsForm (form_matrix form.now) }
    requires pair { IsShortPair (form_matrix form.now) (vectors_of basis.now) }
    requires tau { IsShort (form_matrix form.now) (vector_of basis.now.tau) }
    requires first { IsUnshortened (form_matrix form.now) (vector_of basis.now.b)
        (vector_of basis.now.a) }
    requires order { by_form (form_matrix form.now) (vector_of basis.now.a) (vector_of basis.now.a)
        ≤ℤ by_form (form_matrix form.now) (vector_of basis.now.b) (vector_of basis.now.b) }
    ensures adapted { (g : Listing) (r : Vector) → IsAdapted g r (vectors_of basis.now) →
        IsAdapted g r (vectors_of result) }
    ensures reduced { IsReduced (by_form (form_matrix form.now)) (vectors_of result) }
    ensures a { IsVectorWithin largest_short (vector_of result.a) }
    ensures b { IsVectorWithin largest_short (vector_of result.b) }
{
    let sum = without(&basis.a, &basis.b, -1);
    let difference = without(&basis.a, &basis.b, 1);
    with_tau_by(form, basis, &sum, &difference)
}

/// The same, given a + b and a - b.
fn with_tau_by(
    form: &Form,
    basis: &LatticeBasis,
    sum: &[i64; 3],
    difference: &[i64; 3],
) -> LatticeBasis
    requires form { IsForm (form_matrix form.now) }
    requires a { IsShort (form_matrix form.now) (vector_of basis.now.a) }
    requires b { IsShort (form_matrix form.now) (vector_of basis.now.b) }
    requires tau { IsShort (form_matrix form.now) (vector_of basis.now.tau) }
    requires sum { IsShort (form_matrix form.now) (vector_of sum.now) }
    requires difference { IsShort (form_matrix form.now) (vector_of difference.now) }
    requires sum_is { vector_of sum.now
        ≡ combined (pos 1) (vector_of basis.now.a) (pos 1) (vector_of basis.now.b) }
    requires difference_is { vector_of difference.now
        ≡ combined (pos 1) (vector_of basis.now.a) (negsuc 0) (vector_of basis.now.b) }
    ensures adapted { (g : Listing) (r : Vector) → IsAdapted g r (vectors_of basis.now) →
        IsAdapted g r (vectors_of result) }
    ensures a { result.a ≡ basis.now.a }
    ensures b { result.b ≡ basis.now.b }
    ensures by_a { IsUnshortened (form_matrix form.now) (vector_of result.tau)
        (vector_of basis.now.a) }
    ensures by_b { IsUnshortened (form_matrix form.now) (vector_of result.tau)
        (vector_of basis.now.b) }
    ensures by_sum { IsUnshortened (form_matrix form.now) (vector_of result.tau)
        (vector_of sum.now) }
    ensures by_difference { IsUnshortened (form_matrix form.now) (vector_of result.tau)
        (vector_of difference.now) }
{
    match shortened(form, &basis.tau, &basis.a) {
        Some(tau) => with_tau_by(
            form,
            &LatticeBasis {
                a: basis.a,
                b: basis.b,
                tau,
            },
            sum,
            difference,
        ),
        None => match shortened(form, &basis.tau, &basis.b) {
            Some(tau) => with_tau_by(
                form,
                &LatticeBasis {
                    a: basis.a,
                    b: basis.b,
                    tau,
                },
                sum,
                difference,
            ),
            None => match shortened(form, &basis.tau, sum) {
                Some(tau) => with_tau_by(
                    form,
                    &LatticeBasis {
                        a: basis.a,
                        b: basis.b,
                        tau,
                    },
                    sum,
                    difference,
                ),
                None => match shortened(form, &basis.tau, difference) {
                    Some(tau) => with_tau_by(
                        form,
                        &LatticeBasis {
                            a: basis.a,
                            b: basis.b,
                            tau,
                        },
                        sum,
                        difference,
                    ),
                    None => *basis,
                },
            },
        },
    }
}
