// Bézout's identity: two numbers as multiples of their greatest common divisor, and this as a sum of multiples of them.
ghost use Rattle.std.specs.Prelude.{◌≡◌, ◌≤ℤ◌, ℤ, ◌-ℤ◌, pos, nat_abs, ◌≤◌};
ghost use Rattle.integers.specs.Size.{IsWithin};
ghost use Rattle.reduction.specs.Bounds.{largest_value};
ghost use Rattle.reduction.specs.Bezout.{IsBezoutOf, IsSmallBezout};

/// The greatest common divisor of two numbers, which are p and q times it, and Bézout's coefficients x and y, for which
/// p x + q y is 1.
#[derive(Clone, Copy)]
pub(crate) struct BezoutIdentity {
    pub(crate) divisor: i64,
    pub(crate) x: i64,
    pub(crate) y: i64,
    pub(crate) p: i64,
    pub(crate) q: i64,
}

/// Bézout's identity of two positive numbers, by Euclid's steps.
fn bezout_positive(p: i64, q: i64) -> BezoutIdentity
    requires p { IsWithin largest_value p }
    requires q { IsWithin largest_value q }
    requires p_from { pos 1 ≤ℤ p }
    requires q_from { pos 1 ≤ℤ q }
    ensures is { IsBezoutOf p q result }
    ensures some { pos 1 ≤ℤ result.divisor }
    ensures x { nat_abs result.x ≤ nat_abs q }
    ensures y { nat_abs result.y ≤ nat_abs p }
    ensures p { nat_abs result.p ≤ nat_abs p }
    ensures q { nat_abs result.q ≤ nat_abs q }
    ensures divisor { nat_abs result.divisor ≤ nat_abs q }
{
    let k = p.div_euclid(q);
    let r = p.rem_euclid(q);
    if r == 0 {
        return BezoutIdentity {
            divisor: q,
            x: 0,
            y: 1,
            p: k,
            q: 1,
        };
    }
    let m = bezout_positive(q, r);
    BezoutIdentity {
        divisor: m.divisor,
        x: m.y,
        y: m.x - k * m.y,
        p: k * m.p + m.q,
        q: m.p,
    }
}

/// That of two numbers that are not negative.
fn bezout_from_zero(p: i64, q: i64) -> BezoutIdentity
    requires p { IsWithin largest_value p }
    requires q { IsWithin largest_value q }
    requires p_from { pos 0 ≤ℤ p }
    requires q_from { pos 0 ≤ℤ q }
    ensures is { IsBezoutOf p q result }
    ensures small { IsSmallBezout result }
{
    if q == 0 {
        return BezoutIdentity {
            divisor: p,
            x: 1,
            y: 0,
            p: 1,
            q: 0,
        };
    }
    if p == 0 {
        return BezoutIdentity {
            divisor: q,
            x: 0,
            y: 1,
            p: 0,
            q: 1,
        };
    }
    bezout_positive(p, q)
}

/// From that of the opposite of the first number and the second.
fn with_first_turned(m: &BezoutIdentity) -> BezoutIdentity
    requires small { IsSmallBezout m.now }
    ensures is { (p q : ℤ) → IsBezoutOf (pos 0 -ℤ p) q m.now → IsBezoutOf p q result }
    ensures small { IsSmallBezout result }
{
    BezoutIdentity {
        divisor: m.divisor,
        x: -m.x,
        y: m.y,
        p: -m.p,
        q: m.q,
    }
}

/// From that of the first number and the opposite of the second.
fn with_second_turned(m: &BezoutIdentity) -> BezoutIdentity
    requires small { IsSmallBezout m.now }
    ensures is { (p q : ℤ) → IsBezoutOf p (pos 0 -ℤ q) m.now → IsBezoutOf p q result }
    ensures small { IsSmallBezout result }
{
    BezoutIdentity {
        divisor: m.divisor,
        x: m.x,
        y: -m.y,
        p: m.p,
        q: -m.q,
    }
}

/// That of two numbers, of which the first is not negative.
fn bezout_with_second(p: i64, q: i64) -> BezoutIdentity
    requires p { IsWithin largest_value p }
    requires q { IsWithin largest_value q }
    requires p_from { pos 0 ≤ℤ p }
    ensures is { IsBezoutOf p q result }
    ensures small { IsSmallBezout result }
{
    if q < 0 {
        let m = bezout_from_zero(p, -q);
        with_second_turned(&m)
    } else {
        bezout_from_zero(p, q)
    }
}

/// That of two numbers.
pub(crate) fn bezout_of(p: i64, q: i64) -> BezoutIdentity
    requires p { IsWithin largest_value p }
    requires q { IsWithin largest_value q }
    ensures is { IsBezoutOf p q result }
    ensures small { IsSmallBezout result }
{
    if p < 0 {
        let m = bezout_with_second(-p, q);
        with_first_turned(&m)
    } else {
        bezout_with_second(p, q)
    }
}
