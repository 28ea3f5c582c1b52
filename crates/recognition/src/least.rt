// The origins that conditions leave: a class of numbers x, and the least y for an x.
ghost use Rattle.std.specs.Prelude.{◌≡◌, ◌↔◌, ℕ, pos, ◌+ℤ◌, ◌*ℤ◌, ◌<◌, ◌≤◌, IsTrue, MatchOption};
ghost use Rattle.recognition.specs.Grid.{grid};
ghost use Rattle.recognition.specs.Classes.{InClass, IsOnLine, Meets, MeetsFirst};
ghost use Rattle.recognition.specs.Search.{HasNoNumber, IsLeast};

use crate::classes::{Class, Congruence, narrow};
use crate::conditions::MOST;
use crate::line::{Condition, Line};

// ---- x

/// The members of the class that may be on a line with some y.
fn narrow_x(class: &Class, line: &Line) -> Option<Class>
    ensures { MatchOption result
        ((x y : ℕ) → InClass class.now.y class.now.step x → ¬ (IsOnLine line.now x y))
        (λ n. (x y : ℕ) → InClass class.now.y class.now.step x → IsOnLine line.now x y
        → InClass n.y n.step x) }
{
    if line.y != 0 {
        return Some(*class);
    }
    narrow(
        class,
        &Congruence {
            c: line.c,
            a: line.x,
        },
    )
}

/// The members of the class that may meet a condition with some y.
fn narrow_x_by(class: &Class, condition: &Condition) -> Option<Class>
    ensures { MatchOption result
        ((x y : ℕ) → InClass class.now.y class.now.step x → ¬ (Meets condition.now x y))
        (λ n. (x y : ℕ) → InClass class.now.y class.now.step x → Meets condition.now x y
        → InClass n.y n.step x) }
{
    match narrow_x(class, &condition.first) {
        None => None,
        Some(half) => narrow_x(&half, &condition.second),
    }
}

/// A class that has each x that meets the first conditions with some y. None comes only where there is no such x.
pub(crate) fn possible_x(conditions: &[Condition; MOST], count: usize) -> Option<Class>
    requires { count ≤ 24 }
    ensures { MatchOption result
        ((x y : ℕ) → x < grid → ¬ (MeetsFirst count conditions.now x y))
        (λ n. (x y : ℕ) → x < grid → MeetsFirst count conditions.now x y → InClass n.y n.step x) }
{
    let mut class = Class { y: 0, step: 1 };
    for i in 0..count {
        match narrow_x_by(&class, &conditions[i]) {
            None => return None,
            Some(narrowed) => class = narrowed,
        }
    }
    Some(class)
}

/// Whether a number is in the class.
pub(crate) fn is_in(class: &Class, x: u32) -> bool
    requires { x < grid }
    ensures { IsTrue result ↔ InClass class.now.y class.now.step x }
{
    x >= class.y && (x - class.y) % class.step == 0
}

// ---- y

/// The congruence for y that a line leaves at x.
fn at(line: &Line, x: u32) -> Congruence
    requires { x < grid }
    ensures c { result.c ≡ line.now.c +ℤ line.now.x *ℤ pos x }
    ensures a { result.a ≡ line.now.y }
{
    Congruence {
        c: line.c + line.x * i64::from(x),
        a: line.y,
    }
}

/// The members of the class that meet a condition at x.
fn narrow_by(class: &Class, condition: &Condition, x: u32) -> Option<Class>
    requires { x < grid }
    ensures { MatchOption result
        ((v : ℕ) → InClass class.now.y class.now.step v → ¬ (Meets condition.now x v))
        (λ n. (v : ℕ) → InClass n.y n.step v
        ↔ (InClass class.now.y class.now.step v × Meets condition.now x v)) }
{
    match narrow(class, &at(&condition.first, x)) {
        None => None,
        Some(half) => narrow(&half, &at(&condition.second, x)),
    }
}

/// The least y that meets the first conditions at x.
pub(crate) fn least_y(conditions: &[Condition; MOST], count: usize, x: u32) -> Option<u32>
    requires count { count ≤ 24 }
    requires x { x < grid }
    ensures { MatchOption result (HasNoNumber (MeetsFirst count conditions.now x))
        (IsLeast (MeetsFirst count conditions.now x)) }
{
    let mut class = Class { y: 0, step: 1 };
    for i in 0..count {
        match narrow_by(&class, &conditions[i], x) {
            None => return None,
            Some(narrowed) => class = narrowed,
        }
    }
    Some(class.y)
}
