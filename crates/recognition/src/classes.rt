// Classes of numbers of the grid of origins, and how congruences narrow them.
ghost use Rattle.std.specs.Prelude.{◌≡◌, ◌↔◌, ◌⊎◌, ℕ, ℤ, pos, ◌+◌, ◌*◌, ◌+ℤ◌, ◌-ℤ◌, ◌*ℤ◌, ◌<◌, ◌≤◌, ◌^◌, unsigned_abs, IsTrue, MatchOption};
ghost use Rattle.integers.specs.Size.{IsWithin};
ghost use Rattle.recognition.specs.Grid.{grid};
ghost use Rattle.recognition.specs.Classes.{InClass, IsFirstSolution, IsNextStep, IsPeriod, Leaves, Solves};
ghost use Rattle.motions.specs.Rationals.{IsMultiple};

use crate::found::GRID;
use crate::listed::is_whole;

/// The numbers y + k step of the grid.
#[derive(Clone, Copy, Debug, PartialEq, Eq)]
pub(crate) struct Class {
    pub(crate) y: u32,
    pub(crate) step: u32,
    ghost within: { y < grid },
    ghost from: { 1 ≤ step },
    ghost to: { step ≤ grid },
}

/// The congruence that c + a y is a multiple of [`GRID`].
#[derive(Clone, Copy, Debug, PartialEq, Eq)]
pub(crate) struct Congruence {
    pub(crate) c: i64,
    pub(crate) a: i64,
    ghost c_small: { IsWithin (2 ^ 55) c },
    ghost a_small: { IsWithin 501 a },
}

/// Whether y solves the congruence.
fn solves(r: &Congruence, y: u32) -> bool
    requires { y ≤ 2 ^ 20 }
    ensures { IsTrue result ↔ Solves r.now.c r.now.a y }
{
    is_whole(r.c + r.a * i64::from(y))
}

/// Whether steps by t change nothing.
fn is_period(r: &Congruence, t: u32) -> bool
    requires { t ≤ 2 ^ 20 }
    ensures { IsTrue result ↔ IsPeriod r.now.a t }
{
    is_whole(r.a * i64::from(t))
}

/// The first member of the class that solves the congruence.
fn first_solution(class: &Class, r: &Congruence) -> Option<u32>
    ensures { MatchOption result
        ((v : ℕ) → InClass class.now.y class.now.step v → ¬ (Solves r.now.c r.now.a v))
        (IsFirstSolution class.now.y class.now.step r.now.c r.now.a) }
{
    for index in 0..GRID {
        let y = class.y + index * class.step;
        if y >= GRID {
            return None;
        }
        if solves(r, y) {
            return Some(y);
        }
    }
    None
}

/// The least multiple of the step that is a period, or [`GRID`].
fn next_step(step: u32, r: &Congruence) -> u32
    requires from { 1 ≤ step }
    requires to { step ≤ grid }
    ensures { IsNextStep step r.now.a result }
{
    for index in 1..GRID {
        let period = index * step;
        if is_period(r, period) {
            return if period < GRID { period } else { GRID };
        }
    }
    GRID
}

/// The members of the class that solve the congruence, found one by one.
fn narrow_by_search(class: &Class, r: &Congruence) -> Option<Class>
    ensures { MatchOption result
        ((v : ℕ) → InClass class.now.y class.now.step v → ¬ (Solves r.now.c r.now.a v))
        (λ n. (v : ℕ) → InClass n.y n.step v
        ↔ (InClass class.now.y class.now.step v × Solves r.now.c r.now.a v)) }
{
    match first_solution(class, r) {
        None => None,
        Some(y) => Some(Class {
            y,
            step: next_step(class.step, r),
        }),
    }
}

/// What a number leaves without the whole edges in it.
fn rest_of(z: i64) -> u32
    ensures below { result < grid }
    ensures rest { IsMultiple (pos grid) (z -ℤ pos result) }
{
    z.rem_euclid(i64::from(GRID)) as u32
}

/// What the size of the factor times y has to leave.
fn wanted(r: &Congruence) -> u32
    ensures below { result < grid }
    ensures tells { (v : ℕ) → Solves r.now.c r.now.a v ↔ Leaves (unsigned_abs r.now.a) result v }
{
    if r.a < 0 { rest_of(r.c) } else { rest_of(-r.c) }
}

/// The numbers of the grid that solve a congruence whose factor divides [`GRID`] into parts of this length.
fn solutions(r: &Congruence, size: u32, length: u32) -> Option<Class>
    requires size { size ≡ unsigned_abs r.now.a }
    requires some { 1 ≤ size }
    requires divides { grid ≡ size * length }
    ensures { MatchOption result ((v : ℕ) → v < grid → ¬ (Solves r.now.c r.now.a v))
        (λ n. (v : ℕ) → InClass n.y n.step v ↔ ((v < grid) × Solves r.now.c r.now.a v)) }
{
    let rest = wanted(r);
    if rest % size == 0 {
        Some(Class {
            y: rest / size,
            step: length,
        })
    } else {
        None
    }
}

/// The numbers of the grid that solve the congruence.
fn narrow_all(r: &Congruence) -> Option<Class>
    requires { ¬ (r.now.a ≡ pos 0) }
    ensures { MatchOption result ((v : ℕ) → v < grid → ¬ (Solves r.now.c r.now.a v))
        (λ n. (v : ℕ) → InClass n.y n.step v ↔ ((v < grid) × Solves r.now.c r.now.a v)) }
{
    let size = r.a.unsigned_abs() as u32;
    if GRID % size == 0 {
        return solutions(r, size, GRID / size);
    }
    narrow_by_search(&Class { y: 0, step: 1 }, r)
}

/// The members of the class that solve the congruence.
pub(crate) fn narrow(class: &Class, r: &Congruence) -> Option<Class>
    ensures { MatchOption result
        ((v : ℕ) → InClass class.now.y class.now.step v → ¬ (Solves r.now.c r.now.a v))
        (λ n. (v : ℕ) → InClass n.y n.step v
        ↔ (InClass class.now.y class.now.step v × Solves r.now.c r.now.a v)) }
{
    if r.a == 0 {
        return if is_whole(r.c) { Some(*class) } else { None };
    }
    if class.step == GRID {
        return if solves(r, class.y) {
            Some(*class)
        } else {
            None
        };
    }
    if class.step == 1 && class.y == 0 {
        return narrow_all(r);
    }
    narrow_by_search(class, r)
}
