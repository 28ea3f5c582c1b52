// Whether a change carries a section onto a type, by the listed motions.
ghost use Rattle.std.specs.Prelude.{◌↔◌, ◌<◌, IsTrue, All, Any};
ghost use Rattle.motions.specs.PlaneViews.{matrix2_of};
ghost use Rattle.recognition.specs.Grid.{grid};
ghost use Rattle.recognition.specs.Classes.{IsOnLine, Meets};
ghost use Rattle.recognition.specs.Order.{IsBoundedMatrix};
ghost use Rattle.recognition.specs.Sections.{IsSmallMotion};
ghost use Rattle.recognition.specs.Listed.{Fits, IsPaired};

use crate::conditions::condition_between;
use crate::line::{Condition, Line};
use crate::listed::{is_like, is_whole};
use crate::matrices::takes_lattice;
use layer_types::LayerType;
use motions::LayerMotion;

/// Whether the origin is on the line.
fn is_on_line(line: &Line, x: u32, y: u32) -> bool
    requires x { x < grid }
    requires y { y < grid }
    ensures { IsTrue result ↔ IsOnLine line.now x y }
{
    is_whole(line.c + line.x * i64::from(x) + line.y * i64::from(y))
}

/// Whether the origin meets the condition.
fn meets(condition: &Condition, x: u32, y: u32) -> bool
    requires x { x < grid }
    requires y { y < grid }
    ensures { IsTrue result ↔ Meets condition.now x y }
{
    if !is_on_line(&condition.first, x, y) {
        return false;
    }
    is_on_line(&condition.second, x, y)
}

/// Whether the motions are one, after the change.
fn is_paired(p: &[[i64; 2]; 2], x: u32, y: u32, m: &LayerMotion, n: &LayerMotion) -> bool
    requires p { IsBoundedMatrix (matrix2_of p.now) }
    requires x { x < grid }
    requires y { y < grid }
    requires m { IsSmallMotion m.now }
    requires n { IsSmallMotion n.now }
    ensures { IsTrue result ↔ IsPaired (matrix2_of p.now) x y m.now n.now }
{
    if !is_like(p, m, n) {
        return false;
    }
    meets(&condition_between(p, m, n), x, y)
}

/// Whether a motion of the section has one of the type.
fn has_target(p: &[[i64; 2]; 2], x: u32, y: u32, m: &LayerMotion, ops: &[LayerMotion]) -> bool
    requires p { IsBoundedMatrix (matrix2_of p.now) }
    requires x { x < grid }
    requires y { y < grid }
    requires m { IsSmallMotion m.now }
    requires ops { All IsSmallMotion ops.now }
    ensures { IsTrue result ↔ Any (λ n. IsPaired (matrix2_of p.now) x y m.now n) ops.now }
{
    ops.iter().any(|n| is_paired(p, x, y, m, n))
}

/// Whether a motion of the type has one of the section.
fn has_source(p: &[[i64; 2]; 2], x: u32, y: u32, n: &LayerMotion, section: &[LayerMotion]) -> bool
    requires p { IsBoundedMatrix (matrix2_of p.now) }
    requires x { x < grid }
    requires y { y < grid }
    requires n { IsSmallMotion n.now }
    requires section { All IsSmallMotion section.now }
    ensures { IsTrue result ↔ Any (λ m. IsPaired (matrix2_of p.now) x y m n.now) section.now }
{
    section.iter().any(|m| is_paired(p, x, y, m, n))
}

/// Whether all motions of the section have one of the type.
fn all_have_target(
    p: &[[i64; 2]; 2],
    x: u32,
    y: u32,
    section: &[LayerMotion],
    ops: &[LayerMotion],
) -> bool
    requires p { IsBoundedMatrix (matrix2_of p.now) }
    requires x { x < grid }
    requires y { y < grid }
    requires section { All IsSmallMotion section.now }
    requires ops { All IsSmallMotion ops.now }
    ensures { IsTrue result
        ↔ All (λ m. Any (λ n. IsPaired (matrix2_of p.now) x y m n) ops.now) section.now }
{
    section.iter().all(|m| has_target(p, x, y, m, ops))
}

/// Whether all motions of the type have one of the section.
fn all_have_source(
    p: &[[i64; 2]; 2],
    x: u32,
    y: u32,
    section: &[LayerMotion],
    ops: &[LayerMotion],
) -> bool
    requires p { IsBoundedMatrix (matrix2_of p.now) }
    requires x { x < grid }
    requires y { y < grid }
    requires section { All IsSmallMotion section.now }
    requires ops { All IsSmallMotion ops.now }
    ensures { IsTrue result
        ↔ All (λ n. Any (λ m. IsPaired (matrix2_of p.now) x y m n) section.now) ops.now }
{
    ops.iter().all(|n| has_source(p, x, y, n, section))
}

/// Whether the change carries the listed motions of the section onto those of the type, and back.
pub(crate) fn carries(
    section: &[LayerMotion],
    t: &LayerType,
    p: &[[i64; 2]; 2],
    x: u32,
    y: u32,
) -> bool
    requires section { All IsSmallMotion section.now }
    requires ops { All IsSmallMotion t.now.ops.now }
    requires p { IsBoundedMatrix (matrix2_of p.now) }
    requires x { x < grid }
    requires y { y < grid }
    ensures { IsTrue result ↔ Fits section.now t.now (matrix2_of p.now) x y }
{
    if !takes_lattice(t.centred, p) {
        return false;
    }
    if !all_have_target(p, x, y, section, t.ops) {
        return false;
    }
    all_have_source(p, x, y, section, t.ops)
}
