// Whether a matrix agrees with a section and a type, before any origin is judged.
ghost use Rattle.std.specs.Prelude.{◌↔◌, IsTrue, All, Any};
ghost use Rattle.motions.specs.PlaneViews.{matrix2_of};
ghost use Rattle.recognition.specs.Order.{IsBoundedMatrix};
ghost use Rattle.recognition.specs.Sections.{IsSmallMotion};
ghost use Rattle.recognition.specs.Listed.{Agrees, IsLike, TakesLattice};

use crate::listed::is_like;
use layer_types::LayerType;
use motions::LayerMotion;

/// Whether a motion of the section has one of the type with its sign and matrix.
fn has_match(p: &[[i64; 2]; 2], m: &LayerMotion, ops: &[LayerMotion]) -> bool
    requires p { IsBoundedMatrix (matrix2_of p.now) }
    requires m { IsSmallMotion m.now }
    requires ops { All IsSmallMotion ops.now }
    ensures { IsTrue result ↔ Any (λ n. IsLike (matrix2_of p.now) m.now n) ops.now }
{
    ops.iter().any(|n| is_like(p, m, n))
}

/// Whether a motion of the type has one of the section with its sign and matrix.
fn is_matched(p: &[[i64; 2]; 2], n: &LayerMotion, section: &[LayerMotion]) -> bool
    requires p { IsBoundedMatrix (matrix2_of p.now) }
    requires n { IsSmallMotion n.now }
    requires section { All IsSmallMotion section.now }
    ensures { IsTrue result ↔ Any (λ m. IsLike (matrix2_of p.now) m n.now) section.now }
{
    section.iter().any(|m| is_like(p, m, n))
}

/// Whether all motions of the section have one of the type.
fn all_have_match(p: &[[i64; 2]; 2], section: &[LayerMotion], ops: &[LayerMotion]) -> bool
    requires p { IsBoundedMatrix (matrix2_of p.now) }
    requires section { All IsSmallMotion section.now }
    requires ops { All IsSmallMotion ops.now }
    ensures { IsTrue result
        ↔ All (λ m. Any (λ n. IsLike (matrix2_of p.now) m n) ops.now) section.now }
{
    section.iter().all(|m| has_match(p, m, ops))
}

/// Whether all motions of the type have one of the section.
fn all_are_matched(p: &[[i64; 2]; 2], section: &[LayerMotion], ops: &[LayerMotion]) -> bool
    requires p { IsBoundedMatrix (matrix2_of p.now) }
    requires section { All IsSmallMotion section.now }
    requires ops { All IsSmallMotion ops.now }
    ensures { IsTrue result
        ↔ All (λ n. Any (λ m. IsLike (matrix2_of p.now) m n) section.now) ops.now }
{
    ops.iter().all(|n| is_matched(p, n, section))
}

/// Whether a matrix that takes the lattice of the type onto the whole vectors agrees with the section and the type.
pub(crate) fn agrees(section: &[LayerMotion], t: &LayerType, p: &[[i64; 2]; 2]) -> bool
    requires section { All IsSmallMotion section.now }
    requires ops { All IsSmallMotion t.now.ops.now }
    requires p { IsBoundedMatrix (matrix2_of p.now) }
    requires lattice { TakesLattice t.now.centred (matrix2_of p.now) }
    ensures { IsTrue result ↔ Agrees section.now t.now (matrix2_of p.now) }
{
    if !all_have_match(p, section, t.ops) {
        return false;
    }
    all_are_matched(p, section, t.ops)
}
