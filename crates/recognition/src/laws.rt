// What the definitions imply: the finite tests tell what they say of infinite sets.
ghost use Rattle.std.specs.Prelude.{◌↔◌, ℕ, List};
ghost use Rattle.motions.specs.declared.layer.LayerMotion.{LayerMotion};
ghost use Rattle.motions.specs.PlaneMatrices.{Matrix2};
ghost use Rattle.layer_types.specs.declared.layer_type.LayerType.{LayerType};
ghost use Rattle.layer_types.specs.LayerTypes.{IsLayerType};
ghost use Rattle.recognition.specs.Agreement.{AgreesWith};
ghost use Rattle.recognition.specs.Changes.{Carries};
ghost use Rattle.recognition.specs.Order.{origin_at};
ghost use Rattle.recognition.specs.Listed.{Agrees, Fits};

/// Whether a change carries a section onto a type is told by the listed motions.
pub fn carries_by_tests()
    ensures { (section : List LayerMotion) (n : ℕ) (t : LayerType) (p : Matrix2) (x y : ℕ)
        → IsLayerType n t
        → Fits section t p x y ↔ Carries section n p (origin_at x y) }
{}

/// Whether a matrix agrees with a section and a type is told by the listed motions.
pub fn agreement_by_tests()
    ensures { (section : List LayerMotion) (n : ℕ) (t : LayerType) (p : Matrix2) → IsLayerType n t →
        Agrees section t p ↔ AgreesWith section n p }
{}
