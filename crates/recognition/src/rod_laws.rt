// What the definitions imply.
ghost use Rattle.std.specs.Prelude.{◌↔◌, ℕ, List};
ghost use Rattle.motions.specs.declared.rod.RodMotion.{RodMotion};
ghost use Rattle.motions.specs.PlaneMatrices.{Matrix2};
ghost use Rattle.recognition.specs.RodChanges.{Carries};
ghost use Rattle.recognition.specs.RodTests.{Fits};

/// Whether a change carries a section onto a type, as sets of operations of rationals, is told by the listed motions.
pub fn carries_by_listed()
    ensures { (section : List RodMotion) (ops : List RodMotion) (p : Matrix2) (z : ℕ)
        → Fits section ops p z ↔ Carries section ops p z }
{}
