// Classes of equivalent orientations. A call does nothing: its contract is the law.
ghost use Rattle.std.specs.Prelude.{◌≡◌, ℕ, List, Contains};
ghost use Rattle.symmetry.specs.Groups.{IsGroup, Listing};
ghost use Rattle.symmetry.specs.Vectors.{Vector};
ghost use Rattle.surveys.specs.Surveys.{AreEquivalent, IsRepresentative, IsSurvey, IsWithinSurvey, SurveyedPlane};

/// To be equivalent is an equivalence of triples.
pub fn orientation_classes()
    ensures reflexive { (g : Listing) (r : Vector) → IsGroup g → AreEquivalent g r r }
    ensures symmetric { (g : Listing) (r s : Vector) → IsGroup g → AreEquivalent g r s →
        AreEquivalent g s r }
    ensures transitive { (g : Listing) (r s t : Vector) → IsGroup g → AreEquivalent g r s →
        AreEquivalent g s t → AreEquivalent g r t }
{}

/// Each orientation within the survey is equivalent to exactly one representative, so to exactly one of the list.
pub fn one_representative()
    ensures some { (g : Listing) (n : ℕ) (r : Vector) → IsGroup g → IsWithinSurvey n r →
        (s : Vector) × IsRepresentative g n s × AreEquivalent g r s }
    ensures only { (g : Listing) (n : ℕ) (r s t : Vector) → IsGroup g → IsRepresentative g n s →
        IsRepresentative g n t → AreEquivalent g r s → AreEquivalent g r t → s ≡ t }
    ensures listed { (g : Listing) (n : ℕ) (list : List SurveyedPlane) (r : Vector) → IsGroup g →
        IsSurvey g n list → IsWithinSurvey n r →
        (p : SurveyedPlane) × Contains list p × AreEquivalent g r p.plane
        × ((q : SurveyedPlane) → Contains list q → AreEquivalent g r q.plane → q ≡ p) }
{}
