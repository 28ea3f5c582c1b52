// The survey of the orientations of a group.
ghost use Rattle.std.specs.Prelude.{IfErr, IfOk};
ghost use Rattle.symmetry.specs.Groups.{Listing};
ghost use Rattle.closure.specs.Groups.{IsGroupOf};
ghost use Rattle.requests.specs.Answers.{Answers};
ghost use Rattle.requests.specs.Causes.{IsGroupsObstacle};
ghost use Rattle.requests.specs.Questions.{IsSurveyInRange, survey_within};

use crate::obstacle::Obstacle;
use closure::Group;
use report::survey_text;
use std::alloc::Global;
use surveys::survey;

/// The text of the survey of the orientations with indices at most n in size.
pub fn orientations_within_text(alloc: Global, group: &Group, n: i64) -> Result<Vec<u8>, Obstacle>
    requires { IsSurveyInRange n }
    ensures text { IfOk result
        (λ text. (g : Listing) → IsGroupOf g group.now → Answers g (survey_within n) text.items) }
    ensures obstacle { IfErr result (IsGroupsObstacle group.now (survey_within n)) }
{
    let list = survey(alloc, group, n)?;
    Ok(survey_text(alloc, &list)?)
}
