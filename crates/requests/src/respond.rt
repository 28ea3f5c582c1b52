// The answer to a question about a group.
ghost use Rattle.std.specs.Prelude.{IfErr, IfOk};
ghost use Rattle.symmetry.specs.Groups.{Listing};
ghost use Rattle.closure.specs.Groups.{IsGroupOf};
ghost use Rattle.requests.specs.Answers.{Answers};
ghost use Rattle.requests.specs.Causes.{IsGroupsObstacle};
ghost use Rattle.requests.specs.Questions.{IsQuestionInRange};
ghost use Rattle.requests.specs.Views.{question_of};

use crate::at::height_text;
use crate::images::orientations_text;
use crate::layers::heights_text;
use crate::obstacle::Obstacle;
use crate::request::Question;
use crate::rod::along_line_text;
use crate::slab::between_heights_text;
use crate::survey::orientations_within_text;
use closure::Group;
use std::alloc::Global;

/// The answer to a question about a group.
pub fn respond(alloc: Global, question: &Question, group: &Group) -> Result<Vec<u8>, Obstacle>
    requires { IsQuestionInRange (question_of question.now) }
    ensures text { IfOk result (λ text. (g : Listing) → IsGroupOf g group.now →
        Answers g (question_of question.now) text.items) }
    ensures obstacle { IfErr result (IsGroupsObstacle group.now (question_of question.now)) }
{
    match *question {
        Question::At { plane, basis, s } => height_text(alloc, group, plane, basis, s),
        Question::Slab {
            plane,
            basis,
            low,
            high,
        } => between_heights_text(alloc, group, plane, basis, low, high),
        Question::Layers { plane, basis, form } => heights_text(alloc, group, plane, basis, form),
        Question::Images { plane } => orientations_text(alloc, group, plane),
        Question::Survey { n } => orientations_within_text(alloc, group, n),
        Question::Rod {
            direction,
            basis,
            point,
        } => along_line_text(alloc, group, direction, basis, point),
    }
}
