// What is asked of the program, and its answer or the reason why it is refused.
//
// Promises to the programs above: words are read as indices, ratios, points, vectors and frames, within the limits of a
// request, or refused by the first limit that they pass; `group_of` reads a source to the group that it lists; `carry_out`
// writes the whole answer to a request, or the line of a refusal, over any source and sinks.
#![tactic(auto)]

mod at;
mod cif_input;
mod cif_kind;
mod images;
mod input;
mod laws;
mod layers;
mod limits;
mod obstacle;
mod outcome;
mod plane_lines;
mod refusal;
mod request;
mod respond;
mod rod;
mod rod_limits;
mod rod_words;
mod run;
mod slab;
mod slab_limits;
mod survey;
mod tables;
mod words;

pub use cif_kind::CifKind;
pub use input::group_of;
pub use laws::{one_answer, one_request};
pub use limits::{PlaneWords, Planes, within_limits};
pub use obstacle::Obstacle;
pub use outcome::Outcome;
pub use refusal::Refusal;
pub use request::{Form, Format, Question, Request, Table};
pub use rod_limits::{Line, LineWords, within_line_limits};
pub use rod_words::{DirectionWord, RodFrameWord, split_direction, split_point, split_rod_frame};
pub use run::{carry_out, refuse};
pub use slab_limits::{SlabWords, within_slab_limits};
pub use words::{
    FrameWord, IndexWords, VectorWord, split_form, split_format, split_frame, split_indices,
    split_ratio, split_three_indices, split_two_indices,
};
