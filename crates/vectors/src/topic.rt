// The cases, by topic.
use crate::case::Case;
use crate::{
    cif, generators, heights, images, plane_lines, refused_frames, refused_groups, refused_lines,
    refused_words, reports, rods, samples, slabs, surveys, types, unusual_reports,
};

/// What a case is about.
#[derive(Clone, Copy, PartialEq, Eq, Debug)]
pub enum Topic {
    /// The operations at one height.
    Heights,
    /// The operations that map a slab to itself, and slabs that are refused.
    Slabs,
    /// Reports of all heights of an orientation.
    Reports,
    /// Reports of unusual texts, frames and words: labels, a fine lattice, large indices, an oblique frame, four indices, JSON.
    UnusualReports,
    /// Reports of groups from generators, and such texts that are refused.
    Generators,
    /// The images of an orientation.
    Images,
    /// One orientation of each class of equivalent ones.
    Surveys,
    /// What maps a line to itself, and lines that are refused.
    Rods,
    /// The frieze groups of all lines of a plane group, and texts of pairs that are refused.
    PlaneLines,
    /// The operations of a type, by its number.
    Types,
    /// Counts of the sample.
    Samples,
    /// CIF files in place of a group text, and such files that are refused.
    CifFiles,
    /// Words that are refused, whatever the input.
    RefusedWords,
    /// Inputs that are refused for a bad line.
    RefusedLines,
    /// Inputs that are refused since what they list is no group within the limits.
    RefusedGroups,
    /// Frames that are refused.
    RefusedFrames,
}

/// Every topic.
pub const TOPICS: [Topic; 16] = [
    Topic::Heights,
    Topic::Slabs,
    Topic::Reports,
    Topic::UnusualReports,
    Topic::Generators,
    Topic::Images,
    Topic::Surveys,
    Topic::Rods,
    Topic::PlaneLines,
    Topic::Types,
    Topic::Samples,
    Topic::CifFiles,
    Topic::RefusedWords,
    Topic::RefusedLines,
    Topic::RefusedGroups,
    Topic::RefusedFrames,
];

/// The cases of a topic.
///
/// One table of all cases is more than the prover can take in one declaration.
pub fn cases(topic: Topic) -> &'static [Case] {
    match topic {
        Topic::Heights => heights::all(),
        Topic::Slabs => slabs::all(),
        Topic::Reports => reports::all(),
        Topic::UnusualReports => unusual_reports::all(),
        Topic::Generators => generators::all(),
        Topic::Images => images::all(),
        Topic::Surveys => surveys::all(),
        Topic::Rods => rods::all(),
        Topic::PlaneLines => plane_lines::all(),
        Topic::Types => types::all(),
        Topic::Samples => samples::all(),
        Topic::CifFiles => cif::all(),
        Topic::RefusedWords => refused_words::all(),
        Topic::RefusedLines => refused_lines::all(),
        Topic::RefusedGroups => refused_groups::all(),
        Topic::RefusedFrames => refused_frames::all(),
    }
}
