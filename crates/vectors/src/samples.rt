// Counts of the sample.
use crate::case::Case;

/// Counts of the sample.
pub(crate) fn all() -> &'static [Case] {
    &CASES
}

static CASES: [Case; 1] = [Case {
    name: "the first sixteen groups of the sample",
    words: &["sample", "16"],
    input: b"",
    output: b"groups 16\nspecial 22\nsections 38\nown 27\nunrecognised 0\nend\n",
    complaints: b"",
    status: 0,
}];
