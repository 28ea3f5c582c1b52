// What a survey says of an orientation.

use motions::Miller;

/// An orientation of planes: `images` is how many triples are equivalent to it, itself among them, and `special` how many
/// special heights its planes have from 0 to below the period.
#[derive(Clone, Copy, PartialEq, Eq, Debug)]
pub struct Surveyed {
    pub plane: Miller,
    pub images: u32,
    pub special: u32,
}
