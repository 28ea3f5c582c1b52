// How the operations of a text are written.

/// How the operations of a text are written: those of a space group as triplets such as `-x,y+1/2,-z`, those of a plane
/// group as pairs such as `-x,y+1/2` (International Tables, Volume A, general positions).
#[derive(Clone, Copy, Debug, PartialEq, Eq)]
pub enum Notation {
    /// Three parts, with the letters x, y and z.
    Triplets,
    /// Two parts, with the letters x and y.
    Pairs,
}
