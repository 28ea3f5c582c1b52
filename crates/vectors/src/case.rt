// A run of the program: what it is given, and what it answers.

/// A run of the program over a whole input, worked by hand.
///
/// `complaints` is the line of the refusal with its LF where the run is refused, and is empty otherwise.
#[derive(Clone, Copy, Debug)]
pub struct Case {
    /// What the run shows.
    pub name: &'static str,
    /// The words behind the name of the program.
    pub words: &'static [&'static str],
    /// The whole of standard input.
    pub input: &'static [u8],
    /// The whole of standard output.
    pub output: &'static [u8],
    /// The whole of standard error.
    pub complaints: &'static [u8],
    /// The status that the program ends with.
    pub status: u8,
}
