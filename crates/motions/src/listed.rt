// What a group text lists.
use crate::motion::Motion3;
use fractions::Part;

/// What a group text lists: its operations and its centring vectors, each in the order of the text,
/// and whether the operations are generators of the group in place of all its operations.
#[derive(Debug, Drop)]
pub struct Listed {
    pub ops: Vec<Motion3>,
    pub centrings: Vec<[Part; 3]>,
    pub generated: bool,
}
