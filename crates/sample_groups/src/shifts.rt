// Parts of a cell edge.
use fractions::{Part, UNIT};

/// A cell edge.
pub const EDGE: Part = Part(UNIT);

/// Half an edge.
pub const HALF: Part = Part(UNIT / 2);

/// A quarter of an edge.
pub(crate) const QUARTER: Part = Part(UNIT / 4);

/// No part of an edge.
pub const NONE: Part = Part(0);

/// The origin.
pub const ORIGIN: [Part; 3] = [NONE, NONE, NONE];
