// What the words ask for, within the limits.
use fractions::{Part, Ratio};
use motions::{Basis, Miller};
use penetration::{Direction, RodBasis};
use report::Kind;
use triplets::Notation;

/// The format that an input is read in.
#[derive(Clone, Copy, PartialEq, Eq, Debug)]
pub enum Format {
    /// A text of coordinate triplets, or of pairs.
    GroupText(Notation),
    /// A CIF file.
    Cif,
}

/// The form that a report is written in.
#[derive(Clone, Copy, PartialEq, Eq, Debug)]
pub enum Form {
    /// Lines of text.
    Text,
    /// One line with its value in JSON.
    Json,
}

/// What is asked of a group.
#[derive(Clone, Copy, Debug)]
pub enum Question {
    /// The operations that map the plane of the height `s` to itself, in the frame given.
    At {
        plane: Miller,
        basis: Basis,
        s: Ratio,
    },
    /// The operations that map the slab from the height `low` to the height `high` to itself, in the frame given.
    Slab {
        plane: Miller,
        basis: Basis,
        low: Ratio,
        high: Ratio,
    },
    /// The report of all heights of the orientation, in the frame given.
    Layers {
        plane: Miller,
        basis: Basis,
        form: Form,
    },
    /// The images of the orientation.
    Images {
        plane: Miller,
    },
    /// One orientation of each class of equivalent ones, of those with indices at most `n` in size, which is 1 to 5.
    Survey {
        n: i64,
    },
    /// The operations that map the line through the point to itself, and their rod type, in the rod frame given.
    Rod {
        direction: Direction,
        basis: RodBasis,
        point: [Part; 3],
    },
}

/// What is asked without a group.
#[derive(Clone, Copy, Debug)]
pub enum Table {
    /// The operations of a type by its number: 1 to 80 for layer, 1 to 75 for rod and 1 to 7 for frieze types.
    Type { kind: Kind, n: u8 },
    /// The counts over the reports of so many groups, 1 to 400, made from the layer types.
    Sample { n: u32 },
}

/// What the words ask for, in range.
#[derive(Clone, Copy, Debug)]
pub enum Request {
    /// A question about the group that an input of this format lists.
    About { format: Format, question: Question },
    /// The frieze groups of all lines h x + k y = s of the plane group that a text of pairs lists. The plane is (h k 0).
    Lines { plane: Miller },
    /// A table, which needs no input.
    Tabulate(Table),
}
