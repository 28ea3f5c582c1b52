// Why words or an input are refused.
ghost use Rattle.std.specs.Prelude.{◌≡◌};
ghost use Rattle.requests.specs.Refusals.{kind_text};

use crate::cif_kind::CifKind;
use std::fmt;
use triplets::TextKind;

/// Why the words or the input were refused. The first that applies is given, in this order.
#[derive(Clone, Copy, PartialEq, Eq, Debug)]
pub enum Refusal {
    /// The words are no request.
    Usage,
    /// The third of four indices is not -(h+k).
    FourIndex,
    /// A Miller index passes [`INDEX`](motions::INDEX) in size.
    OutOfRange,
    /// All Miller indices are 0.
    AllZero,
    /// The greatest common divisor of the Miller indices, which is above 1.
    NotCoprime(i64),
    /// An entry of a frame vector has a denominator that does not divide [`UNIT`](fractions::UNIT), or is above 1,000
    /// in size.
    FrameLimit,
    /// A coordinate of a point of a line has a denominator that does not divide [`UNIT`](fractions::UNIT), or is above 1,000
    /// in size.
    PointLimit,
    /// In lowest terms the numerator or the denominator of a height, or of half the sum of two, is above 10^9 in size.
    HeightLimit,
    /// The first height of a slab is above the second.
    EmptySlab,
    /// The input is longer than it may be.
    TooLong,
    /// The first bad line of the input, the column of its fault (both from 1) and what is wrong there.
    Text {
        line: u32,
        column: u32,
        kind: TextKind,
    },
    /// No data name of symmetry operations stands in the CIF file, each quoted word and text field of which has its end.
    NoSymops,
    /// The line and the column of the first fault of the CIF file (both from 1), and what is wrong there.
    Cif {
        line: u32,
        column: u32,
        kind: CifKind,
    },
    /// How many operations are listed, which are too many.
    TooMany(usize),
    /// The lattice has too many residues modulo whole cell edges.
    TooFine,
    /// No listed operation is the identity modulo the lattice.
    NoIdentity,
    /// The first operation that carries some lattice vector out of the lattice, from 1.
    ShiftMoved(usize),
    /// The first two operations whose product, first the one and then the other, is the same as no listed operation.
    NotClosed(usize, usize),
    /// The first operation without a listed inverse; of generators, that whose matrix has no inverse of whole numbers.
    NoInverse(usize),
    /// The generators make too many matrices, or one with an entry that is too large.
    TooLarge,
    /// The frame vectors are no frame of the group and the plane.
    NotFrame,
    /// A scanning operation, written in the frame, has a matrix entry above 500 in size.
    SkewFrame,
    /// An index of an image of the orientation passes [`WIDE`](orbits::WIDE) in size.
    Wide,
}

impl fmt::Display for Refusal {
    ghost use Rattle.std.specs.Prelude.{Some};
    ghost use Rattle.requests.specs.Refusals.{refusal_text};

    ghost output = { λ r. Some (refusal_text r) };

    fn fmt<W: fmt::Write>(&self, f: &mut fmt::Formatter<W>) -> fmt::Result {
        match *self {
            Refusal::Usage => write!(f, "refused: usage"),
            Refusal::FourIndex => write!(f, "refused: third index is not -(h+k)"),
            Refusal::OutOfRange => write!(f, "refused: index out of range"),
            Refusal::AllZero => write!(f, "refused: all indices are zero"),
            Refusal::NotCoprime(divisor) => write!(f, "refused: common divisor {divisor}"),
            Refusal::FrameLimit => write!(f, "refused: frame entry out of range"),
            Refusal::PointLimit => write!(f, "refused: point out of range"),
            Refusal::HeightLimit => write!(f, "refused: height too large"),
            Refusal::EmptySlab => write!(f, "refused: empty slab"),
            Refusal::TooLong => write!(f, "refused: input too long"),
            Refusal::Text { line, column, kind } => {
                let name = kind_name(kind);
                write!(f, "refused: line {line} column {column} {name}")
            }
            Refusal::NoSymops => write!(f, "refused: no symmetry operations"),
            Refusal::Cif { line, column, kind } => {
                write!(f, "refused: cif line {line} column {column} {kind}")
            }
            Refusal::TooMany(count) => write!(f, "refused: {count} operations"),
            Refusal::TooFine => write!(f, "refused: lattice too fine"),
            Refusal::NoIdentity => write!(f, "refused: no identity"),
            Refusal::ShiftMoved(i) => write!(f, "refused: operation {i} moves the lattice"),
            Refusal::NotClosed(i, j) => write!(f, "refused: product of {i} and {j} missing"),
            Refusal::NoInverse(i) => write!(f, "refused: operation {i} has no inverse"),
            Refusal::TooLarge => write!(f, "refused: too many or too large matrices"),
            Refusal::NotFrame => write!(f, "refused: no frame"),
            Refusal::SkewFrame => write!(f, "refused: frame too skewed"),
            Refusal::Wide => write!(f, "refused: image too wide"),
        }
    }
}

// The printed name of a kind of fault.
pub(crate) fn kind_name(kind: TextKind) -> &'static str
    ensures { result.now ≡ kind_text kind }
{
    match kind {
        TextKind::UnknownSign => "unknown-sign",
        TextKind::Repeated => "repeated",
        TextKind::Coefficient => "coefficient",
        TextKind::Denominator => "denominator",
        TextKind::MissingPart => "missing-part",
        TextKind::ExtraPart => "extra-part",
        TextKind::Empty => "empty",
    }
}
