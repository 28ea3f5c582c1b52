// What is wrong in a CIF file.
use crate::refusal::kind_name;
use std::fmt;
use triplets::TextKind;

/// What is wrong at a place in a CIF file.
#[derive(Clone, Copy, PartialEq, Eq, Debug)]
pub enum CifKind {
    /// A quoted word without its end.
    Quote,
    /// A text field without its end.
    TextField,
    /// A loop with no values or with a last row that is short, or a single data name with no value.
    Ragged,
    /// An operation that is no triplet.
    Symop(TextKind),
}

impl fmt::Display for CifKind {
    ghost use Rattle.std.specs.Prelude.{Some};
    ghost use Rattle.requests.specs.Refusals.{cif_kind_text};

    ghost output = { λ k. Some (cif_kind_text k) };

    fn fmt<W: fmt::Write>(&self, f: &mut fmt::Formatter<W>) -> fmt::Result {
        match *self {
            CifKind::Quote => write!(f, "quote"),
            CifKind::TextField => write!(f, "text-field"),
            CifKind::Ragged => write!(f, "ragged"),
            CifKind::Symop(kind) => {
                let name = kind_name(kind);
                write!(f, "symop {name}")
            }
        }
    }
}
