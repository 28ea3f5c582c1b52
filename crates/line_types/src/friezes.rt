// The frieze types. Number and symbol are after International Tables, Volume E; generators and origins are this project's
// choice.
ghost use Rattle.std.specs.Prelude.{◌≡◌, ◌<◌, ◌↔◌, ◌⊎◌, IfSome, IsNone};
ghost use Rattle.quotient.specs.Table.{IsTable};
ghost use Rattle.line_types.specs.Friezes.{IsFriezeType};

use crate::motion::frieze_motion;
use fractions::UNIT;
use motions::{FriezeMotion, Sign};

/// A frieze type: its number and symbol, and its operations modulo the translations by whole cell edges along x.
///
/// The identity is first, and the others follow with the lexicographically greatest matrix first. Translations are from
/// 0 to below [`UNIT`] parts.
#[derive(Clone, Copy, Debug)]
pub struct FriezeType {
    pub number: u8,
    pub symbol: &'static str,
    pub ops: &'static [FriezeMotion],
}

/// The frieze type of the number n. None comes exactly where n is not from 1 to 7.
pub fn frieze(n: u8) -> Option<&'static FriezeType>
    ensures none { IsNone result ↔ ((n ≡ 0) ⊎ (7 < n)) }
    ensures exact { IfSome result (λ t. IsFriezeType n t.now) }
{
    if n == 0 || n > 7 {
        return None;
    }
    Some(&types()[n as usize - 1])
}

fn types() -> &'static [FriezeType]
    ensures { IsTable IsFriezeType 7 result.now }
{
    &TYPES
}

static TYPES: [FriezeType; 7] = [
    FriezeType {
        number: 1,
        symbol: "p1",
        ops: &[frieze_motion!(Plus, Plus, 0)],
    },
    FriezeType {
        number: 2,
        symbol: "p211",
        ops: &[
            frieze_motion!(Plus, Plus, 0),
            frieze_motion!(Minus, Minus, 0),
        ],
    },
    FriezeType {
        number: 3,
        symbol: "p1m1",
        ops: &[
            frieze_motion!(Plus, Plus, 0),
            frieze_motion!(Minus, Plus, 0),
        ],
    },
    FriezeType {
        number: 4,
        symbol: "p11m",
        ops: &[
            frieze_motion!(Plus, Plus, 0),
            frieze_motion!(Plus, Minus, 0),
        ],
    },
    FriezeType {
        number: 5,
        symbol: "p11g",
        ops: &[
            frieze_motion!(Plus, Plus, 0),
            frieze_motion!(Plus, Minus, UNIT / 2),
        ],
    },
    FriezeType {
        number: 6,
        symbol: "p2mm",
        ops: &[
            frieze_motion!(Plus, Plus, 0),
            frieze_motion!(Plus, Minus, 0),
            frieze_motion!(Minus, Plus, 0),
            frieze_motion!(Minus, Minus, 0),
        ],
    },
    FriezeType {
        number: 7,
        symbol: "p2mg",
        ops: &[
            frieze_motion!(Plus, Plus, 0),
            frieze_motion!(Plus, Minus, UNIT / 2),
            frieze_motion!(Minus, Plus, UNIT / 2),
            frieze_motion!(Minus, Minus, 0),
        ],
    },
];
