// The writer of frieze motions.
ghost use Rattle.std.specs.Prelude.{◌≡◌, IfOk};
ghost use Rattle.motions.specs.FriezeMotions.{frieze_of};
ghost use Rattle.triplets.specs.Writing.{frieze_text};

use crate::display::Row;
use crate::write::NoMemory;
use fractions::Part;
use motions::FriezeMotion;
use std::alloc::Global;
use std::fmt;

/// A frieze motion, which `{}` shows as two parts in their one written form, such as `x+1/2,-y`.
///
/// Each part is written as in a coordinate triplet: its letter with the sign, then its number in lowest terms of the
/// cell edge, and no blanks. The notation is that of International Tables, Volume E.
#[derive(Clone, Copy)]
pub struct Frieze<'a>(pub &'a FriezeMotion);

impl<'a> fmt::Display for Frieze<'a> {
    ghost use Rattle.std.specs.Prelude.{Some};
    ghost use Rattle.motions.specs.FriezeMotions.{frieze_of};
    ghost use Rattle.triplets.specs.Writing.{frieze_text};

    ghost output = { λ t. Some (frieze_text (frieze_of t.0.now)) };

    fn fmt<W: fmt::Write>(&self, f: &mut fmt::Formatter<W>) -> fmt::Result {
        let m = self.0;
        let along = Row::of(&[m.f.value(), 0, 0], Part(m.t));
        let across = Row::of(&[0, m.e.value(), 0], Part(0));
        write!(f, "{along},{across}")
    }
}

/// The two parts of a frieze motion in their one written form, as [`Frieze`] shows them.
pub fn write_frieze(alloc: Global, m: &FriezeMotion) -> Result<Vec<u8>, NoMemory>
    ensures { IfOk result (λ text. text.items ≡ frieze_text (frieze_of m.now)) }
{
    let frieze = Frieze(m);
    Ok(format!(in alloc; "{frieze}")?.into_bytes())
}

#[cfg(test)]
mod tests {
    use super::*;
    use fractions::UNIT;
    use motions::Sign;
    use std::alloc::AllocError;

    #[test]
    fn a_frieze_motion_has_its_text(rt: HostRuntime) -> Result<(), AllocError> {
        let rows = [
            (Sign::Plus, Sign::Plus, 0, "x,y"),
            (Sign::Minus, Sign::Minus, 0, "-x,-y"),
            (Sign::Minus, Sign::Plus, 0, "-x,y"),
            (Sign::Plus, Sign::Minus, UNIT / 2, "x+1/2,-y"),
            (Sign::Minus, Sign::Plus, -UNIT / 3, "-x-1/3,y"),
            (Sign::Plus, Sign::Plus, -UNIT, "x-1,y"),
        ];
        for (f, e, t, text) in rows {
            let written = write_frieze(rt.alloc(), &FriezeMotion { f, e, t })?;
            assert_eq!(rt; written.as_slice(), text.as_bytes(), "{text}");
        }
        Ok(())
    }
}
