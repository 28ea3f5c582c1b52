// The parts of a triplet as they are written.
ghost use Rattle.std.specs.Prelude.{◌≡◌, pos};
ghost use Rattle.motions.specs.Views.{vector_of};
ghost use Rattle.motions.specs.PlaneViews.{pair_of};
ghost use Rattle.triplets.specs.Writing.{pair_row_text, row_text};

use crate::marks::Axis;
use fractions::Part;
use std::fmt;

/// The letter of an axis.
impl fmt::Display for Axis {
    ghost use Rattle.std.specs.Prelude.{Some};
    ghost use Rattle.triplets.specs.Writing.{axis_text};

    ghost output = { λ axis. Some (axis_text axis) };

    fn fmt<W: fmt::Write>(&self, f: &mut fmt::Formatter<W>) -> fmt::Result {
        match self {
            Axis::X => write!(f, "x"),
            Axis::Y => write!(f, "y"),
            Axis::Z => write!(f, "z"),
        }
    }
}

/// A coefficient and its letter, the first term that shows of its part or a further one.
#[derive(Clone, Copy)]
pub struct Term {
    pub coefficient: i64,
    pub axis: Axis,
    pub first: bool,
}

impl fmt::Display for Term {
    ghost use Rattle.std.specs.Prelude.{Some};
    ghost use Rattle.triplets.specs.Writing.{axis_text, letter_term, placed};

    ghost output = { λ t. Some (placed t.first (letter_term t.coefficient (axis_text t.axis))) };

    fn fmt<W: fmt::Write>(&self, f: &mut fmt::Formatter<W>) -> fmt::Result {
        let axis = self.axis;
        if self.coefficient == 0 {
            return Ok(());
        }
        if self.coefficient > 0 && !self.first {
            write!(f, "+")?;
        }
        match self.coefficient {
            1 => write!(f, "{axis}"),
            -1 => write!(f, "-{axis}"),
            n => write!(f, "{n}{axis}"),
        }
    }
}

/// A number of parts, the first term that shows of its part or a further one.
#[derive(Clone, Copy)]
pub struct Number {
    pub translation: Part,
    pub first: bool,
}

impl fmt::Display for Number {
    ghost use Rattle.std.specs.Prelude.{Some};
    ghost use Rattle.triplets.specs.Writing.{number_term, placed};

    ghost output = { λ t. Some (placed t.first (number_term t.translation.0)) };

    fn fmt<W: fmt::Write>(&self, f: &mut fmt::Formatter<W>) -> fmt::Result {
        let translation = self.translation;
        if translation.0 == 0 {
            return Ok(());
        }
        if translation.0 > 0 && !self.first {
            write!(f, "+{translation}")
        } else {
            write!(f, "{translation}")
        }
    }
}

/// A row of the matrix part with the number beside it.
#[derive(Clone, Copy)]
pub struct Row {
    pub x: i64,
    pub y: i64,
    pub z: i64,
    pub translation: Part,
}

impl Row {
    /// The row of an array.
    pub fn of(row: &[i64; 3], translation: Part) -> Row
        ensures { row_text
            (record { x = result.x; y = result.y; z = result.z }) result.translation.0
            ≡ row_text (vector_of row.now) translation.0 }
    {
        Row {
            x: row[0],
            y: row[1],
            z: row[2],
            translation,
        }
    }

    /// The row of an array of two, without z.
    pub fn of_pair(row: &[i64; 2], translation: Part) -> Row
        ensures { row_text
            (record { x = result.x; y = result.y; z = result.z }) result.translation.0
            ≡ pair_row_text (pair_of row.now) translation.0 }
    {
        Row {
            x: row[0],
            y: row[1],
            z: 0,
            translation,
        }
    }
}

impl fmt::Display for Row {
    ghost use Rattle.std.specs.Prelude.{Some};
    ghost use Rattle.triplets.specs.Writing.{row_text};

    ghost output = { λ r. Some (row_text (record { x = r.x; y = r.y; z = r.z }) r.translation.0) };

    fn fmt<W: fmt::Write>(&self, f: &mut fmt::Formatter<W>) -> fmt::Result {
        let Row {
            x,
            y,
            z,
            translation,
        } = *self;
        // whether no term shows up to x, up to y and up to z
        let none_to_x = x == 0;
        let none_to_y = none_to_x & (y == 0);
        let none_to_z = none_to_y & (z == 0);
        if none_to_z & (translation.0 == 0) {
            return write!(f, "0");
        }
        let first = Term {
            coefficient: x,
            axis: Axis::X,
            first: true,
        };
        let second = Term {
            coefficient: y,
            axis: Axis::Y,
            first: none_to_x,
        };
        let third = Term {
            coefficient: z,
            axis: Axis::Z,
            first: none_to_y,
        };
        let number = Number {
            translation,
            first: none_to_z,
        };
        write!(f, "{first}{second}{third}{number}")
    }
}
