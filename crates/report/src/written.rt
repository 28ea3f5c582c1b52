// Values as they are written.
ghost use Rattle.std.specs.Prelude.{◌≡◌};
ghost use Rattle.fractions.specs.Fractions.{fractions_of};
ghost use Rattle.motions.specs.Views.{parts, row_of, vector_of};
ghost use Rattle.penetration.specs.DirectionView.{direction_of};
ghost use Rattle.report.specs.WrittenView.{edges_of, indices_of, parts_of};

use fractions::{Part, Ratio};
use motions::Miller;
use penetration::Direction;
use std::fmt;

/// A vector counted in parts, written as three ratios of the cell edges.
#[derive(Clone, Copy)]
pub(crate) struct InParts {
    pub(crate) x: Part,
    pub(crate) y: Part,
    pub(crate) z: Part,
}

impl InParts {
    pub(crate) fn of(v: &[Part; 3]) -> InParts
        ensures { parts_of result ≡ parts v.now }
    {
        InParts {
            x: v[0],
            y: v[1],
            z: v[2],
        }
    }
}

impl fmt::Display for InParts {
    ghost use Rattle.std.specs.Prelude.{Some};
    ghost use Rattle.report.specs.Texts.{vector_text};
    ghost use Rattle.report.specs.WrittenView.{parts_of};

    ghost output = { λ v. Some (vector_text (parts_of v)) };

    fn fmt<W: fmt::Write>(&self, f: &mut fmt::Formatter<W>) -> fmt::Result {
        write!(f, "{},{},{}", self.x, self.y, self.z)
    }
}

/// A vector counted in cell edges, written as three ratios.
#[derive(Clone, Copy)]
pub(crate) struct InEdges {
    pub(crate) x: Ratio,
    pub(crate) y: Ratio,
    pub(crate) z: Ratio,
}

impl InEdges {
    pub(crate) fn of(v: &[Ratio; 3]) -> InEdges
        ensures { edges_of result ≡ fractions_of v.now }
    {
        InEdges {
            x: v[0],
            y: v[1],
            z: v[2],
        }
    }
}

impl fmt::Display for InEdges {
    ghost use Rattle.std.specs.Prelude.{Some};
    ghost use Rattle.report.specs.Texts.{fractions_text};
    ghost use Rattle.report.specs.WrittenView.{edges_of};

    ghost output = { λ v. Some (fractions_text (edges_of v)) };

    fn fmt<W: fmt::Write>(&self, f: &mut fmt::Formatter<W>) -> fmt::Result {
        write!(f, "{},{},{}", self.x, self.y, self.z)
    }
}

/// The same ratio with the other sign.
#[derive(Clone, Copy)]
pub(crate) struct Opposite(pub(crate) Ratio);

impl fmt::Display for Opposite {
    ghost use Rattle.std.specs.Prelude.{Some};
    ghost use Rattle.fractions.specs.FractionOf.{fraction_of};
    ghost use Rattle.fractions.specs.RatioText.{ratio_text};
    ghost use Rattle.report.specs.TypeVectors.{opposite_fraction};

    ghost output = { λ q. Some (ratio_text (opposite_fraction (fraction_of q.0))) };

    fn fmt<W: fmt::Write>(&self, f: &mut fmt::Formatter<W>) -> fmt::Result {
        let num = self.0.num();
        let den = self.0.den();
        let size = num.unsigned_abs();
        let sign = if num > 0 { "-" } else { "" };
        if den > 1 {
            write!(f, "{sign}{size}/{den}")
        } else {
            write!(f, "{sign}{size}")
        }
    }
}

/// A vector counted in cell edges, or the opposite one.
#[derive(Clone, Copy)]
pub(crate) struct Directed {
    pub(crate) v: InEdges,
    pub(crate) opposite: bool,
}

impl fmt::Display for Directed {
    ghost use Rattle.std.specs.Prelude.{Some};
    ghost use Rattle.report.specs.Texts.{fractions_text};
    ghost use Rattle.report.specs.WrittenView.{directed_of};

    ghost output = { λ d. Some (fractions_text (directed_of d)) };

    fn fmt<W: fmt::Write>(&self, f: &mut fmt::Formatter<W>) -> fmt::Result {
        let v = self.v;
        if self.opposite {
            let x = Opposite(v.x);
            let y = Opposite(v.y);
            let z = Opposite(v.z);
            write!(f, "{x},{y},{z}")
        } else {
            write!(f, "{v}")
        }
    }
}

/// Three whole numbers, written with a blank before each.
#[derive(Clone, Copy)]
pub(crate) struct Indices {
    pub(crate) h: i64,
    pub(crate) k: i64,
    pub(crate) l: i64,
}

impl Indices {
    pub(crate) fn of(v: &[i64; 3]) -> Indices
        ensures { indices_of result ≡ vector_of v.now }
    {
        Indices {
            h: v[0],
            k: v[1],
            l: v[2],
        }
    }

    pub(crate) fn of_direction(direction: &Direction) -> Indices
        ensures { indices_of result ≡ direction_of direction.now }
    {
        Indices {
            h: direction.u,
            k: direction.v,
            l: direction.w,
        }
    }

    pub(crate) fn of_plane(plane: &Miller) -> Indices
        ensures { indices_of result ≡ row_of plane.now }
    {
        Indices {
            h: plane.h,
            k: plane.k,
            l: plane.l,
        }
    }
}

impl fmt::Display for Indices {
    ghost use Rattle.std.specs.Prelude.{Some};
    ghost use Rattle.report.specs.Texts.{indices_text};
    ghost use Rattle.report.specs.WrittenView.{indices_of};

    ghost output = { λ v. Some (indices_text (indices_of v)) };

    fn fmt<W: fmt::Write>(&self, f: &mut fmt::Formatter<W>) -> fmt::Result {
        write!(f, " {} {} {}", self.h, self.k, self.l)
    }
}
