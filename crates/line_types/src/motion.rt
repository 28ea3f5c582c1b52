// How the tables write motions. That of a rod has the two rows of its matrix and the sign along the axis, that of a
// frieze the sign along the line and the one across it; the translation is last.

macro_rules! rod_motion {
    ($first:expr, $second:expr, $sign:ident, $shift:expr) => {
        RodMotion { a: [$first, $second], e: Sign::$sign, t: $shift }
    };
}

macro_rules! frieze_motion {
    ($along:ident, $across:ident, $shift:expr) => {
        FriezeMotion { f: Sign::$along, e: Sign::$across, t: $shift }
    };
}

pub(crate) use frieze_motion;
pub(crate) use rod_motion;
