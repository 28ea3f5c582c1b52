// How the tables write an operation: the rows of the matrix, the sign, and the translation.
macro_rules! op {
    ($first:expr, $second:expr, $sign:ident, $shift:expr) => {
        LayerMotion { a: [$first, $second], e: Sign::$sign, t: $shift }
    };
}

pub(crate) use op;
