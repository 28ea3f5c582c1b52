// Worked sections: what the clauses are meant to say, and that the calls give an answer.
ghost use Rattle.std.specs.Prelude.{◌≡◌, ◌<◌};

use crate::found::GRID;
use crate::origins::first_origin;
use crate::recognise::layer_type;
use crate::steps::Steps;
use fractions::UNIT;
use motions::{LayerMotion, Sign};
use std::alloc::Global;
use std::marker::Brand;
use std::process::Abort;
use std::sync::ledger::{Blank, Ledger};
use std::test::Fail;

const IDENTITY: LayerMotion = LayerMotion {
    a: [[1, 0], [0, 1]],
    e: Sign::Plus,
    t: [0, 0],
};

// The section of Pnma along b at the height 1/4.
const PNMA: [LayerMotion; 4] = [
    IDENTITY,
    LayerMotion {
        a: [[1, 0], [0, -1]],
        e: Sign::Minus,
        t: [UNIT, UNIT],
    },
    LayerMotion {
        a: [[1, 0], [0, -1]],
        e: Sign::Plus,
        t: [UNIT, UNIT],
    },
    LayerMotion {
        a: [[1, 0], [0, 1]],
        e: Sign::Minus,
        t: [0, 0],
    },
];

// A half turn in a basis that is skewed past the bounds.
const SKEWED: [LayerMotion; 2] = [
    IDENTITY,
    LayerMotion {
        a: [[1, 10], [0, -1]],
        e: Sign::Minus,
        t: [0, 0],
    },
];

const AXES_SWAPPED: [[i64; 2]; 2] = [[0, 1], [1, 0]];

fn recognised<L: Ledger, R: Abort>(rt: &R, alloc: Global, blank: Blank) -> Result<(), Fail>
    requires name { blank.name ≡ L.name }
    requires parts { blank.parts ≡ L.parts }
    requires some { 0 < blank.parts }
{
    let mut steps: Steps<L> = Steps::new(blank);
    let quarter = GRID / 4;
    let at_29 = first_origin(&PNMA, 29, AXES_SWAPPED, &mut steps);
    assert_eq!(rt; at_29, Some((0, quarter)));
    let at_31 = first_origin(&PNMA, 31, AXES_SWAPPED, &mut steps);
    assert_eq!(rt; at_31, None);
    let found = layer_type(alloc, &PNMA, &mut steps)?;
    assert!(rt; found.is_some());
    if let Some(found) = found {
        assert_eq!(rt; found.number, 29);
        assert_eq!(rt; found.p, AXES_SWAPPED);
        assert_eq!(rt; (found.x, found.y), (0, quarter));
    }
    let skewed = layer_type(alloc, &SKEWED, &mut steps)?;
    assert!(rt; skewed.is_none());
    Ok(())
}

#[test]
fn pnma_has_type_29_at_a_quarter_and_a_skewed_section_none(rt: HostRuntime) -> Result<(), Fail> {
    recognised::<Brand, _>(&rt, rt.alloc(), Blank::new(1))
}
