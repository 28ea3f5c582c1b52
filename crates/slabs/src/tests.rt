// Worked slabs, by hand.
ghost use Rattle.std.specs.Prelude.{◌*ℤ◌, ◌≤ℤ◌, pos};
ghost use Rattle.fractions.specs.Fraction.{IsFractionWithin};
ghost use Rattle.fractions.specs.FractionOf.{fraction_of};
ghost use Rattle.fractions.specs.LowestTerms.{IsLowestForm};
ghost use Rattle.integers.specs.Size.{IsWithin};

use crate::at::slab_at;
use crate::heights::{is_empty, middle};
use closure::Group;
use fractions::Ratio;
use motions::{Basis, Miller, Motion3};
use plane_lattice::Frame;
use sample_groups::{
    FAR_INVERSION, IDENTITY, INVERSION, MIRROR_ACROSS_C, NEXT_INVERSION, TURN_ABOUT_C, cell_edges,
    p_1, p2_over_m,
};
use scanning::{AtFault, Scan};
use std::alloc::Global;
use std::test::Fail;

// The scan along the plane in the frame with the basis.
fn scan_along(alloc: Global, group: &Group, plane: Miller, basis: Basis) -> Result<Scan, Fail> {
    let frame = Frame::make(group, plane, basis)?;
    Ok(Scan::make(alloc, group, &frame)?)
}

// The scan of the group along c, with the cell edges.
fn along_c(alloc: Global, group: &Group) -> Result<Scan, Fail> {
    scan_along(alloc, group, Miller::make(0, 0, 1)?, cell_edges())
}

// The height num/den.
fn ratio(num: i128, den: i128) -> Ratio
    requires num { IsWithin 1000000000 num }
    requires den { IsWithin 1000000000 den }
    requires positive { pos 1 ≤ℤ den }
    ensures form { IsLowestForm (fraction_of result) num den }
    ensures small { IsFractionWithin 1000000000 (fraction_of result) }
{
    Ratio::make(num, den).unwrap()
}

// The operations of the slab from num/den to end/over.
fn between(
    alloc: Global,
    scan: &Scan,
    num: i128,
    den: i128,
    end: i128,
    over: i128,
) -> Result<Vec<Motion3>, AtFault>
    requires num { IsWithin 1000000000 num }
    requires den { IsWithin 1000000000 den }
    requires end { IsWithin 1000000000 end }
    requires over { IsWithin 1000000000 over }
    requires den_positive { pos 1 ≤ℤ den }
    requires over_positive { pos 1 ≤ℤ over }
    requires order { (num *ℤ over) ≤ℤ (end *ℤ den) }
{
    slab_at(alloc, scan, ratio(num, den), ratio(end, over))
}

#[test]
fn an_inversion_of_p_1_stands_in_the_middle_of_a_period(rt: HostRuntime) -> Result<(), Fail> {
    let scan = along_c(rt.alloc(), &p_1(rt.alloc())?)?;
    let period = between(rt.alloc(), &scan, 0, 1, 1, 1)?;
    let below = between(rt.alloc(), &scan, -15, 4, -13, 4)?;
    assert_eq!(rt; period.as_slice(), [IDENTITY, NEXT_INVERSION].as_slice());
    assert_eq!(rt; below.as_slice(), [IDENTITY, FAR_INVERSION].as_slice());
    Ok(())
}

#[test]
fn no_inversion_of_p_1_stands_in_the_middle_of_two_thirds(rt: HostRuntime) -> Result<(), Fail> {
    let scan = along_c(rt.alloc(), &p_1(rt.alloc())?)?;
    let ops = between(rt.alloc(), &scan, 0, 1, 2, 3)?;
    assert_eq!(rt; ops.as_slice(), [IDENTITY].as_slice());
    Ok(())
}

#[test]
fn a_slab_may_be_one_plane(rt: HostRuntime) -> Result<(), Fail> {
    let scan = along_c(rt.alloc(), &p_1(rt.alloc())?)?;
    let special = between(rt.alloc(), &scan, 1, 2, 2, 4)?;
    let general = between(rt.alloc(), &scan, 1, 3, 1, 3)?;
    assert_eq!(rt; special.as_slice(), [IDENTITY, NEXT_INVERSION].as_slice());
    assert_eq!(rt; general.as_slice(), [IDENTITY].as_slice());
    Ok(())
}

#[test]
fn what_keeps_every_plane_keeps_every_slab(rt: HostRuntime) -> Result<(), Fail> {
    let scan = along_c(rt.alloc(), &p2_over_m(rt.alloc())?)?;
    let about_zero = between(rt.alloc(), &scan, -1, 3, 1, 3)?;
    let above_zero = between(rt.alloc(), &scan, 0, 1, 1, 3)?;
    assert_eq!(rt;
        about_zero.as_slice(),
        [IDENTITY, INVERSION, MIRROR_ACROSS_C, TURN_ABOUT_C].as_slice()
    );
    assert_eq!(rt; above_zero.as_slice(), [IDENTITY, TURN_ABOUT_C].as_slice());
    Ok(())
}

#[test]
fn the_middle_may_be_too_large(rt: HostRuntime) -> Result<(), Fail> {
    let scan = along_c(rt.alloc(), &p_1(rt.alloc())?)?;
    let large = between(rt.alloc(), &scan, 1, 999_999_999, 1, 999_999_998);
    let largest = between(rt.alloc(), &scan, 1_000_000_000, 1, 1_000_000_000, 1)?;
    assert_eq!(rt; large.err(), Some(AtFault::Large));
    assert_eq!(rt; largest.len(), 2);
    Ok(())
}

#[test]
fn the_middle_is_in_lowest_terms(rt: HostRuntime) {
    assert_eq!(rt; middle(ratio(0, 1), ratio(2, 3)), ratio(1, 3));
    assert_eq!(rt; middle(ratio(1, 6), ratio(1, 2)), ratio(1, 3));
    assert_eq!(rt; middle(ratio(-1, 2), ratio(1, 2)), ratio(0, 1));
}

#[test]
fn a_slab_is_empty_where_its_heights_fall(rt: HostRuntime) {
    assert!(rt; is_empty(ratio(1, 1), ratio(0, 1)));
    assert!(rt; is_empty(ratio(-1, 3), ratio(-1, 2)));
    assert!(rt; !is_empty(ratio(1, 3), ratio(1, 2)));
    assert!(rt; !is_empty(ratio(1, 2), ratio(1, 2)));
}
