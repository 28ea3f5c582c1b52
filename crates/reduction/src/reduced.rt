// The reduced frame of a group and an orientation.
ghost use Rattle.std.specs.Prelude.{◌≡◌, ◌↔◌, ◌*◌, IfErr, IfOk, IsTrue, MatchOption, unsigned_abs};
ghost use Rattle.fractions.specs.declared.part.TheConstants.{UNIT};
ghost use Rattle.symmetry.specs.Groups.{Listing};
ghost use Rattle.symmetry.specs.Sizes.{IsVectorWithin};
ghost use Rattle.motions.specs.BasisView.{basis_of};
ghost use Rattle.motions.specs.Views.{parts, row_of, vector_of};
ghost use Rattle.closure.specs.Groups.{IsGroupOf};
ghost use Rattle.reduction.specs.BasisView.{vectors_of};
ghost use Rattle.reduction.specs.Reduced.{IsReducedFrame};
ghost use Rattle.reduction.specs.ReducedFrames.{IsInRange, IsReducedFrameOf, IsReductionFault};

use crate::adapted::adapted_basis;
use crate::form::form_of;
use crate::handedness::right_handed;
use crate::lattice_basis::LatticeBasis;
use crate::sense::with_forward_first;
use crate::shorten::{with_short_pair, with_short_tau, with_shorter_first};
use closure::Group;
use fractions::{Part, UNIT};
use motions::{Basis, FrameFault, MOST_ENTRY, Miller};
use plane_lattice::Frame;

/// Why a reduced frame is not taken.
#[derive(Clone, Copy, PartialEq, Eq, Debug)]
pub enum ReductionFault {
    /// An entry is above 1000 cell edges in size.
    OutOfRange,
    /// A scanning operation, written in it, has a matrix entry above 500 in size.
    Skewed,
}

/// A frame of the group and the orientation whose vectors are reduced.
///
/// Vectors are compared by the form Q(u,v), the sum of (W u).(W v) over the scanning operations: 2 |Q(a,b)| <= Q(a,a)
/// <= Q(b,b), and no tau + i a + j b with i and j from -1 to 1 is shorter than tau.
///
/// Where several frames are such, it is one that depends on the group and the plane alone, and not on the order in which
/// the operations and the centring vectors were listed: the basis that is reduced is made of the least vector of the
/// lattice along each axis, the first in lexicographic order among its residues, and a vector is replaced only by a
/// shorter one. In the end a and b take the signs with which the first entry of a that is not 0 is positive and the
/// frame is right-handed. For (001) of a primitive lattice the frame is the cell edges, where they are reduced.
///
/// The frame that was found is out of range where [`OutOfRange`](ReductionFault::OutOfRange) comes, and skewed where
/// [`Skewed`](ReductionFault::Skewed) does.
pub fn reduced_frame(group: &Group, plane: Miller) -> Result<Frame, ReductionFault>
    ensures made { (g : Listing) → IsGroupOf g group.now → IfOk result (IsReducedFrameOf g plane) }
    ensures refused { (g : Listing) → IsGroupOf g group.now →
        IfErr result (IsReductionFault g (row_of plane)) }
{
    let Some(basis) = in_range(&reduced_basis(group, &plane)) else {
        return Err(ReductionFault::OutOfRange);
    };
    match Frame::make(group, plane, basis) {
        Ok(frame) => Ok(frame),
        Err(FrameFault::Skewed) => Err(ReductionFault::Skewed),
        Err(FrameFault::NotFrame) => unreachable!(),
    }
}

/// Three vectors that are a reduced frame, in range or not.
fn reduced_basis(group: &Group, plane: &Miller) -> LatticeBasis
    ensures { (g : Listing) → IsGroupOf g group.now →
        IsReducedFrame g (row_of plane.now) (vectors_of result) }
{
    let form = form_of(group, plane);
    let adapted = adapted_basis(group, plane);
    let pair = with_short_pair(&form, &adapted);
    let ordered = with_shorter_first(&form, &pair);
    let short = with_short_tau(&form, &ordered);
    let forward = with_forward_first(&short);
    right_handed(plane, &forward)
}

/// The same three vectors. None comes exactly where an entry is above 1000 cell edges in size.
fn in_range(basis: &LatticeBasis) -> Option<Basis>
    ensures { MatchOption result
        (¬ IsInRange (vectors_of basis.now)) (λ v. basis_of v ≡ vectors_of basis.now) }
{
    if !is_in_range(&basis.a) || !is_in_range(&basis.b) || !is_in_range(&basis.tau) {
        return None;
    }
    Some(Basis {
        a: in_parts(&basis.a),
        b: in_parts(&basis.b),
        tau: in_parts(&basis.tau),
    })
}

/// Whether each entry is at most 1000 cell edges in size.
fn is_in_range(v: &[i64; 3]) -> bool
    ensures { IsTrue result ↔ IsVectorWithin (1000 * unsigned_abs UNIT) (vector_of v.now) }
{
    let most = MOST_ENTRY as u64 * UNIT.unsigned_abs();
    v[0].unsigned_abs() <= most && v[1].unsigned_abs() <= most && v[2].unsigned_abs() <= most
}

/// The vector that these numbers of parts are.
fn in_parts(v: &[i64; 3]) -> [Part; 3]
    ensures { parts result ≡ vector_of v.now }
{
    [Part(v[0]), Part(v[1]), Part(v[2])]
}
