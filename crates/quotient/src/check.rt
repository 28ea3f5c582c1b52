// The test that a list of motions is a group modulo shifts.
ghost use Rattle.std.specs.Prelude.{◌≡◌, ◌↔◌, ◌^◌, pos, All, Contains, IfSome, IsOk, IsTrue, MatchOption, map, unsigned_abs};
ghost use Rattle.quotient.specs.Groups.{AllHaveInverse, AllKeep, AreInverse, HasInverse, IsClosed, IsFault, IsFirstOpen, IsFirstWithout, IsGroup};
ghost use Rattle.quotient.specs.Kind.{Keeps};
ghost use Rattle.quotient.specs.Lists.{AreHomes, IsListed};
ghost use Rattle.quotient.specs.Modulo.{modulo};

use crate::lists::find;
use crate::traits::{Motion, Quotient};

/// The first thing that is wrong with a list that is no group modulo shifts. Positions count from 1.
#[derive(Clone, Copy, PartialEq, Eq, Debug)]
pub enum GroupFault {
    /// No listed motion is the same as the identity.
    NoIdentity,
    /// The first motion that does not carry shifts into shifts.
    ShiftMoved(usize),
    /// The first pair, row by row, of which the first motion and then the second are the same as no listed motion.
    NotClosed(usize, usize),
    /// The first motion without an inverse in the list.
    NoInverse(usize),
}

/// Whether the list is a group modulo the shifts: Ok exactly where it is, and else the first thing that is wrong.
///
/// Of several faults the one that stands first in [`GroupFault`] is told, at its first position.
pub fn check_group<Q: Quotient>(q: &Q, list: &[Q::M]) -> Result<(), GroupFault>
    requires reach { Q.REACH ≡ pos (2 ^ 52) }
    requires small { All Q.M.IsSmall (map Q.M.meaning list.now) }
    ensures accepted { IsOk result
        ↔ IsGroup (modulo Q.M.Motion.own (Q.IsShift q.now)) (map Q.M.meaning list.now) }
    ensures refused { (fault : GroupFault) → (result ≡ Err fault)
        ↔ IsFault (modulo Q.M.Motion.own (Q.IsShift q.now)) (map Q.M.meaning list.now) fault }
{
    check_listed(q, list, known_homes(q, list))
}

/// The same as [`check_group`], where the homes of the listed motions are known, so that none is brought home again.
pub fn check_group_by_homes<Q: Quotient>(
    q: &Q,
    list: &[Q::M],
    homes: &[Q::M],
) -> Result<(), GroupFault>
    requires reach { Q.REACH ≡ pos (2 ^ 52) }
    requires small { All Q.M.IsSmall (map Q.M.meaning list.now) }
    requires homes { AreHomes Q.M.meaning (Q.home_of q.now) list.now homes.now }
    ensures accepted { IsOk result
        ↔ IsGroup (modulo Q.M.Motion.own (Q.IsShift q.now)) (map Q.M.meaning list.now) }
    ensures refused { (fault : GroupFault) → (result ≡ Err fault)
        ↔ IsFault (modulo Q.M.Motion.own (Q.IsShift q.now)) (map Q.M.meaning list.now) fault }
{
    check_listed(q, list, Some(homes))
}

// The list, where each of its motions is its own home.
fn known_homes<'a, Q: Quotient>(q: &Q, list: &'a [Q::M]) -> Option<&'a [Q::M]>
    requires { All (Q.M.MovesWithin (unsigned_abs Q.REACH)) (map Q.M.meaning list.now) }
    ensures { IfSome result (λ known. AreHomes Q.M.meaning (Q.home_of q.now) list.now known.now) }
{
    if list.iter().all(|m| q.home(m) == *m) {
        Some(list)
    } else {
        None
    }
}

// The first thing that is wrong with the list, whose homes may be known.
fn check_listed<Q: Quotient>(q: &Q, list: &[Q::M], homes: Option<&[Q::M]>) -> Result<(), GroupFault>
    requires reach { Q.REACH ≡ pos (2 ^ 52) }
    requires small { All Q.M.IsSmall (map Q.M.meaning list.now) }
    requires homes { IfSome homes (λ known.
        AreHomes Q.M.meaning (Q.home_of q.now) list.now known.now) }
    ensures accepted { IsOk result
        ↔ IsGroup (modulo Q.M.Motion.own (Q.IsShift q.now)) (map Q.M.meaning list.now) }
    ensures refused { (fault : GroupFault) → (result ≡ Err fault)
        ↔ IsFault (modulo Q.M.Motion.own (Q.IsShift q.now)) (map Q.M.meaning list.now) fault }
{
    if find(q, list, &Q::M::identity()).is_none() {
        return Err(GroupFault::NoIdentity);
    }
    if let Some(i) = first_moving_shifts(q, list) {
        return Err(GroupFault::ShiftMoved(i));
    }
    if let Some((i, j)) = first_open_pair(q, list, homes) {
        return Err(GroupFault::NotClosed(i, j));
    }
    match first_without_inverse(q, list) {
        Some(i) => Err(GroupFault::NoInverse(i)),
        None => Ok(()),
    }
}

// The first position of a motion that does not carry shifts into shifts.
fn first_moving_shifts<Q: Quotient>(q: &Q, list: &[Q::M]) -> Option<usize>
    requires { All Q.M.IsSmall (map Q.M.meaning list.now) }
    ensures { let K = modulo Q.M.Motion.own (Q.IsShift q.now) in
        MatchOption result
        (AllKeep K (map Q.M.meaning list.now))
        (IsFirstWithout K (Keeps K) (map Q.M.meaning list.now)) }
{
    list.iter().position(|m| !q.keeps(m)).map(|i| i + 1)
}

// The first pair of positions, row by row, whose product is not listed.
fn first_open_pair<Q: Quotient>(
    q: &Q,
    list: &[Q::M],
    homes: Option<&[Q::M]>,
) -> Option<(usize, usize)>
    requires reach { Q.REACH ≡ pos (2 ^ 52) }
    requires small { All Q.M.IsSmall (map Q.M.meaning list.now) }
    requires homes { IfSome homes (λ known.
        AreHomes Q.M.meaning (Q.home_of q.now) list.now known.now) }
    ensures { let K = modulo Q.M.Motion.own (Q.IsShift q.now) in
        MatchOption result
        (IsClosed K (map Q.M.meaning list.now))
        (λ pair. IsFirstOpen K (map Q.M.meaning list.now) pair.0 pair.1) }
{
    for (i, m) in list.iter().enumerate() {
        if let Some(j) = first_open_after(q, list, homes, m) {
            return Some((i + 1, j));
        }
    }
    None
}

// The first position of a motion n for which m and then n is not listed.
fn first_open_after<Q: Quotient>(
    q: &Q,
    list: &[Q::M],
    homes: Option<&[Q::M]>,
    m: &Q::M,
) -> Option<usize>
    requires reach { Q.REACH ≡ pos (2 ^ 52) }
    requires small { All Q.M.IsSmall (map Q.M.meaning list.now) }
    requires homes { IfSome homes (λ known.
        AreHomes Q.M.meaning (Q.home_of q.now) list.now known.now) }
    requires first { Q.M.IsSmall (Q.M.meaning m.now) }
    ensures { let K = modulo Q.M.Motion.own (Q.IsShift q.now) in
        MatchOption result
        ((n : Q.M.Meaning) → Contains (map Q.M.meaning list.now) n →
        IsListed K (map Q.M.meaning list.now) (Q.M.product (Q.M.meaning m.now) n))
        (IsFirstWithout K
        (λ n. IsListed K (map Q.M.meaning list.now) (Q.M.product (Q.M.meaning m.now) n))
        (map Q.M.meaning list.now)) }
{
    list.iter()
        .position(|n| !has_product(q, list, homes, m, n))
        .map(|j| j + 1)
}

// Whether m and then n are the same as a motion of the list.
fn has_product<Q: Quotient>(
    q: &Q,
    list: &[Q::M],
    homes: Option<&[Q::M]>,
    m: &Q::M,
    n: &Q::M,
) -> bool
    requires reach { Q.REACH ≡ pos (2 ^ 52) }
    requires small { All Q.M.IsSmall (map Q.M.meaning list.now) }
    requires homes { IfSome homes (λ known.
        AreHomes Q.M.meaning (Q.home_of q.now) list.now known.now) }
    requires first { Q.M.IsSmall (Q.M.meaning m.now) }
    requires second { Q.M.IsSmall (Q.M.meaning n.now) }
    ensures { IsTrue result
        ↔ IsListed (modulo Q.M.Motion.own (Q.IsShift q.now)) (map Q.M.meaning list.now)
        (Q.M.product (Q.M.meaning m.now) (Q.M.meaning n.now)) }
{
    let product = m.then(n);
    match homes {
        Some(homes) => homes.contains(&q.home(&product)),
        None => find(q, list, &product).is_some(),
    }
}

// The first position of a motion that has no inverse in the list.
fn first_without_inverse<Q: Quotient>(q: &Q, list: &[Q::M]) -> Option<usize>
    requires reach { Q.REACH ≡ pos (2 ^ 52) }
    requires small { All Q.M.IsSmall (map Q.M.meaning list.now) }
    ensures { let K = modulo Q.M.Motion.own (Q.IsShift q.now) in
        MatchOption result
        (AllHaveInverse K (map Q.M.meaning list.now))
        (IsFirstWithout K (HasInverse K (map Q.M.meaning list.now)) (map Q.M.meaning list.now)) }
{
    list.iter()
        .position(|m| !has_inverse(q, list, m))
        .map(|i| i + 1)
}

// Whether some motion of the list is an inverse of m.
fn has_inverse<Q: Quotient>(q: &Q, list: &[Q::M], m: &Q::M) -> bool
    requires reach { Q.REACH ≡ pos (2 ^ 52) }
    requires small { All Q.M.IsSmall (map Q.M.meaning list.now) }
    requires motion { Q.M.IsSmall (Q.M.meaning m.now) }
    ensures { IsTrue result
        ↔ HasInverse (modulo Q.M.Motion.own (Q.IsShift q.now)) (map Q.M.meaning list.now)
        (Q.M.meaning m.now) }
{
    list.iter().any(|n| are_inverse(q, m, n))
}

// Whether m and then n, and n and then m, are the same as the identity: whether both are shifts.
fn are_inverse<Q: Quotient>(q: &Q, m: &Q::M, n: &Q::M) -> bool
    requires reach { Q.REACH ≡ pos (2 ^ 52) }
    requires first { Q.M.IsSmall (Q.M.meaning m.now) }
    requires second { Q.M.IsSmall (Q.M.meaning n.now) }
    ensures { IsTrue result
        ↔ AreInverse (modulo Q.M.Motion.own (Q.IsShift q.now)) (Q.M.meaning m.now)
        (Q.M.meaning n.now) }
{
    q.is_shift(&m.then(n)) && q.is_shift(&n.then(m))
}
