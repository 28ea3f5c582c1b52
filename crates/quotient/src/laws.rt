// The laws of sameness modulo shifts. A call does nothing: its contract is the law.
ghost use Rattle.std.specs.Prelude.{◌↔◌, AllPairs, map};
ghost use Rattle.quotient.specs.Groups.{IsGroup};
ghost use Rattle.quotient.specs.Kind.{IsEquivalence, IsInverse, IsSame, Keeps};
ghost use Rattle.quotient.specs.Lists.{AreFirst, IsListed, KeepsOrder};
ghost use Rattle.quotient.specs.Modulo.{modulo};

use crate::traits::{Motion, Quotient};

/// Sameness modulo shifts is an equivalence.
pub fn sameness_is_an_equivalence<Q: Quotient>(q: &Q)
    ensures { IsEquivalence (IsSame (modulo Q.M.Motion.own (Q.IsShift q.now))) }
{}

/// Products of the same motions are the same, where the second motion carries shifts into shifts.
pub fn products_respect_sameness<Q: Quotient>(q: &Q)
    ensures { let K = modulo Q.M.Motion.own (Q.IsShift q.now) in
        (m m' n n' : Q.M.Meaning) → Keeps K n → IsSame K m m' → IsSame K n n' →
        IsSame K (Q.M.product m n) (Q.M.product m' n') }
{}

/// What the first motions of a list are: no two are the same, each listed motion is the same as one of them, they keep
/// the list's order, and they are a group modulo the shifts exactly where the list is one.
pub fn first_motions<Q: Quotient>(q: &Q, list: &[Q::M], firsts: &[Q::M])
    requires { let K = modulo Q.M.Motion.own (Q.IsShift q.now) in
        AreFirst (λ m n. IsSame K (Q.M.meaning m) (Q.M.meaning n)) list.now firsts.now }
    ensures apart { let K = modulo Q.M.Motion.own (Q.IsShift q.now) in
        AllPairs (λ m n. ¬ IsSame K n m) (map Q.M.meaning firsts.now) }
    ensures listed { let K = modulo Q.M.Motion.own (Q.IsShift q.now) in (m : Q.M.Meaning) →
        IsListed K (map Q.M.meaning list.now) m ↔ IsListed K (map Q.M.meaning firsts.now) m }
    ensures ordered { let K = modulo Q.M.Motion.own (Q.IsShift q.now) in
        AllPairs (KeepsOrder (IsSame K) (map Q.M.meaning list.now)) (map Q.M.meaning firsts.now) }
    ensures group { let K = modulo Q.M.Motion.own (Q.IsShift q.now) in
        IsGroup K (map Q.M.meaning list.now) ↔ IsGroup K (map Q.M.meaning firsts.now) }
{}

/// The members of a group modulo shifts, which are the motions that are the same as a listed one, are a group: each
/// product of two is a member, and each has an inverse on both sides that is one.
pub fn members_are_a_group<Q: Quotient>(q: &Q, list: &[Q::M])
    requires { IsGroup (modulo Q.M.Motion.own (Q.IsShift q.now)) (map Q.M.meaning list.now) }
    ensures products { let IsMember = IsListed (modulo Q.M.Motion.own (Q.IsShift q.now))
        (map Q.M.meaning list.now) in
        (m n : Q.M.Meaning) → IsMember m → IsMember n → IsMember (Q.M.product m n) }
    ensures inverses { let K = modulo Q.M.Motion.own (Q.IsShift q.now) in
        let IsMember = IsListed K (map Q.M.meaning list.now) in
        (m : Q.M.Meaning) → IsMember m → (n : Q.M.Meaning) × IsMember n × IsInverse K m n }
{}
