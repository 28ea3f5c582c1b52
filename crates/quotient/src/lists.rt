// Lists of motions, read modulo shifts.
ghost use Rattle.std.specs.Prelude.{◌↔◌, All, IfOk, IfSome, IsSome, map, unsigned_abs};
ghost use Rattle.quotient.specs.Kind.{IsSame};
ghost use Rattle.quotient.specs.Lists.{AreFirst, AreHomes, IsFirstSame, IsListed};
ghost use Rattle.quotient.specs.Modulo.{modulo};

use crate::traits::{Motion, Quotient};
use std::alloc::{AllocError, Global};

/// The answer where memory runs out.
pub type NoMemory = AllocError;

/// The index, from 0, of the first motion of the list that is the same as m; None exactly where there is none.
pub fn find<Q: Quotient>(q: &Q, list: &[Q::M], m: &Q::M) -> Option<usize>
    requires list { All (Q.M.MovesWithin (unsigned_abs Q.REACH)) (map Q.M.meaning list.now) }
    requires motion { Q.M.MovesWithin (unsigned_abs Q.REACH) (Q.M.meaning m.now) }
    ensures found { IsSome result
        ↔ IsListed (modulo Q.M.Motion.own (Q.IsShift q.now)) (map Q.M.meaning list.now)
        (Q.M.meaning m.now) }
    ensures first { IfSome result
        (IsFirstSame (modulo Q.M.Motion.own (Q.IsShift q.now)) (map Q.M.meaning list.now)
        (Q.M.meaning m.now)) }
{
    let home = q.home(m);
    list.iter().position(|listed| q.home(listed) == home)
}

/// The motions of the list that are the same as no earlier one, unchanged and in their order.
pub fn distinct<Q: Quotient>(alloc: Global, q: &Q, list: &[Q::M]) -> Result<Vec<Q::M>, NoMemory>
    requires { All (Q.M.MovesWithin (unsigned_abs Q.REACH)) (map Q.M.meaning list.now) }
    ensures { IfOk result (λ kept. AreFirst
        (λ m n. IsSame (modulo Q.M.Motion.own (Q.IsShift q.now)) (Q.M.meaning m) (Q.M.meaning n))
        list.now kept.items) }
{
    let mut kept = Vec::new(alloc);
    let mut homes = Vec::new(alloc);
    for m in list {
        let home = q.home(m);
        if !homes.contains(&home) {
            kept.push(*m)?;
            homes.push(home)?;
        }
    }
    Ok(kept)
}

/// The home of each motion of the list, in its order.
pub fn homes<Q: Quotient>(alloc: Global, q: &Q, list: &[Q::M]) -> Result<Vec<Q::M>, NoMemory>
    requires { All (Q.M.MovesWithin (unsigned_abs Q.REACH)) (map Q.M.meaning list.now) }
    ensures { IfOk result (λ homes. AreHomes Q.M.meaning (Q.home_of q.now) list.now homes.items) }
{
    let mut homes = Vec::new(alloc);
    for m in list {
        homes.push(q.home(m))?;
    }
    Ok(homes)
}
