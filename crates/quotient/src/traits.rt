// The traits of motions and of shifts.
ghost use Rattle.std.specs.Prelude.{◌≡◌, ℕ, ℤ, ◌^◌, ◌≤◌, ◌↔◌, IsTrue, MatchOption, unsigned_abs};
ghost use Rattle.quotient.specs.Kind.{IsInverse, IsMonoid, AreShiftsGroup, IsSame, Keeps};

/// A motion, with numbers of bounded size. What it stands for has numbers of any size.
pub trait Motion: Copy + PartialEq {
    ghost Meaning: { Type 0 };

    ghost meaning: { Self → Meaning };

    // first the left one, then the right one
    ghost product: { Meaning → Meaning → Meaning };

    ghost one: { Meaning };

    // matrix entries at most 500 in size, and translations at most 2^40 units in size
    ghost IsSmall: { Meaning → Type 0 };

    // each translation is at most this in size
    ghost MovesWithin: { ℕ → Meaning → Type 0 };

    /// The motion that moves nothing.
    fn identity() -> Self
        ensures { meaning result ≡ one };

    /// First this motion, then the next one.
    fn then(&self, next: &Self) -> Self
        requires first { IsSmall (meaning self.now) }
        requires second { IsSmall (meaning next.now) }
        ensures { meaning result ≡ product (meaning self.now) (meaning next.now) };

    /// The inverse. None comes exactly where no inverse of whole matrix entries exists.
    fn back(&self) -> Option<Self>
        requires { IsSmall (meaning self.now) }
        ensures { MatchOption result
            ((b : Meaning) → ¬ (product (meaning self.now) b ≡ one))
            (λ m. (product (meaning self.now) (meaning m) ≡ one)
            × (product (meaning m) (meaning self.now) ≡ one)) };

    ghost monoid: { IsMonoid product one };

    // motions are compared by what they stand for
    ghost equal: { (a b : Self) → IsTrue (Self.eq a b) ↔ (meaning a ≡ meaning b) };

    ghost moves_more: { (n m : ℕ) (a : Meaning) → n ≤ m → MovesWithin n a → MovesWithin m a };

    ghost one_within: { MovesWithin 0 one };

    ghost small_within: { (a : Meaning) → IsSmall a → MovesWithin (2 ^ 40) a };

    ghost product_within: { (a b : Meaning) → IsSmall a → IsSmall b →
        MovesWithin (2 ^ 52) (product a b) };
}

/// The shifts that motions are taken modulo: two motions are the same when one is the other followed by a shift.
pub trait Quotient {
    ghost use Rattle.quotient.specs.Modulo.{modulo};

    type M: Motion;

    /// How large the translations may be that `is_shift` and `home` are asked about.
    const REACH: i64;

    ghost REACH: { ℤ };

    ghost IsShift: { Self → Self.M → Type 0 };

    ghost home_of: { Self → Self.M → Self.M };

    /// Whether the motion is a shift.
    fn is_shift(&self, m: &Self::M) -> bool
        requires { Self.M.MovesWithin (unsigned_abs REACH) (Self.M.meaning m.now) }
        ensures { IsTrue result ↔ IsShift self.now m.now };

    /// The motion that stands for all those that are the same as m.
    fn home(&self, m: &Self::M) -> Self::M
        requires { Self.M.MovesWithin (unsigned_abs REACH) (Self.M.meaning m.now) }
        ensures { Self.M.meaning result ≡ Self.M.meaning (home_of self.now m.now) };

    /// Whether the motion carries shifts into shifts.
    fn keeps(&self, m: &Self::M) -> bool
        requires { Self.M.IsSmall (Self.M.meaning m.now) }
        ensures { IsTrue result
            ↔ Keeps (modulo Self.M.Motion.own (IsShift self.now)) (Self.M.meaning m.now) };

    // what a motion stands for decides whether it is a shift
    ghost by_meaning: { (q : Self) (a b : Self.M) → Self.M.meaning a ≡ Self.M.meaning b →
        IsShift q a → IsShift q b };

    ghost shifts: { (q : Self) → AreShiftsGroup (modulo Self.M.Motion.own (IsShift q)) };

    // home(m) is the same as m
    ghost home_is_same: { (q : Self) (m : Self.M) →
        IsSame (modulo Self.M.Motion.own (IsShift q)) (Self.M.meaning (home_of q m))
        (Self.M.meaning m) };

    // m and n are the same exactly if home(m) = home(n)
    ghost homes: { (q : Self) (m n : Self.M) →
        IsSame (modulo Self.M.Motion.own (IsShift q)) (Self.M.meaning m) (Self.M.meaning n)
        ↔ (Self.M.meaning (home_of q m) ≡ Self.M.meaning (home_of q n)) };
}
