// The Miller indices of an orientation of planes.
ghost use Rattle.std.specs.Prelude.{◌≡◌, ◌↔◌, pos, ◌≤ℤ◌, IfOk, IsTrue, unsigned_abs};
ghost use Rattle.motions.specs.Divisors.{IsGreatestDivisor};
ghost use Rattle.motions.specs.declared.miller.TheConstants.{INDEX};
ghost use Rattle.symmetry.specs.Planes.{IsCoprime};
ghost use Rattle.symmetry.specs.Sizes.{IsVectorWithin};

use fractions::greatest_common_divisor;

/// How large a Miller index may be.
pub const INDEX: i64 = 255;

/// Why three numbers are no Miller indices.
#[derive(Clone, Copy, PartialEq, Eq, Debug)]
pub enum PlaneFault {
    /// One passes [`INDEX`](crate::INDEX) in size.
    OutOfRange,
    /// All are 0.
    AllZero,
    /// Their greatest common divisor, which is above 1.
    NotCoprime(i64),
}

/// The Miller indices (hkl) of an orientation: coprime, and each from -[`INDEX`](crate::INDEX) to it.
#[derive(Clone, Copy, PartialEq, Eq, Debug)]
pub struct Miller {
    pub h: i64,
    pub k: i64,
    pub l: i64,
    pub ghost coprime: { IsCoprime (record { x = h; y = k; z = l }) },
    pub ghost in_range: { IsVectorWithin (unsigned_abs INDEX) (record { x = h; y = k; z = l }) },
}

impl Miller {
    ghost use Rattle.motions.specs.Bounds.{largest_cofactor};
    ghost use Rattle.motions.specs.PlaneFaults.{IsPlaneFault};
    ghost use Rattle.motions.specs.Views.{row_of, vector_of};
    ghost use Rattle.motions.specs.declared.miller.PlaneFault.{PlaneFault};

    /// The orientation (hkl).
    ///
    /// `OutOfRange` comes exactly where one of the three passes [`INDEX`](crate::INDEX) in size, else `AllZero`
    /// exactly where all are 0, else `NotCoprime(g)` exactly where their greatest common divisor g is above 1.
    pub fn make(h: i64, k: i64, l: i64) -> Result<Miller, PlaneFault>
        ensures ok { IfOk result (λ plane. row_of plane ≡ record { x = h; y = k; z = l }) }
        ensures faults { (fault : PlaneFault) →
            (result ≡ Err fault) ↔ IsPlaneFault (record { x = h; y = k; z = l }) fault }
    {
        if !are_in_range(h, k, l) {
            return Err(PlaneFault::OutOfRange);
        }
        match common_divisor(h, k, l) {
            0 => Err(PlaneFault::AllZero),
            1 => Ok(Miller { h, k, l }),
            g => Err(PlaneFault::NotCoprime(g)),
        }
    }

    /// The row (hkl).
    pub(crate) fn row(&self) -> [i64; 3]
        ensures is { vector_of result ≡ row_of self.now }
        ensures small { IsVectorWithin largest_cofactor (vector_of result) }
    {
        [self.h, self.k, self.l]
    }
}

/// Whether three numbers are in the range of Miller indices.
fn are_in_range(h: i64, k: i64, l: i64) -> bool
    ensures { IsTrue result ↔ IsVectorWithin (unsigned_abs INDEX) (record { x = h; y = k; z = l }) }
{
    let largest = INDEX.unsigned_abs();
    h.unsigned_abs() <= largest && k.unsigned_abs() <= largest && l.unsigned_abs() <= largest
}

/// The greatest common divisor of three numbers in the range of Miller indices.
fn common_divisor(h: i64, k: i64, l: i64) -> i64
    requires { IsVectorWithin (unsigned_abs INDEX) (record { x = h; y = k; z = l }) }
    ensures is { IsGreatestDivisor (unsigned_abs result) (record { x = h; y = k; z = l }) }
    ensures size { pos 0 ≤ℤ result }
{
    let of_two = greatest_common_divisor(h.unsigned_abs().into(), k.unsigned_abs().into());
    greatest_common_divisor(of_two, l.unsigned_abs().into()) as i64
}
