// Sums of integers.
ghost use Rattle.std.specs.Prelude.{◌≡◌, ◌+ℤ◌, FitsSigned, IfErr};
ghost use Rattle.std.specs.Int.{w64};
ghost use Rattle.std.specs.Result.{OkIff};

use php_value::{Fault, Op, Scalar, Stopped, arith};
use std::alloc::Global;

/// The sum, where it has 64 bits.
pub fn add(alloc: Global, x: i64, y: i64) -> Result<i64, Fault>
    ensures sum { OkIff result (FitsSigned w64 (x +ℤ y)) (x +ℤ y) }
    ensures overflow { IfErr result (λ fault. fault ≡ Fault.Overflow) }
{
    match arith(alloc, Op::Add, &Scalar::Int(x), &Scalar::Int(y)) {
        Ok(Scalar::Int(sum)) => Ok(sum),
        Err(Stopped::Fault(fault)) => Err(fault),
        _ => unreachable!(),
    }
}
