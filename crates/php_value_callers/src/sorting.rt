// A comparison in a sort.
ghost use Rattle.std.specs.Prelude.{◌≡◌, OnOk, IsSorted, IsPermutation};
ghost use Rattle.std.specs.Ordering.{int_cmp};

use php_base::NoMemory;
use php_value::{Order, Scalar, order};
use std::cmp::Ordering;

/// Sorts integers as the language orders them.
pub fn sort_by_order(values: &mut Vec<i64>) -> Result<(), NoMemory>
    ensures sorted { OnOk result (IsSorted int_cmp values.new.items) }
    ensures permutation { IsPermutation values.old.items values.new.items }
{
    values.sort_by(|a, b| ordering_of(*a, *b))?;
    Ok(())
}

fn ordering_of(a: i64, b: i64) -> Ordering
    ensures { result ≡ int_cmp a b }
{
    match order(&Scalar::Int(a), &Scalar::Int(b)) {
        Ok(Order::Less) => Ordering::Less,
        Ok(Order::Same) => Ordering::Equal,
        Ok(Order::More) => Ordering::Greater,
        Ok(Order::Apart) | Err(_) => unreachable!(),
    }
}
