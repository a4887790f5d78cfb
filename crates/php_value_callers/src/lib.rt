// Callers of the values, proved from their contracts alone: keys in an ordered map, a comparison in a sort, sums of integers.
#![tactic(auto)]

mod counting;
mod sorting;
mod summing;

pub use counting::count_key;
pub use sorting::sort_by_order;
pub use summing::add;
