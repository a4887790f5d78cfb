// Actions on temporaries alone.

use php_value::Scalar;

#[derive(Drop)]
pub enum StackAction {
    /// [] → [value]
    Push(Scalar),
    /// [] → [an empty array]
    PushArray,
    /// [x] → [], x falls
    Drop,
    /// [x y] → [y x]
    Swap,
    /// [x] → [x, a copy of what x shows]
    Duplicate,
    /// [x] → [value]: a copy of what its store holds stands in the place of a link, which falls
    Settle,
    /// [x] → [x, whether x is a truth]
    TestTruth,
    /// [x] → [x, whether x isn't null]
    TestNotNull,
}
