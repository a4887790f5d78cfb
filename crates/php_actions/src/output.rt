// Actions that write.

use php_value::Text;

#[derive(Drop)]
pub enum OutputAction {
    /// [x] → []: x is written, and falls then
    Echo,
    /// [] → []
    Write(Text),
    /// [x] → [1]: x is written, and falls then
    Print,
}
