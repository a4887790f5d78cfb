// Actions on what a script names beside its variables.

use php_value::Text;

#[derive(Drop)]
pub enum NameAction {
    /// [] → [value]: the constant that was defined under this name. Throws `UNDEFINED_CONSTANT`.
    PushConstant(Text),
}
