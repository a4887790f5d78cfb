// Actions that begin and end frames.

#[derive(Drop)]
pub enum CallAction {
    /// [] → [null], and a return is under way
    EndBody,
}
