// Actions of statements.

#[derive(Drop)]
pub enum JumpAction {
    /// A statement of this line begins. It takes one tick, and the run is cut where none is left.
    Tick(u32),
}
