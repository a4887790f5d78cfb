// How far a run is.
ghost use Rattle.std.specs.Prelude.{◌+◌, ◌<◌, ◌^◌};

use php_frames::Frame;

/// How far a run is: the newest frame, and the ticks.
#[derive(Drop)]
pub struct State {
    pub frame: Frame,
    /// Ticks that may still be taken.
    pub left: u64,
    /// Ticks that were taken.
    pub taken: u64,
    ghost fits: { taken + left < 2 ^ 64 },
}
