// The frames of a run.
ghost use Rattle.std.specs.Prelude.{◌≡◌, ◌≢◌, ◌↔◌, ◌<◌, ◌≤◌, [], ◌∷◌, length, IfSome, IfNone, OnOk, OnErr, IsErrOf, drop};
ghost use Rattle.std.specs.Option.{option_map};
ghost use Rattle.php_frames.specs.Stack.{newest_of};

use crate::frame::Frame;
use std::alloc::Global;
use std::marker::Model;

// How many frames there are at most: the script's, and 10,000 calls inside one another.
const MOST_FRAMES: usize = 10_001;

/// Why no frame was added.
#[derive(Clone, Copy, Debug, Eq, PartialEq)]
pub enum PushFail {
    /// 10,001 frames are there.
    Depth,
    NoMemory,
}

/// The frames of a run. A contract sees them as a list, the newest one first.
#[derive(Drop)]
pub struct Frames {
    // The newest one last.
    frames: Vec<Frame>,
}

impl Model for Frames {
    ghost use Rattle.std.specs.Prelude.{List, reverse};
    ghost use Rattle.php_frames.specs.declared.frame.Frame.{Frame};

    ghost Value = { List Frame };

    ghost view = { λ f. reverse f.frames.items };
}

impl Frames {
    /// No frames.
    pub fn new(alloc: Global) -> Frames
        ensures { result ≡ [] }
    {
        Frames {
            frames: Vec::new(alloc),
        }
    }

    /// Adds a frame as the newest one.
    pub fn push(&mut self, frame: Frame) -> Result<(), PushFail>
        ensures ok { OnOk result (self.new ≡ frame ∷ self.old) }
        ensures err { OnErr result (self.new ≡ self.old) }
        ensures depth { IsErrOf result PushFail.Depth ↔ (10001 ≤ length self.old) }
    {
        if self.frames.len() >= MOST_FRAMES {
            return Err(PushFail::Depth);
        }
        match self.frames.push(frame) {
            Ok(()) => Ok(()),
            Err(_) => Err(PushFail::NoMemory),
        }
    }

    /// Takes the newest frame off. It answers `None` exactly where there is none.
    pub fn pop(&mut self) -> Option<Frame>
        ensures newest { IfSome result (λ frame. self.old ≡ frame ∷ self.new) }
        ensures empty { IfNone result ((self.old ≡ []) × (self.new ≡ [])) }
    {
        self.frames.pop()
    }

    /// The newest frame.
    pub fn top(&self) -> Option<&Frame>
        ensures { option_map (λ f. f.now) result ≡ newest_of self.now }
    {
        self.frames.last()
    }

    /// Replaces the newest frame.
    pub fn set_top(&mut self, frame: Frame)
        requires { self.old ≢ [] }
        ensures { self.new ≡ frame ∷ drop 1 self.old }
    {
        let newest = self.frames.len() - 1;
        self.frames[newest] = frame;
    }

    /// The number of frames.
    pub fn len(&self) -> usize
        ensures { result ≡ length self.now }
    {
        self.frames.len()
    }
}
