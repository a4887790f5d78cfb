ghost use Rattle.std.specs.Prelude.{◌≡◌};
ghost use Rattle.php_run.specs.Status.{status_of};

use crate::report::Kind;

/// The script ran to its end.
pub(crate) const DONE: u8 = 0;

/// The words are none that the command knows.
pub(crate) const USAGE: u8 = 64;

/// The file is too long, or no script that can be run.
pub(crate) const UNFIT_FILE: u8 = 65;

/// There is no file of the name, or it can't be read.
pub(crate) const UNREAD_FILE: u8 = 66;

/// Memory could not be had.
pub(crate) const NO_MEMORY: u8 = 70;

/// The output or the error stream failed.
pub(crate) const SINK_FAULT: u8 = 74;

/// The allowance of ticks was used up.
pub(crate) const CUT: u8 = 75;

/// A fault ended the run.
pub(crate) const FATAL: u8 = 255;

impl Kind {
    /// The exit status of the program where a call ended so.
    pub fn status(self) -> u8
        ensures { result ≡ status_of self }
    {
        match self {
            Kind::Done => DONE,
            Kind::Fatal(_) => FATAL,
            Kind::Cut => CUT,
            Kind::Usage => USAGE,
            Kind::NoFile | Kind::ShelfFault => UNREAD_FILE,
            Kind::TooLong | Kind::Refused(_) => UNFIT_FILE,
            Kind::SinkFault => SINK_FAULT,
            Kind::NoMemory => NO_MEMORY,
        }
    }
}
