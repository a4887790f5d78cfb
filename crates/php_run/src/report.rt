ghost use Rattle.std.specs.Prelude.{◌≡◌};
ghost use Rattle.php_run.specs.Reported.{report_of};

use php_lex::LexFail;
use php_names::NameFail;
use php_reader::ParseFail;
use php_value::Fault;

/// How a call ended.
#[derive(Clone, Copy, Debug, PartialEq, Eq)]
pub enum Kind {
    /// The script ran to its end, or was checked.
    Done,
    /// A fault ended the run.
    Fatal(Fault),
    /// The allowance of ticks was used up.
    Cut,
    /// The words are none that the command knows.
    Usage,
    /// The shelf has no file of the name.
    NoFile,
    /// The shelf failed.
    ShelfFault,
    /// The file has more than 1,048,576 bytes.
    TooLong,
    /// The file is no script that can be run.
    Refused(Refusal),
    /// The output or the error stream failed.
    SinkFault,
    /// Memory could not be had.
    NoMemory,
}

/// Why a file is not run or checked: the first of these causes that is there. None is want of memory.
#[derive(Clone, Copy, Debug, PartialEq, Eq)]
pub enum Refusal {
    /// The file has no tokens: its first fault.
    Lex(LexFail),
    /// The tokens spell no script, or one that is nested too deep: the first token at which that shows.
    Parse(ParseFail),
    /// The script isn't legal: its first fault.
    Name(NameFail),
    /// The script is legal, and has a form that can't be run, or counted, yet. The number is a line.
    NotYet(u32),
}

/// How a call ended, and what it took.
#[derive(Clone, Copy, Debug, PartialEq, Eq)]
pub struct Report {
    pub kind: Kind,
    /// The exit status of the program.
    pub status: u8,
    /// The ticks that the run took, 0 where nothing ran.
    pub ticks: u64,
    /// The array entries that were made; scripts have no arrays yet, so 0.
    pub made: u64,
}

/// The report of a call that ended so and took these ticks.
pub(crate) fn reported(kind: Kind, ticks: u64) -> Report
    ensures { result ≡ report_of kind ticks }
{
    Report {
        kind,
        status: kind.status(),
        ticks,
        made: 0,
    }
}
