ghost use Rattle.std.specs.Prelude.{◌≡◌, ◌++◌, List, ℕ, [], codes, decimal};
ghost use Rattle.php_run.specs.declared.report.Refusal.TheVariants as refusal;
ghost use Rattle.php_run.specs.Answer.{no_file, no_memory, shelf_fault, too_long, usage, without_run};
ghost use Rattle.php_run.specs.Answer as answers;
ghost use Rattle.php_run.specs.Message.{bytes_of};
ghost use Rattle.php_run.specs.Shown.{shown};
ghost use Rattle.php_run.specs.Texts as texts;

use crate::message::{Message, Middle};
use crate::report::{Kind, Refusal};
use php_front::ReadFail;
use php_lex::LexFail;
use php_names::NameFail;
use php_reader::ParseFail;

/// What the call answers, before the error text is written.
#[derive(Clone, Copy, Debug)]
pub(crate) struct Answer<'a> {
    pub kind: Kind,
    pub ticks: u64,
    pub message: Message<'a>,
}

pub(crate) fn fixed(text: &'static str) -> Message<'static>
    ensures { bytes_of result ≡ text.now }
{
    Message {
        before: text,
        middle: Middle::Nothing,
        after: "",
    }
}

pub(crate) fn on_line(before: &'static str, line: u32) -> Message<'static>
    ensures { bytes_of result ≡ before.now ++ decimal line ++ codes "\n" }
{
    Message {
        before,
        middle: Middle::Line(line),
        after: "\n",
    }
}

/// The answer where nothing ran.
pub(crate) fn idle(kind: Kind, message: Message<'_>) -> Answer<'_>
    ensures { shown result [] ≡ without_run kind (bytes_of message.entry) }
{
    Answer {
        kind,
        ticks: 0,
        message,
    }
}

/// The answer where a run stopped.
pub(crate) fn stopped(kind: Kind, ticks: u64, message: Message<'static>) -> Answer<'static>
    ensures { (output : List ℕ) → shown result output ≡ record {
      kind = kind;
      ticks = ticks;
      output = output;
      error = bytes_of message.entry;
    } }
{
    Answer {
        kind,
        ticks,
        message,
    }
}

pub(crate) fn no_use() -> Answer<'static>
    ensures { shown result [] ≡ usage }
{
    idle(
        Kind::Usage,
        fixed("usage: phprun run [--steps N] FILE ARG.. | check FILE | demo N\n"),
    )
}

fn cannot_read(kind: Kind, file: &str) -> Answer<'_>
    ensures { shown result [] ≡ without_run kind (texts.cannot_read file.now) }
{
    let message = Message {
        before: "phprun: cannot read ",
        middle: Middle::Name(file),
        after: "\n",
    };
    idle(kind, message)
}

pub(crate) fn file_missing(file: &str) -> Answer<'_>
    ensures { shown result [] ≡ no_file file.now }
{
    cannot_read(Kind::NoFile, file)
}

pub(crate) fn shelf_failed(file: &str) -> Answer<'_>
    ensures { shown result [] ≡ shelf_fault file.now }
{
    cannot_read(Kind::ShelfFault, file)
}

pub(crate) fn file_too_long(file: &str) -> Answer<'_>
    ensures { shown result [] ≡ too_long file.now }
{
    let message = Message {
        before: "phprun: ",
        middle: Middle::Name(file),
        after: " is longer than 1048576 bytes\n",
    };
    idle(Kind::TooLong, message)
}

/// The answer where the file is refused for this cause, by a text up to the line of it.
fn refused(cause: Refusal, before: &'static str, line: u32) -> Answer<'static>
    ensures { shown result [] ≡ without_run (Kind.Refused cause) (before.now ++ decimal line ++ codes "\n") }
{
    idle(Kind::Refused(cause), on_line(before, line))
}

pub(crate) fn not_yet(line: u32) -> Answer<'static>
    ensures { shown result [] ≡ answers.not_yet line }
{
    refused(
        Refusal::NotYet(line),
        "phprun: refused: NotYet on line ",
        line,
    )
}

fn not_lexed(fault: LexFail) -> Answer<'static>
    ensures { shown result [] ≡ answers.refused (refusal.Lex fault) }
{
    let cause = Refusal::Lex(fault);
    match fault {
        LexFail::Unclosed(line) => refused(cause, "phprun: refused: Unclosed on line ", line),
        LexFail::BadByte(line) => refused(cause, "phprun: refused: BadByte on line ", line),
        LexFail::FloatLiteral(line) => {
            refused(cause, "phprun: refused: FloatLiteral on line ", line)
        }
        LexFail::IntTooLarge(line) => refused(cause, "phprun: refused: IntTooLarge on line ", line),
        LexFail::BadEscape(line) => refused(cause, "phprun: refused: BadEscape on line ", line),
        LexFail::NoMemory => refused(cause, "phprun: refused: NoMemory on line ", 0),
    }
}

fn not_parsed(failure: ParseFail) -> Answer<'static>
    ensures { shown result [] ≡ answers.refused (refusal.Parse failure) }
{
    let cause = Refusal::Parse(failure);
    match failure {
        ParseFail::Syntax(_, line) => refused(cause, "phprun: refused: Syntax on line ", line),
        ParseFail::TooDeep(_, line) => refused(cause, "phprun: refused: TooDeep on line ", line),
        ParseFail::NoMemory => refused(cause, "phprun: refused: NoMemory on line ", 0),
    }
}

fn not_legal(failure: NameFail) -> Answer<'static>
    ensures { shown result [] ≡ answers.refused (refusal.Name failure) }
{
    let cause = Refusal::Name(failure);
    match failure {
        NameFail::NotAPlace(line, _) => refused(cause, "phprun: refused: NotAPlace on line ", line),
        NameFail::BadBreak(line, _) => refused(cause, "phprun: refused: BadBreak on line ", line),
        NameFail::JumpFromFinally(line, _) => {
            refused(cause, "phprun: refused: JumpFromFinally on line ", line)
        }
        NameFail::Duplicate(line, _) => refused(cause, "phprun: refused: Duplicate on line ", line),
        NameFail::BadConstant(line, _) => {
            refused(cause, "phprun: refused: BadConstant on line ", line)
        }
        NameFail::BadList(line, _) => refused(cause, "phprun: refused: BadList on line ", line),
        NameFail::BadUse(line, _) => refused(cause, "phprun: refused: BadUse on line ", line),
        NameFail::TooManyNames(line, _) => {
            refused(cause, "phprun: refused: TooManyNames on line ", line)
        }
        NameFail::NoMemory => refused(cause, "phprun: refused: NoMemory on line ", 0),
    }
}

/// The answer where the file isn't read as a legal script. The three calls that read have their want of memory in a cause of
/// its own, so it is never told with a line.
pub(crate) fn unread(cause: ReadFail) -> Answer<'static>
    ensures { shown result [] ≡ answers.unread cause }
{
    match cause {
        ReadFail::Lex(fault) => not_lexed(fault),
        ReadFail::Parse(failure) => not_parsed(failure),
        ReadFail::Name(failure) => not_legal(failure),
        ReadFail::NoMemory => starved(),
    }
}

pub(crate) fn starved() -> Answer<'static>
    ensures { shown result [] ≡ no_memory }
{
    idle(Kind::NoMemory, fixed("phprun: out of memory\n"))
}
