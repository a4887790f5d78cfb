ghost use Rattle.std.specs.Prelude.{◌≡◌, ℕ, ◌+◌, ◌≤◌, List, Some, Ok, IfOk, take};
ghost use Rattle.php_base.specs.Streams.{stream_of};
ghost use Rattle.php_run.specs.Asked.{asked};
ghost use Rattle.php_run.specs.Called.{Called, CanEnd};
ghost use Rattle.php_run.specs.Headline.{Answers};
ghost use Rattle.php_ast.specs.declaration.View.{script_view};
ghost use Rattle.php_run.specs.Owed.{IsOwed, IsOwedTo};
ghost use Rattle.php_run.specs.Reported.{IsReported, keeps_kind};
ghost use Rattle.php_run.specs.Shown.{shown, task_wanted, wanted};
ghost use Rattle.php_run.specs.Words.{shape};

use crate::answer::{Answer, file_missing, file_too_long, no_use, shelf_failed, starved, unread};
use crate::check::answer_check;
use crate::limits::MOST_BYTES;
use crate::message::put_message;
use crate::report::{Kind, Report, reported};
use crate::today::answer_script;
use crate::words::{Request, Task, requested};
use php_base::{Shelf, ShelfFail, Sink};
use php_front::{Read, let_go, read_script};
use std::alloc::Global;

/// What is to be done with a legal script is done.
fn answer_read<O: Sink>(alloc: Global, task: Task, read: &Read, out: &mut O) -> Answer<'static>
    ensures { (output : List ℕ) × CanEnd (IsOwedTo (task_wanted task) read.now.tokens (script_view read.now.script))
        (stream_of O.written O.faults out.old) (stream_of O.written O.faults out.new) (shown result output) }
{
    match task {
        Task::Run(allowance) => {
            answer_script(alloc, &read.tokens, read.script.script(), allowance, out)
        }
        Task::Check => answer_check(read.script.script(), out),
    }
}

/// The file is read whole before anything runs: a cause why it is no legal script is the answer, whatever stands before it.
fn answer_bytes<'a, O: Sink>(
    alloc: Global,
    request: &Request<'a>,
    bytes: &[u8],
    out: &mut O,
) -> Answer<'a>
    ensures { (whole : List ℕ) → bytes.now ≡ take (MOST_BYTES + 1) whole → (output : List ℕ)
        × CanEnd (IsOwed (Some (wanted request.now)) (Some whole))
        (stream_of O.written O.faults out.old) (stream_of O.written O.faults out.new) (shown result output) }
{
    if bytes.len() > MOST_BYTES {
        return file_too_long(request.file);
    }
    match read_script(alloc, bytes) {
        Ok(read) => {
            let answer = answer_read(alloc, request.task, &read, out);
            let_go(read);
            answer
        }
        Err(cause) => unread(cause),
    }
}

fn answer_request<'a, S: Shelf, O: Sink>(
    alloc: Global,
    request: &Request<'a>,
    shelf: &mut S,
    out: &mut O,
) -> Answer<'a>
    ensures called { (output : List ℕ) × Called (Some (wanted request.now))
        (S.files shelf.old) (S.faults shelf.old) (S.faults shelf.new)
        (stream_of O.written O.faults out.old) (stream_of O.written O.faults out.new) (shown result output) }
    ensures files_stay { S.files shelf.new ≡ S.files shelf.old }
    ensures fetches { S.fetches shelf.new ≤ S.fetches shelf.old + 1 }
{
    match shelf.fetch(alloc, request.file, MOST_BYTES + 1) {
        Ok(bytes) => answer_bytes(alloc, request, bytes.as_slice(), out),
        Err(ShelfFail::Missing) => file_missing(request.file),
        Err(ShelfFail::Failed) => shelf_failed(request.file),
        Err(ShelfFail::NoMemory) => starved(),
    }
}

fn answer_words<'a, S: Shelf, O: Sink>(
    alloc: Global,
    words: &'a Vec<String>,
    shelf: &mut S,
    out: &mut O,
) -> Answer<'a>
    ensures called { (output : List ℕ) × Called (shape (asked words.now.items))
        (S.files shelf.old) (S.faults shelf.old) (S.faults shelf.new)
        (stream_of O.written O.faults out.old) (stream_of O.written O.faults out.new) (shown result output) }
    ensures files_stay { S.files shelf.new ≡ S.files shelf.old }
    ensures fetches { S.fetches shelf.new ≤ S.fetches shelf.old + 1 }
{
    match requested(words) {
        Some(request) => answer_request(alloc, &request, shelf, out),
        None => no_use(),
    }
}

fn keeps_its_kind(kind: Kind) -> bool
    ensures { result ≡ keeps_kind kind }
{
    match kind {
        Kind::SinkFault | Kind::NoMemory => true,
        Kind::Done
        | Kind::Fatal(_)
        | Kind::Cut
        | Kind::Usage
        | Kind::NoFile
        | Kind::ShelfFault
        | Kind::TooLong
        | Kind::Refused(_) => false,
    }
}

fn report_answer<E: Sink>(answer: &Answer, err: &mut E) -> Report
    ensures { (output : List ℕ) → IsReported (shown answer.now output)
        (stream_of E.written E.faults err.old) (stream_of E.written E.faults err.new) result }
{
    match put_message(err, &answer.message) {
        Ok(()) => reported(answer.kind, answer.ticks),
        Err(_) => {
            if keeps_its_kind(answer.kind) {
                reported(answer.kind, answer.ticks)
            } else {
                reported(Kind::SinkFault, answer.ticks)
            }
        }
    }
}

/// Runs the command that the words ask for: fetches the file from the shelf, reads the legal script that it is, runs it with
/// its output on `out`, or counts what it declares and writes that to `out`, and writes the error text of the ending, if it
/// has one, to `err`.
///
/// The words are those after the program's name. Whatever they are, the call returns a report. A file
/// that is not too long is refused for the first fault of the lexer (`Refusal::Lex`), where it has one; for the first token that
/// the parser refuses (`Refusal::Parse`); for the first fault of a script that the grammar lets pass (`Refusal::Name`); else
/// as `Refusal::NotYet`, where its tokens are no script of the language that runs today, or where it is to be checked and
/// has a class, an interface or a trait.
pub fn run_php<S: Shelf, O: Sink, E: Sink>(
    alloc: Global,
    words: &Vec<String>,
    shelf: &mut S,
    out: &mut O,
    err: &mut E,
) -> Report
    ensures headline { Answers (asked words.now.items)
        (record {
          files = S.files shelf.old;
          shelf_faults = S.faults shelf.old;
          out = stream_of O.written O.faults out.old;
          err = stream_of E.written E.faults err.old;
        })
        (record {
          files = S.files shelf.new;
          shelf_faults = S.faults shelf.new;
          out = stream_of O.written O.faults out.new;
          err = stream_of E.written E.faults err.new;
        })
        result }
    // The shelf keeps its files, and is asked at most once.
    ensures files_stay { S.files shelf.new ≡ S.files shelf.old }
    ensures fetches { S.fetches shelf.new ≤ S.fetches shelf.old + 1 }
{
    let answer = answer_words(alloc, words, shelf, out);
    report_answer(&answer, err)
}
