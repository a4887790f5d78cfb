// Runs the command on one case a line, with its file and its sinks in memory, and prints what came of each.
//
// A line has the words, a tab, and the bytes of the file `a.php`, where `\n` stands for the end of a line.
// A third field behind another tab names what fails, and at which of its calls, as `out 2`.
//
// What is printed of a case: the kind of the report, the exit status, the ticks, what was written to the
// output, and the error text.
#![tactic(auto)]

use php_base::{MemShelf, MemSink, NoMemory};
use php_run::{Report, run_php};
use std::alloc::Global;
use std::io;

/// The file and the sinks of a case.
#[derive(Drop)]
struct Outside {
    shelf: MemShelf,
    out: MemSink,
    err: MemSink,
}

fn wanted(_: NoMemory) -> io::Error {
    io::Error::from(io::ErrorKind::OutOfMemory)
}

fn words_of(alloc: Global, field: &str) -> io::Result<Vec<String>> {
    let mut words = Vec::new(alloc);
    for word in field.split_whitespace() {
        words.push(String::from_str(alloc, word)?)?;
    }
    Ok(words)
}

/// The file, an output that takes three bytes a call, and an error stream that takes seven.
fn outside_of(alloc: Global, field: &str) -> io::Result<Outside> {
    let file = field.replace(alloc, "\\n", "\n")?;
    let mut shelf = MemShelf::new(alloc);
    shelf.put("a.php", file.as_bytes()).map_err(wanted)?;
    let out = MemSink::new(alloc, 3, 100).map_err(wanted)?;
    let err = MemSink::new(alloc, 7, 100).map_err(wanted)?;
    Ok(Outside { shelf, out, err })
}

/// Lets the named part of the outside fail at a call.
fn fail(outside: &mut Outside, field: &str) -> io::Result<()> {
    let mut words = field.split_whitespace();
    let (Some(part), Some(call)) = (words.next(), words.next()) else {
        return Ok(());
    };
    let call: u64 = call.parse().unwrap_or(0);
    match part {
        "shelf" => outside.shelf.fail_at(call).map_err(wanted),
        "out" => outside.out.fail_at(call).map_err(wanted),
        "err" => outside.err.fail_at(call).map_err(wanted),
        _ => Ok(()),
    }
}

fn print_case(rt: &impl Print, report: &Report, outside: &Outside) -> io::Result<()> {
    let out = str::from_utf8(outside.out.bytes()).unwrap_or("no text");
    let err = str::from_utf8(outside.err.bytes()).unwrap_or("no text");
    println!(rt;
        "{:?} {} {} {out:?} {err:?}",
        report.kind, report.status, report.ticks
    )
}

fn main(rt: HostRuntime) -> io::Result<()> {
    let alloc = rt.alloc();
    for line in rt.lines(alloc) {
        let line = line?;
        let mut fields = line.split('\t');
        let words = words_of(alloc, fields.next().unwrap_or(""))?;
        let mut outside = outside_of(alloc, fields.next().unwrap_or(""))?;
        fail(&mut outside, fields.next().unwrap_or(""))?;
        let report = run_php(
            alloc,
            &words,
            &mut outside.shelf,
            &mut outside.out,
            &mut outside.err,
        );
        print_case(&rt, &report, &outside)?;
    }
    Ok(())
}
