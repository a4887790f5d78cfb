// Calls the shelves and the sinks, those in memory and those of the host, and prints what each call gives.
#![tactic(auto)]

use php_base::{
    Failed, MemShelf, MemSink, NoMemory, Shelf, ShelfFail, Sink, StdShelf, StdSink, put_all,
};
use std::alloc::Global;
use std::process::ExitCode;

/// Why a case could not be told.
#[derive(Drop)]
enum Stop {
    Output,
    Memory,
}

impl From<Failed> for Stop {
    fn from(_: Failed) -> Stop {
        Stop::Output
    }
}

impl From<NoMemory> for Stop {
    fn from(_: NoMemory) -> Stop {
        Stop::Memory
    }
}

fn tell<K: Sink>(out: &mut K, label: &str, found: &[u8]) -> Result<(), Failed> {
    put_all(out, label.as_bytes())?;
    put_all(out, b": ")?;
    put_all(out, found)?;
    put_all(out, b"\n")
}

/// What a shelf gives under a name.
fn tell_file<S: Shelf, K: Sink>(
    alloc: Global,
    shelf: &mut S,
    name: &str,
    limit: usize,
    out: &mut K,
) -> Result<(), Failed> {
    match shelf.fetch(alloc, name, limit) {
        Ok(bytes) => tell(out, name, bytes.as_slice()),
        Err(ShelfFail::Missing) => tell(out, name, b"(missing)"),
        Err(ShelfFail::Failed) => tell(out, name, b"(failed)"),
        Err(ShelfFail::NoMemory) => tell(out, name, b"(no memory)"),
    }
}

/// How many bytes a sink takes of a piece.
fn tell_write<S: Sink, K: Sink>(sink: &mut S, piece: &str, out: &mut K) -> Result<(), Failed> {
    let found: &[u8] = match sink.write(piece.as_bytes()) {
        Ok(0) => b"takes nothing",
        Ok(3) => b"takes three",
        Ok(_) => b"takes another number",
        Err(Failed) => b"fails",
    };
    tell(out, piece, found)
}

/// Whether a sink takes all of a text.
fn tell_all<S: Sink, K: Sink>(sink: &mut S, text: &str, out: &mut K) -> Result<(), Failed> {
    let found: &[u8] = match put_all(sink, text.as_bytes()) {
        Ok(()) => b"takes all",
        Err(Failed) => b"fails",
    };
    tell(out, text, found)
}

/// Files up to the limit, the newest bytes of a name, and a call that fails.
fn memory_shelf<K: Sink>(alloc: Global, out: &mut K) -> Result<(), Stop> {
    let mut shelf = MemShelf::new(alloc);
    shelf.put("other.php", b"first")?;
    shelf.put("a.php", b"old")?;
    shelf.put("a.php", b"<?php")?;
    shelf.fail_at(4)?;
    tell_file(alloc, &mut shelf, "a.php", 4, out)?;
    tell_file(alloc, &mut shelf, "a.php", 5, out)?;
    tell_file(alloc, &mut shelf, "b.php", 5, out)?;
    tell_file(alloc, &mut shelf, "a.php", 5, out)?;
    tell_file(alloc, &mut shelf, "other.php", 9, out)?;
    Ok(())
}

/// Steps, a call that fails, and the end of the room.
fn memory_sink<K: Sink>(alloc: Global, out: &mut K) -> Result<(), Stop> {
    let mut sink = MemSink::new(alloc, 3, 7)?;
    sink.fail_at(2)?;
    tell_write(&mut sink, "", out)?;
    tell_write(&mut sink, "abcde", out)?;
    tell_write(&mut sink, "de", out)?;
    tell_all(&mut sink, "defg", out)?;
    tell(out, "written", sink.bytes())?;
    tell_all(&mut sink, "h", out)?;
    Ok(())
}

/// A writer that takes all, and one with room for two bytes.
fn host_sink<K: Sink>(alloc: Global, out: &mut K) -> Result<(), Stop> {
    let mut written = Vec::new(alloc);
    tell_all(&mut StdSink::new(&mut written), "echo", out)?;
    tell(out, "written", written.as_slice())?;
    let mut room = [0u8; 2];
    tell_all(&mut StdSink::new(room.as_mut_slice()), "echo", out)?;
    tell(out, "written", room.as_slice())?;
    Ok(())
}

/// A file up to the limit, a missing name, a folder and no name.
fn host_shelf<S: Shelf, K: Sink>(alloc: Global, shelf: &mut S, out: &mut K) -> Result<(), Failed> {
    tell_file(alloc, shelf, "greeting.txt", 3, out)?;
    tell_file(alloc, shelf, "greeting.txt", 9, out)?;
    tell_file(alloc, shelf, "missing.txt", 0, out)?;
    tell_file(alloc, shelf, ".", 0, out)?;
    tell_file(alloc, shelf, "", 0, out)
}

fn main(rt: HostRuntime) -> ExitCode {
    let alloc = rt.alloc();
    let mut out = StdSink::new(rt.stdout());
    let mut shelf = StdShelf::new(&rt);
    if memory_shelf(alloc, &mut out).is_err()
        || memory_sink(alloc, &mut out).is_err()
        || host_sink(alloc, &mut out).is_err()
        || host_shelf(alloc, &mut shelf, &mut out).is_err()
    {
        return ExitCode::from(1);
    }
    ExitCode::from(0)
}
