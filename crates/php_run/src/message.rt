ghost use Rattle.std.specs.Prelude.{◌≡◌, ◌++◌, List, OnOk, OnErr, decimal};
ghost use Rattle.php_base.specs.Counts.{Rose};
ghost use Rattle.php_base.specs.Written.{GrewBy, GrewByPart};
ghost use Rattle.php_run.specs.Message.{bytes_of};

use itoa::Buffer;
use php_base::{Failed, Sink, put_all};

/// What stands between the fixed parts of a message.
#[derive(Clone, Copy, Debug)]
pub(crate) enum Middle<'a> {
    Nothing,
    Name(&'a str),
    Line(u32),
}

/// What is written to the error stream: two fixed parts, and what stands between them.
#[derive(Clone, Copy, Debug)]
pub(crate) struct Message<'a> {
    pub before: &'static str,
    pub middle: Middle<'a>,
    pub after: &'static str,
}

fn put_between<E: Sink>(
    err: &mut E,
    before: &[u8],
    middle: &[u8],
    after: &[u8],
) -> Result<(), Failed>
    ensures ok { OnOk result (GrewBy (E.written err.old) (E.written err.new) (before.now ++ middle.now ++ after.now)) }
    ensures no_fault { OnOk result (E.faults err.new ≡ E.faults err.old) }
    ensures part { OnErr result (GrewByPart (E.written err.old) (E.written err.new) (before.now ++ middle.now ++ after.now)) }
    ensures fault { OnErr result (Rose (E.faults err.old) (E.faults err.new)) }
{
    match put_all(err, before) {
        Ok(()) => {}
        Err(failed) => return Err(failed),
    }
    match put_all(err, middle) {
        Ok(()) => {}
        Err(failed) => return Err(failed),
    }
    match put_all(err, after) {
        Ok(()) => Ok(()),
        Err(failed) => Err(failed),
    }
}

/// Writes a number in decimal digits, between two texts. It takes no memory.
pub(crate) fn put_number<E: Sink>(
    sink: &mut E,
    before: &str,
    number: usize,
    after: &str,
) -> Result<(), Failed>
    ensures ok { OnOk result (GrewBy (E.written sink.old) (E.written sink.new) (before.now ++ decimal number ++ after.now)) }
    ensures no_fault { OnOk result (E.faults sink.new ≡ E.faults sink.old) }
    ensures part { OnErr result (GrewByPart (E.written sink.old) (E.written sink.new) (before.now ++ decimal number ++ after.now)) }
    ensures fault { OnErr result (Rose (E.faults sink.old) (E.faults sink.new)) }
{
    let mut buffer = Buffer::new();
    put_between(
        sink,
        before.as_bytes(),
        buffer.format(number).as_bytes(),
        after.as_bytes(),
    )
}

/// Writes the message. It takes no memory.
pub(crate) fn put_message<E: Sink>(err: &mut E, message: &Message) -> Result<(), Failed>
    ensures ok { OnOk result (GrewBy (E.written err.old) (E.written err.new) (bytes_of message.now)) }
    ensures no_fault { OnOk result (E.faults err.new ≡ E.faults err.old) }
    ensures part { OnErr result (GrewByPart (E.written err.old) (E.written err.new) (bytes_of message.now)) }
    ensures fault { OnErr result (Rose (E.faults err.old) (E.faults err.new)) }
{
    let before = message.before.as_bytes();
    let after = message.after.as_bytes();
    match message.middle {
        Middle::Nothing => put_between(err, before, b"", after),
        Middle::Name(name) => put_between(err, before, name.as_bytes(), after),
        Middle::Line(line) => {
            let mut buffer = Buffer::new();
            put_between(err, before, buffer.format(line).as_bytes(), after)
        }
    }
}
