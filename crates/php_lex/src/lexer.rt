// The loop that cuts a script's bytes piece by piece.

ghost use Rattle.std.specs.Prelude.{◌≡◌, ◌⊎◌, ◌<◌, ◌≤◌, List, length, OnOk, IfOk, IfErr};
ghost use Rattle.php_lex_pieces.specs.Bytes.{Text};
ghost use Rattle.php_lex.specs.Cut.{Cuts, Stops};
ghost use Rattle.php_lex.specs.Entry.{AllWithin};
ghost use Rattle.php_lex.specs.Modes.{changed};
ghost use Rattle.php_lex.specs.PieceKept.{change_kept};
ghost use Rattle.php_lex.specs.Reading as spec;
ghost use Rattle.php_lex.specs.Stepping.{Steps, Took};

use crate::fail::LexFail;
use crate::front::{Front, look};
use crate::lines::{first_line, line_behind};
use crate::modes::{Mode, Modes, is_in_script};
use crate::pieces::{Change, Found, next_piece};
use crate::script_pieces::kind_piece;
use crate::tokens::{Builder, Tokens, put, put_simple};
use php_base::NoMemory;
use std::alloc::Global;

fn make_change<'a>(modes: &mut Modes<'a>, change: Change<'a>) -> Result<(), NoMemory>
    ensures { OnOk result (modes.new ≡ changed (change_kept change.entry) modes.old) }
{
    match change {
        Change::Stay => Ok(()),
        Change::Enter(mode) => modes.enter(mode),
        Change::Leave => {
            modes.leave();
            Ok(())
        }
        Change::Turn(mode) => {
            modes.leave();
            modes.enter(mode)
        }
    }
}

// Adds the tokens of what was found and makes its change, and answers its length.
fn take<'a>(
    found: Found<'a>,
    modes: &mut Modes<'a>,
    line: u32,
    out: &mut Builder<'a>,
) -> Result<usize, LexFail>
    requires { AllWithin (length out.old.decoded.items) out.old.entries.items }
    ensures { Took found.entry line modes.old modes.new out.old out.new result }
{
    let piece = match found {
        Ok(piece) => piece,
        Err(fault) => return Err(fault),
    };
    let Ok(()) = put(piece, line, out) else {
        return Err(LexFail::NoMemory);
    };
    let Ok(()) = make_change(modes, piece.change) else {
        return Err(LexFail::NoMemory);
    };
    Ok(piece.len)
}

// Cuts the piece at the front, and answers its length.
fn step<'a>(
    modes: &mut Modes<'a>,
    line: u32,
    text: &'a [u8],
    out: &mut Builder<'a>,
) -> Result<usize, LexFail>
    requires some { 0 < length text.now }
    requires kept { AllWithin (length out.old.decoded.items) out.old.entries.items }
    ensures { Steps line text.now modes.old modes.new out.old out.new result }
{
    let mode = modes.mode();
    if !is_in_script(mode) {
        return take(next_piece(mode, line, text), modes, line, out);
    }
    match look(mode, text) {
        Front::Nothing(len) => Ok(len),
        Front::Simple(simple) => {
            let Ok(()) = put_simple(simple, line, out) else {
                return Err(LexFail::NoMemory);
            };
            Ok(simple.len)
        }
        Front::General(kind) => take(kind_piece(kind, mode, line, text), modes, line, out),
    }
}

/// Cuts a script into tokens, or answers the first fault in it.
pub fn lex(alloc: Global, src: &[u8]) -> Result<Tokens, LexFail>
    requires { length src.now ≤ 1048576 }
    ensures tokens { spec.Lexes result (spec.tokens src.now) }
    ensures cut { IfOk result (λ found. (pieces : List Text) × Cuts src.now pieces found) }
    ensures fault { IfErr result (λ fault. (fault ≡ LexFail.NoMemory) ⊎ Stops src.now fault) }
{
    let mut out = Builder::new(alloc);
    let mut modes = Modes::new(alloc);
    let Ok(()) = modes.enter(Mode::Outside) else {
        return Err(LexFail::NoMemory);
    };
    let mut line = first_line(src);
    let mut at = 0;
    while at < src.len() {
        let len = match step(&mut modes, line.number, &src[at..], &mut out) {
            Ok(len) => len,
            Err(fault) => return Err(fault),
        };
        line = line_behind(line, src, at, at + len);
        at += len;
    }
    match modes.unclosed() {
        Some(begun) => Err(LexFail::Unclosed(begun)),
        None => Ok(out.finish()),
    }
}
