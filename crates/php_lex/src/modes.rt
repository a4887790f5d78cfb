// What is open at a place of a script.

ghost use Rattle.std.specs.Prelude.{◌≡◌, ◌∷◌, [], OnOk, MatchOption};
ghost use Rattle.php_lex.specs.Modes as spec;
ghost use Rattle.php_lex.specs.Kept.{mode_kept};

use php_base::NoMemory;
use std::alloc::Global;
use std::marker::Model;

/// What the next piece may be. A construct that ends has the line on which it begins.
#[derive(Clone, Copy)]
pub(crate) enum Mode<'a> {
    /// Outside the tags.
    Outside,
    Script,
    Quotes(u32),
    /// A heredoc with its label.
    Heredoc(&'a [u8], u32),
    /// A part that `{` opened.
    Braces(u32),
    /// Further braces in such a part.
    Block,
    /// `${`, before its name.
    NameDue(u32),
    /// `${` and a name.
    NameRead(u32),
    /// The brackets behind that name.
    Brackets(u32),
    /// Further brackets there.
    Index,
    /// Behind these brackets.
    BraceDue(u32),
    /// A variable whose part goes on.
    Subject(u32),
    /// Behind `->`.
    MemberDue(u32),
    /// Behind `[`.
    KeyDue(u32),
    /// Behind a key.
    KeyRead(u32),
}

/// Whether a piece of a script is due.
pub(crate) fn is_in_script(mode: Mode) -> bool
    ensures { result ≡ spec.is_in_script (mode_kept mode.entry) }
{
    matches!(
        mode,
        Mode::Script | Mode::Braces(_) | Mode::Block | Mode::Brackets(_) | Mode::Index
    )
}

fn line_of(mode: Mode) -> Option<u32>
    ensures { result ≡ spec.line_of (mode_kept mode.entry) }
{
    match mode {
        Mode::Outside | Mode::Script | Mode::Block | Mode::Index => None,
        Mode::Heredoc(_, line) => Some(line),
        Mode::Quotes(line) | Mode::Braces(line) | Mode::NameDue(line) | Mode::NameRead(line) => {
            Some(line)
        }
        Mode::Brackets(line) | Mode::BraceDue(line) | Mode::Subject(line) => Some(line),
        Mode::MemberDue(line) | Mode::KeyDue(line) | Mode::KeyRead(line) => Some(line),
    }
}

/// The modes that are open, the innermost first.
#[derive(Drop)]
pub(crate) struct Modes<'a> {
    open: Vec<Mode<'a>>,
}

impl<'a> Model for Modes<'a> {
    ghost use Rattle.std.specs.Prelude.{List, map, reverse};
    ghost use Rattle.php_lex.specs.Modes.{Mode};

    ghost Value = { List Mode };

    ghost use Rattle.php_lex.specs.Kept.{mode_kept};

    ghost view = { λ m. reverse (map mode_kept m.open.items) };
}

impl<'a> Modes<'a> {
    pub(crate) fn new(alloc: Global) -> Modes<'a>
        ensures { result ≡ [] }
    {
        Modes {
            open: Vec::new(alloc),
        }
    }

    pub(crate) fn mode(&self) -> Mode<'a>
        ensures { mode_kept result ≡ spec.mode_of self.now }
    {
        match self.open.last() {
            Some(mode) => *mode,
            None => Mode::Script,
        }
    }

    pub(crate) fn enter(&mut self, mode: Mode<'a>) -> Result<(), NoMemory>
        ensures { OnOk result (self.new ≡ mode_kept mode.entry ∷ self.old) }
    {
        self.open.push(mode)?;
        Ok(())
    }

    fn pop(&mut self) -> Option<Mode<'a>>
        ensures { MatchOption result ((self.old ≡ []) × (self.new ≡ []))
            (λ mode. self.old ≡ mode_kept mode ∷ self.new) }
    {
        self.open.pop()
    }

    pub(crate) fn leave(&mut self)
        ensures { self.new ≡ spec.outer_of self.old }
    {
        let _ = self.pop();
    }

    /// The line on which the innermost construct that hasn't ended begins.
    pub(crate) fn unclosed(&mut self) -> Option<u32>
        ensures { result ≡ spec.unclosed self.old }
    {
        while let Some(mode) = self.pop() {
            let line = line_of(mode);
            if line.is_some() {
                return line;
            }
        }
        None
    }
}
