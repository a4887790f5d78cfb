// Labels of a `switch`.

ghost use Rattle.std.specs.Prelude.{◌≤◌};
ghost use Rattle.php_grammar.specs.statement.Role.{behind};
ghost use Rattle.php_reader.specs.Seen.{Shows};
ghost use Rattle.php_parse_simple.specs.LabelAnswer.{AnswersLabel, SeesCaseEnd, SeesForm, label_behind};

use crate::expression::expression;
use crate::look::{ends, sees};
use crate::read::{Label, unclosed};
use crate::role::Fixed;
use php_ast::{CaseEnd, SwitchForm};
use php_grammar::Closer;
use php_lex::Tokens;
use php_reader::{Reader, Stop};

/// How the cases are enclosed that begin at a place, if some do.
pub fn cases_form(tokens: &Tokens, at: usize) -> Option<SwitchForm>
    ensures { SeesForm tokens.now at result }
{
    if sees(tokens, at, Fixed::LeftBrace) {
        return Some(SwitchForm::Braces);
    }
    if sees(tokens, at, Fixed::Colon) {
        return Some(SwitchForm::Colon);
    }
    None
}

/// The token that ends a label, if one stands at a place.
fn case_end(tokens: &Tokens, at: usize) -> Option<CaseEnd>
    ensures { SeesCaseEnd tokens.now at result }
{
    if ends(tokens, at, Closer::Colon) {
        return Some(CaseEnd::Colon);
    }
    if ends(tokens, at, Closer::Semicolon) {
        return Some(CaseEnd::Semicolon);
    }
    None
}

/// A label, from its word on, with the token that ends it. The reader has the levels that are left where the `switch` stands.
pub fn label(reader: &Reader, at: usize, is_default: bool) -> Result<Label, Stop>
    requires some { 1 ≤ reader.now.room }
    requires here { Shows behind reader.now.tokens.now at (label_behind is_default) }
    ensures { AnswersLabel reader.entry.now at result }
{
    if reader.room == 1 {
        return Err(Stop::TooDeep(at));
    }
    let place = at + 1;
    if is_default {
        let Some(end) = case_end(reader.tokens, place) else {
            return Err(Stop::Syntax(place));
        };
        return Ok(Label {
            value: None,
            end,
            next: place + 1,
        });
    }
    let inside = Reader {
        room: reader.room - 1,
        alloc: reader.alloc,
        tokens: reader.tokens,
    };
    let read = expression(&inside, place)?;
    let Some(end) = case_end(reader.tokens, read.next) else {
        return Err(unclosed(read));
    };
    Ok(Label {
        next: read.next + 1,
        value: Some(read.expr),
        end,
    })
}
