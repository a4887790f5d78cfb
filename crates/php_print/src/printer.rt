// Tokens while they are printed.

ghost use Rattle.std.specs.Prelude.{◌≡◌, [], ◌∷◌, map, nat_lt, OnOk};
ghost use Rattle.php_print.specs.Print.{Prints, printed_view, fixed_view, fixed_views};
ghost use Rattle.php_ast.specs.Symbol as symbol;
ghost use Rattle.php_token.specs.declared.kind.Keyword.TheVariants as word;
ghost use Rattle.php_token.specs.declared.kind.Punct.TheVariants as mark;
ghost use Rattle.php_ast.specs.statement.Spelling.{symbol_if};
ghost use Rattle.php_ast.specs.expression.Spelling.{member_symbol};
ghost use Rattle.php_ast.specs.expression.View.{member_view, word_view};

use crate::fixed::{ARROW, DOUBLE_COLON, Fixed, STATIC};
use crate::printed::Printed;
use php_ast::{Member, Name, Word};
use php_base::NoMemory;
use php_token::{Keyword, Punct};
use php_value::Text;
use std::alloc::Global;
use std::marker::Model;

/// The tokens printed so far. Its value is what they stand for, as symbols of the grammar.
#[derive(Drop)]
pub struct Printer {
    tokens: Vec<Printed>,
}

impl Model for Printer {
    ghost use Rattle.std.specs.Prelude.{List, map};
    ghost use Rattle.php_ast.specs.Symbol.{Symbol};
    ghost use Rattle.php_print.specs.Print.{printed_view};

    ghost Value = { List Symbol };

    ghost view = { λ p. map printed_view p.tokens.items };
}

fn int_token(value: &i64) -> Printed
    ensures { printed_view result ≡ symbol.int value.now }
{
    Printed::Int(*value)
}

impl Printer {
    /// A printer that has no tokens.
    pub fn new(alloc: Global) -> Printer
        ensures { result ≡ [] }
    {
        Printer {
            tokens: Vec::new(alloc),
        }
    }

    /// The tokens printed, in their order.
    pub fn finish(self) -> Vec<Printed>
        ensures { map printed_view result.items ≡ self }
    {
        self.tokens
    }

    pub(crate) fn put(&mut self, token: Printed) -> Result<(), NoMemory>
        ensures { OnOk result (Prints (λ w. printed_view token ∷ w) self.old self.new) }
    {
        self.tokens.push(token)?;
        Ok(())
    }

    /// Puts a keyword. `NoMemory` comes only for want of memory, here and in the other methods; what was put before
    /// stays.
    pub fn put_keyword(&mut self, word: Keyword) -> Result<(), NoMemory>
        ensures { OnOk result (Prints (λ w. symbol.keyword word ∷ w) self.old self.new) }
    {
        self.put(Printed::Keyword(word))
    }

    pub(crate) fn put_punct(&mut self, mark: Punct) -> Result<(), NoMemory>
        ensures { OnOk result (Prints (λ w. symbol.punct mark ∷ w) self.old self.new) }
    {
        self.put(Printed::Punct(mark))
    }

    /// Puts a punctuator where it is present, and nothing else.
    pub fn put_punct_if(&mut self, present: bool, mark: Punct) -> Result<(), NoMemory>
        ensures { OnOk result (Prints (symbol_if present (symbol.punct mark)) self.old self.new) }
    {
        if present {
            self.put_punct(mark)
        } else {
            Ok(())
        }
    }

    /// Puts a fixed token.
    pub fn put_fixed(&mut self, token: Fixed) -> Result<(), NoMemory>
        ensures { OnOk result (Prints (λ w. fixed_view token ∷ w) self.old self.new) }
    {
        self.put(token.printed())
    }

    /// Puts fixed tokens, one after the other.
    pub fn put_all(&mut self, tokens: &[Fixed]) -> Result<(), NoMemory>
        ensures { OnOk result (Prints (fixed_views tokens.now) self.old self.new) }
    {
        for token in tokens {
            self.put(token.printed())?;
        }
        Ok(())
    }

    /// Puts a name that is no keyword.
    pub fn put_name(&mut self, text: &Text) -> Result<(), NoMemory>
        ensures { OnOk result (Prints (λ w. symbol.name text.now ∷ w) self.old self.new) }
    {
        self.put(Printed::Name(text.share()?))
    }

    /// Puts a variable. Its name has no `$`.
    pub fn put_variable(&mut self, text: &Text) -> Result<(), NoMemory>
        ensures { OnOk result (Prints (λ w. symbol.variable text.now ∷ w) self.old self.new) }
    {
        self.put(Printed::Variable(text.share()?))
    }

    /// Puts an integer.
    pub fn put_int(&mut self, value: &i64) -> Result<(), NoMemory>
        ensures { OnOk result (Prints (λ w. symbol.int value.now ∷ w) self.old self.new) }
    {
        self.put(int_token(value))
    }

    pub(crate) fn put_string(&mut self, text: &Text) -> Result<(), NoMemory>
        ensures { OnOk result (Prints (λ w. symbol.string text.now ∷ w) self.old self.new) }
    {
        self.put(Printed::Str(text.share()?))
    }

    pub(crate) fn put_bytes(&mut self, text: &Text) -> Result<(), NoMemory>
        ensures { OnOk result (Prints (λ w. symbol.piece text.now ∷ w) self.old self.new) }
    {
        self.put(Printed::Piece(text.share()?))
    }

    /// Puts bytes outside the tags.
    pub fn put_inline(&mut self, text: &Text) -> Result<(), NoMemory>
        ensures { OnOk result (Prints (λ w. symbol.inline text.now ∷ w) self.old self.new) }
    {
        self.put(Printed::Inline(text.share()?))
    }

    /// Puts a name, or the keyword that it is spelled as.
    pub fn put_word(&mut self, word: &Word) -> Result<(), NoMemory>
        ensures { OnOk result (Prints (λ w. member_symbol (word_view word.now) ∷ w) self.old self.new) }
    {
        match word.keyword {
            None => self.put_name(&word.text),
            Some(keyword) => self.put_keyword(keyword),
        }
    }

    // ---- names of members

    // `-> name`
    pub(crate) fn put_property_word(&mut self, word: &Word) -> Result<(), NoMemory>
        ensures { OnOk result (Prints (λ w. symbol.punct mark.Arrow ∷ member_symbol (word_view word.now)
            ∷ w) self.old self.new) }
    {
        self.put_fixed(ARROW)?;
        self.put_word(word)
    }

    // `-> $name`
    pub(crate) fn put_property_variable(&mut self, name: &Name) -> Result<(), NoMemory>
        ensures { OnOk result (Prints (λ w. symbol.punct mark.Arrow ∷ symbol.variable name.now.text ∷ w)
            self.old self.new) }
    {
        self.put_fixed(ARROW)?;
        self.put_variable(&name.text)
    }

    // `:: name` and `:: $name`
    pub(crate) fn put_member(&mut self, member: &Member) -> Result<(), NoMemory>
        ensures { OnOk result (Prints (λ w. symbol.punct mark.DoubleColon ∷ member_symbol
            (member_view member.now) ∷ w) self.old self.new) }
    {
        self.put_fixed(DOUBLE_COLON)?;
        match member {
            Member::Word(word) => self.put_word(word),
            Member::Variable(name) => self.put_variable(&name.text),
        }
    }

    pub(crate) fn put_static_member(&mut self, member: &Member) -> Result<(), NoMemory>
        ensures { OnOk result (Prints (λ w. symbol.keyword word.Static ∷ symbol.punct mark.DoubleColon
            ∷ member_symbol (member_view member.now) ∷ w) self.old self.new) }
    {
        self.put_fixed(STATIC)?;
        self.put_member(member)
    }
}
