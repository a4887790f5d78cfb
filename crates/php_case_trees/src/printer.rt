// Prints trees. What is printed and let go of here stands nowhere else, since letting go of a tree takes the check long.
//
// The tokens of an expression stand between backquotes. A statement that is a body stands in `[` and `]`, a list of statements in
// `{` and `}`. `nothing` is the empty statement. The words `array` and `callable` stand in `<` and `>` where they are types of
// their own and no names, and a name of a member that is spelled as a keyword has a `!` behind it.

mod declarations;
mod statements;

use php_ast::{Expr, Name, Script, ScriptItem, Signature, Stmt};
use php_base::NoMemory;
use php_print::{lay_out, print_expr};
use php_value::Text;
use std::alloc::{AllocError, Global};

/// How many statements may stand in one another: more than the parser allows.
const DEEPEST: usize = 400;

/// A mark some times over.
pub fn repeated(alloc: Global, mark: char, times: usize) -> Result<String, AllocError> {
    let mut marks = String::new(alloc);
    for _ in 0..times {
        marks.push(mark)?;
    }
    Ok(marks)
}

/// A script that nobody needs any more, without so many blocks around it.
pub fn print_script(alloc: Global, script: Script, blocks: usize) -> Result<String, AllocError> {
    let mut printer = Printer::new(alloc);
    printer.script(&script)?;
    unwrapped(alloc, printer.out.as_str(), blocks)
}

/// An expression that nobody needs any more.
pub(crate) fn print_expression(alloc: Global, e: Expr) -> Result<String, AllocError> {
    let mut printer = Printer::new(alloc);
    printer.value(&e)?;
    Ok(printer.out)
}

/// A statement that nobody needs any more.
pub(crate) fn print_statement(alloc: Global, statement: Stmt) -> Result<String, AllocError> {
    let mut printer = Printer::new(alloc);
    printer.statement(&statement, DEEPEST)?;
    Ok(printer.out)
}

/// A signature that nobody needs any more.
pub(crate) fn print_signature(alloc: Global, signature: Signature) -> Result<String, AllocError> {
    let mut printer = Printer::new(alloc);
    printer.signature(&signature)?;
    Ok(printer.out)
}

// Without a `{` in front and a `}` behind for each block.
fn unwrapped(alloc: Global, printed: &str, blocks: usize) -> Result<String, AllocError> {
    let opening = repeated(alloc, '{', blocks)?;
    let closing = repeated(alloc, '}', blocks)?;
    let Some(behind) = printed.strip_prefix(opening.as_str()) else {
        return format!(in alloc; "too few blocks: {printed}");
    };
    match behind.strip_suffix(closing.as_str()) {
        Some(inside) => format!(in alloc; "{inside}"),
        None => format!(in alloc; "too few blocks: {printed}"),
    }
}

fn laid_out(alloc: Global, e: &Expr) -> Result<Vec<u8>, NoMemory> {
    let tokens = print_expr(alloc, e)?;
    lay_out(alloc, tokens.as_slice())
}

#[derive(Drop)]
pub(crate) struct Printer {
    alloc: Global,
    out: String,
}

impl Printer {
    fn new(alloc: Global) -> Printer {
        Printer {
            alloc,
            out: String::new(alloc),
        }
    }

    pub(crate) fn put(&mut self, text: &str) -> Result<(), AllocError> {
        self.out.push_str(text)
    }

    pub(crate) fn put_if(&mut self, stands: bool, text: &str) -> Result<(), AllocError> {
        if stands { self.put(text) } else { Ok(()) }
    }

    fn bytes(&mut self, bytes: &[u8]) -> Result<(), AllocError> {
        for byte in bytes {
            if *byte == b'\n' {
                self.put("\\n")?;
            } else {
                self.out.push(*byte as char)?;
            }
        }
        Ok(())
    }

    pub(crate) fn text(&mut self, text: &Text) -> Result<(), AllocError> {
        self.bytes(text.bytes())
    }

    pub(crate) fn int(&mut self, value: i64) -> Result<(), AllocError> {
        let digits = format!(in self.alloc; "{value}")?;
        self.put(digits.as_str())
    }

    /// Names between commas, each with a mark in front.
    pub(crate) fn names(&mut self, mark: &str, names: &[Name]) -> Result<(), AllocError> {
        let mut is_later = false;
        for name in names {
            self.put_if(is_later, ", ")?;
            self.put(mark)?;
            self.text(&name.text)?;
            is_later = true;
        }
        Ok(())
    }

    pub(crate) fn value(&mut self, e: &Expr) -> Result<(), AllocError> {
        self.put("`")?;
        match laid_out(self.alloc, e) {
            Ok(text) => self.bytes(text.as_slice())?,
            Err(NoMemory) => self.put("no memory")?,
        }
        self.put("`")
    }

    pub(crate) fn values(&mut self, values: &[Expr]) -> Result<(), AllocError> {
        let mut is_later = false;
        for value in values {
            self.put_if(is_later, ", ")?;
            self.value(value)?;
            is_later = true;
        }
        Ok(())
    }

    /// A value behind these characters, or nothing.
    pub(crate) fn value_if(
        &mut self,
        before: &str,
        value: &Option<Expr>,
    ) -> Result<(), AllocError> {
        match value {
            Some(e) => {
                self.put(before)?;
                self.value(e)
            }
            None => Ok(()),
        }
    }

    fn item(&mut self, item: &ScriptItem) -> Result<(), AllocError> {
        match item {
            ScriptItem::Statement(s) => self.statement(s, DEEPEST),
            ScriptItem::Function(f) => self.function(f),
            ScriptItem::Class(c) => self.class(c),
            ScriptItem::Interface(i) => self.interface(i),
            ScriptItem::Trait(t) => self.trait_declaration(t),
        }
    }

    fn script(&mut self, script: &Script) -> Result<(), AllocError> {
        let mut is_later = false;
        for item in script.items.as_slice() {
            self.put_if(is_later, "; ")?;
            self.item(item)?;
            is_later = true;
        }
        Ok(())
    }
}
