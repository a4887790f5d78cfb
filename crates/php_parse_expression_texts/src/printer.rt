// Prints how an expression is grouped, so that texts tell trees apart that are spelled alike.
//
// A run stands in `{` and `}`, each other operator with its operands in `<` and `>`, and so does the head of a chain that
// might end with a suffix of its own. A name of a member that is spelled as a keyword has a `!` behind it.

use crate::characters::{
    array_opening, assign_characters, binary_characters, count_characters, magic_word,
    prefix_characters,
};
use php_ast::{Argument, Class, ClassStep, Expr, Item, Link, Member, Named, Piece, Suffix, Word};
use php_value::Text;
use std::alloc::{AllocError, Global};

/// An expression, with `..` in place of what stands inside `depth` others.
pub(crate) fn print(alloc: Global, e: &Expr, depth: usize) -> Result<String, AllocError> {
    let mut printer = Printer {
        alloc,
        out: String::new(alloc),
    };
    printer.expr(e, depth)?;
    Ok(printer.out)
}

/// The same of a tree that nobody needs any more. It is let go of in one place, since letting go of a tree takes the
/// check long.
pub(crate) fn print_last(alloc: Global, e: Expr, depth: usize) -> Result<String, AllocError> {
    print(alloc, &e, depth)
}

#[derive(Drop)]
struct Printer {
    alloc: Global,
    out: String,
}

// Whether a suffix behind an expression might be taken for its own.
fn ends_open(e: &Expr) -> bool {
    matches!(
        e,
        Expr::Chain(..) | Expr::New(..) | Expr::NewWith(..) | Expr::Exit(_)
    )
}

impl Printer {
    fn put(&mut self, text: &str) -> Result<(), AllocError> {
        self.out.push_str(text)
    }

    fn text(&mut self, before: &str, text: &Text, behind: &str) -> Result<(), AllocError> {
        self.put(before)?;
        for byte in text.bytes() {
            self.out.push(*byte as char)?;
        }
        self.put(behind)
    }

    fn comma_if(&mut self, is_later: bool) -> Result<(), AllocError> {
        if is_later { self.put(", ") } else { Ok(()) }
    }

    fn int(&mut self, value: i64) -> Result<(), AllocError> {
        let digits = format!(in self.alloc; "{value}")?;
        self.put(digits.as_str())
    }

    fn word(&mut self, before: &str, word: &Word) -> Result<(), AllocError> {
        match word.keyword {
            Some(_) => self.text(before, &word.text, "!"),
            None => self.text(before, &word.text, ""),
        }
    }

    fn member(&mut self, member: &Member) -> Result<(), AllocError> {
        match member {
            Member::Word(word) => self.word("::", word),
            Member::Variable(name) => self.text("::$", &name.text, ""),
        }
    }

    fn static_member(&mut self, member: &Member) -> Result<(), AllocError> {
        self.put("static")?;
        self.member(member)
    }

    #[cycle(printing)]
    fn expr(&mut self, e: &Expr, depth: usize) -> Result<(), AllocError> {
        if depth == 0 {
            return self.put("..");
        }
        self.node(e, depth - 1)
    }

    // An expression, of which the parts may have `depth` levels.
    #[cycle(printing)]
    fn node(&mut self, e: &Expr, depth: usize) -> Result<(), AllocError> {
        match e {
            Expr::Variable(name) => self.text("$", &name.text, ""),
            Expr::Int(_, value) => self.int(*value),
            Expr::Str(_, text) => self.text("'", text, "'"),
            Expr::Name(name) => self.text("", &name.text, ""),
            Expr::StaticMember(_, member) => self.static_member(member.get()),
            Expr::Template(_, pieces) => self.template(pieces.as_slice(), depth),
            Expr::Group(_, inside) => self.around("(", inside.get(), ")", depth),
            Expr::Array(_, form, items) => {
                self.items(array_opening(*form), items.as_slice(), depth)
            }
            Expr::IsSet(_, values) => self.is_set(values.as_slice(), depth),
            Expr::Empty(_, inside) => self.around("empty(", inside.get(), ")", depth),
            Expr::Exit(_) => self.put("exit"),
            Expr::ExitEmpty(_) => self.put("exit()"),
            Expr::ExitWith(_, inside) => self.around("exit(", inside.get(), ")", depth),
            Expr::Magic(_, constant) => self.put(magic_word(*constant)),
            Expr::Chain(head, suffixes) => self.chain(head.get(), suffixes.as_slice(), depth),
            Expr::New(_, class) => self.class(class.get(), depth),
            Expr::NewWith(_, class, arguments) => {
                self.class_with(class.get(), arguments.as_slice(), depth)
            }
            Expr::Prefix(_, op, operand) => self.prefix(
                prefix_characters(*op),
                operand.get(),
                depth,
            ),
            Expr::Count(operand, count) => self.behind(
                operand.get(),
                count_characters(*count),
                depth,
            ),
            Expr::Run(first, links) => self.run(first.get(), links.as_slice(), depth),
            Expr::Binary(op, left, right) => {
                self.pair(left.get(), binary_characters(*op), right.get(), depth)
            }
            Expr::InstanceOf(left, class) => {
                self.pair(left.get(), "instanceof", class.get(), depth)
            }
            Expr::InstanceOfStatic(left, _) => {
                self.behind(left.get(), "instanceof static", depth)
            }
            Expr::Assign(op, target, value) => {
                self.pair(target.get(), assign_characters(*op), value.get(), depth)
            }
            Expr::AssignReference(target, source) => {
                self.pair(target.get(), "=&", source.get(), depth)
            }
            Expr::YieldNothing(_) => self.put("<yield>"),
            Expr::Yield(_, value) => self.prefix("yield", value.get(), depth),
            Expr::YieldPair(_, key, value) => self.yield_pair(key.get(), value.get(), depth),
        }
    }

    #[cycle(printing)]
    fn around(
        &mut self,
        open: &str,
        inside: &Expr,
        close: &str,
        depth: usize,
    ) -> Result<(), AllocError> {
        self.put(open)?;
        self.expr(inside, depth)?;
        self.put(close)
    }

    // ---- operators

    #[cycle(printing)]
    fn prefix(&mut self, characters: &str, operand: &Expr, depth: usize) -> Result<(), AllocError> {
        self.put("<")?;
        self.put(characters)?;
        self.around(" ", operand, ">", depth)
    }

    #[cycle(printing)]
    fn behind(&mut self, operand: &Expr, characters: &str, depth: usize) -> Result<(), AllocError> {
        self.around("<", operand, " ", depth)?;
        self.put(characters)?;
        self.put(">")
    }

    #[cycle(printing)]
    fn pair(
        &mut self,
        left: &Expr,
        characters: &str,
        right: &Expr,
        depth: usize,
    ) -> Result<(), AllocError> {
        self.around("<", left, " ", depth)?;
        self.put(characters)?;
        self.around(" ", right, ">", depth)
    }

    #[cycle(printing)]
    fn yield_pair(&mut self, key: &Expr, value: &Expr, depth: usize) -> Result<(), AllocError> {
        self.around("<yield ", key, " => ", depth)?;
        self.around("", value, ">", depth)
    }

    #[cycle(printing)]
    fn run(&mut self, first: &Expr, links: &[Link<Expr>], depth: usize) -> Result<(), AllocError> {
        self.around("{", first, "", depth)?;
        for link in links {
            self.link(link, depth)?;
        }
        self.put("}")
    }

    #[cycle(printing)]
    fn link(&mut self, link: &Link<Expr>, depth: usize) -> Result<(), AllocError> {
        match link {
            Link::Operator(op, right) => {
                self.put(" ")?;
                self.put(binary_characters(*op))?;
                self.around(" ", right, "", depth)
            }
            Link::Choice(middle, right) => {
                self.around(" ? ", middle, " : ", depth)?;
                self.expr(right, depth)
            }
            Link::ShortChoice(right) => self.around(" ?: ", right, "", depth),
        }
    }

    // ---- lists

    #[cycle(printing)]
    fn template(&mut self, pieces: &[Piece<Expr>], depth: usize) -> Result<(), AllocError> {
        self.put("\"")?;
        for piece in pieces {
            self.piece(piece, depth)?;
        }
        self.put("\"")
    }

    #[cycle(printing)]
    fn piece(&mut self, piece: &Piece<Expr>, depth: usize) -> Result<(), AllocError> {
        match piece {
            Piece::Bytes(text) => self.text("", text, ""),
            Piece::Part(part) => self.around("{", part, "}", depth),
        }
    }

    #[cycle(printing)]
    fn items(&mut self, open: &str, items: &[Item<Expr>], depth: usize) -> Result<(), AllocError> {
        self.put(open)?;
        let mut is_later = false;
        for item in items {
            self.comma_if(is_later)?;
            self.item(item, depth)?;
            is_later = true;
        }
        self.put("]")
    }

    #[cycle(printing)]
    fn item(&mut self, item: &Item<Expr>, depth: usize) -> Result<(), AllocError> {
        match item {
            Item::Missing => self.put("_"),
            Item::Value(value) => self.expr(value, depth),
            Item::Reference(place) => self.around("&", place, "", depth),
            Item::Keyed(key, value) => {
                self.around("", key, " => ", depth)?;
                self.expr(value, depth)
            }
            Item::KeyedReference(key, place) => {
                self.around("", key, " => &", depth)?;
                self.expr(place, depth)
            }
        }
    }

    #[cycle(printing)]
    fn is_set(&mut self, values: &[Expr], depth: usize) -> Result<(), AllocError> {
        self.put("isset(")?;
        let mut is_later = false;
        for value in values {
            self.comma_if(is_later)?;
            self.expr(value, depth)?;
            is_later = true;
        }
        self.put(")")
    }

    #[cycle(printing)]
    fn arguments(&mut self, arguments: &[Argument<Expr>], depth: usize) -> Result<(), AllocError> {
        self.put("(")?;
        let mut is_later = false;
        for argument in arguments {
            self.comma_if(is_later)?;
            self.argument(argument, depth)?;
            is_later = true;
        }
        self.put(")")
    }

    #[cycle(printing)]
    fn argument(&mut self, argument: &Argument<Expr>, depth: usize) -> Result<(), AllocError> {
        match argument {
            Argument::Value(value) => self.expr(value, depth),
            Argument::Spread(values) => self.around("...", values, "", depth),
        }
    }

    // ---- suffixes

    #[cycle(printing)]
    fn chain(
        &mut self,
        head: &Expr,
        suffixes: &[Suffix<Expr>],
        depth: usize,
    ) -> Result<(), AllocError> {
        self.head(head, depth)?;
        for suffix in suffixes {
            self.suffix(suffix, depth)?;
        }
        Ok(())
    }

    #[cycle(printing)]
    fn head(&mut self, head: &Expr, depth: usize) -> Result<(), AllocError> {
        if ends_open(head) {
            return self.around("<", head, ">", depth);
        }
        self.expr(head, depth)
    }

    #[cycle(printing)]
    fn suffix(&mut self, suffix: &Suffix<Expr>, depth: usize) -> Result<(), AllocError> {
        match suffix {
            Suffix::Append => self.put("[]"),
            Suffix::Index(key) => self.around("[", key, "]", depth),
            Suffix::Property(Named::Word(word)) => self.word("->", word),
            Suffix::Property(Named::Variable(name)) => self.text("->$", &name.text, ""),
            Suffix::Property(Named::Computed(name)) => self.around("->{", name, "}", depth),
            Suffix::Member(member) => self.member(member),
            Suffix::Call(arguments) => self.arguments(arguments.as_slice(), depth),
        }
    }

    // ---- new

    #[cycle(printing)]
    fn class(&mut self, class: &Class<Expr>, depth: usize) -> Result<(), AllocError> {
        match class {
            Class::Name(name) => self.text("new ", &name.text, ""),
            Class::Static(_) => self.put("new static"),
            Class::Variable(name, steps) => {
                self.text("new $", &name.text, "")?;
                self.steps(steps.as_slice(), depth)
            }
        }
    }

    #[cycle(printing)]
    fn class_with(
        &mut self,
        class: &Class<Expr>,
        arguments: &[Argument<Expr>],
        depth: usize,
    ) -> Result<(), AllocError> {
        self.class(class, depth)?;
        self.arguments(arguments, depth)
    }

    #[cycle(printing)]
    fn steps(&mut self, steps: &[ClassStep<Expr>], depth: usize) -> Result<(), AllocError> {
        for step in steps {
            match step {
                ClassStep::Property(word) => self.word("->", word)?,
                ClassStep::Index(key) => self.around("[", key, "]", depth)?,
            }
        }
        Ok(())
    }
}
