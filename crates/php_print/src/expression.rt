// Prints expressions. A call of the walk goes on with parts of its tree, so it takes no more stack
// than the tree is nested.

ghost use Rattle.std.specs.Prelude.{◌∷◌, map, OnOk};
ghost use Rattle.php_token.specs.declared.kind.Keyword.TheVariants as word;
ghost use Rattle.php_token.specs.declared.kind.Punct.TheVariants as mark;
ghost use Rattle.php_print.specs.Print.{Prints, fixed_views};
ghost use Rattle.php_print.specs.expression.Elements.{
  spell_argument,
  spell_arguments,
  spell_item,
  spell_link,
  spell_new,
  spell_piece,
  spell_step,
  spell_suffix,
};
ghost use Rattle.php_ast.specs.expression.Parts.{
  argument_with,
  class_with,
  item_with,
  link_with,
  piece_with,
  step_with,
  suffix_with,
};
ghost use Rattle.php_ast.specs.expression.Spelling.{
  list_closing,
  list_opening,
  member_symbol,
  spell,
  spell_class,
  spell_items,
  spell_pieces,
  spell_steps,
};
ghost use Rattle.php_ast.specs.statement.Spelling.{spell_head};
ghost use Rattle.php_ast.specs.Symbol as symbol;
ghost use Rattle.php_ast.specs.expression.Tree as tree;
ghost use Rattle.php_ast.specs.expression.View.{
  class_view,
  items_from,
  member_view,
  spot_view,
  pieces_from,
  steps_from,
  values_from,
  view,
  with_links,
  with_suffixes,
  word_view,
};

use crate::fixed::{
    AMPERSAND, ARROW, COLON, DOUBLE_ARROW, DOUBLE_COLON, EXIT, Fixed, INSTANCE_OF, LEFT,
    LEFT_BRACKET, QUESTION, RIGHT, RIGHT_BRACKET, STATIC, YIELD, assign_fixed, binary_fixed,
    count_fixed, magic_fixed, prefix_fixed,
};
use crate::printed::Printed;
use crate::printer::Printer;
use php_ast::{
    Argument, ArrayForm, Class, ClassStep, Expr, Item, Link, Member, Name, Named, Piece, Suffix,
    Word,
};
use php_base::NoMemory;
use php_token::{Keyword, Punct};

impl Printer {
    /// Puts the tokens of an expression.
    #[cycle(expressions)]
    pub fn put_expr(&mut self, e: &Expr) -> Result<(), NoMemory>
        ensures { OnOk result (Prints (spell (view e.now)) self.old self.new) }
    {
        match e {
            Expr::Variable(name) => self.put_variable(&name.text),
            Expr::Int(_, value) => self.put_int(value),
            Expr::Str(_, text) => self.put_string(text),
            Expr::Name(name) => self.put_name(&name.text),
            Expr::StaticMember(_, member) => self.put_static_member(member.get()),
            Expr::Template(_, pieces) => self.put_template(pieces.as_slice()),
            Expr::Group(_, inside) => self.put_around(&[LEFT], inside.get(), &[RIGHT]),
            Expr::Array(_, form, items) => self.put_array(*form, items.as_slice()),
            Expr::IsSet(_, values) => self.put_is_set(values.as_slice()),
            Expr::Empty(_, inside) => {
                self.put_around(
                    &[Fixed::Keyword(Keyword::Empty), LEFT],
                    inside.get(),
                    &[RIGHT],
                )
            }
            Expr::Exit(_) => self.put_fixed(EXIT),
            Expr::ExitEmpty(_) => self.put_all(&[EXIT, LEFT, RIGHT]),
            Expr::ExitWith(_, inside) => self.put_around(&[EXIT, LEFT], inside.get(), &[RIGHT]),
            Expr::Magic(_, magic) => self.put_fixed(magic_fixed(*magic)),
            Expr::Chain(first, suffixes) => self.put_chain(first.get(), suffixes.as_slice()),
            Expr::New(_, class) => self.put_new(class.get()),
            Expr::NewWith(_, class, arguments) => {
                self.put_new_with(class.get(), arguments.as_slice())
            }
            Expr::Prefix(_, op, operand) => self.put_around(
                &[prefix_fixed(*op)],
                operand.get(),
                &[],
            ),
            Expr::Count(operand, count) => {
                self.put_around(&[], operand.get(), &[count_fixed(*count)])
            }
            Expr::Run(first, links) => self.put_run(first.get(), links.as_slice()),
            Expr::Binary(op, left, right) => {
                self.put_pair(left.get(), &[binary_fixed(*op)], right.get())
            }
            Expr::InstanceOf(left, class) => self.put_pair(left.get(), &[INSTANCE_OF], class.get()),
            Expr::InstanceOfStatic(left, _) => {
                self.put_around(&[], left.get(), &[INSTANCE_OF, STATIC])
            }
            Expr::Assign(op, target, value) => {
                self.put_pair(target.get(), &[assign_fixed(*op)], value.get())
            }
            Expr::AssignReference(target, source) => {
                let between = [Fixed::Punct(Punct::Assign), AMPERSAND];
                self.put_pair(target.get(), &between, source.get())
            }
            Expr::YieldNothing(_) => self.put_fixed(YIELD),
            Expr::Yield(_, value) => self.put_around(&[YIELD], value.get(), &[]),
            Expr::YieldPair(_, key, value) => {
                self.put_fixed(YIELD)?;
                self.put_pair(key.get(), &[DOUBLE_ARROW], value.get())
            }
        }
    }

    // An expression with tokens before and behind it.
    #[cycle(expressions)]
    fn put_around(&mut self, before: &[Fixed], e: &Expr, behind: &[Fixed]) -> Result<(), NoMemory>
        ensures { OnOk result (Prints (λ w. fixed_views before.now (spell (view e.now)
            (fixed_views behind.now w))) self.old self.new) }
    {
        self.put_all(before)?;
        self.put_expr(e)?;
        self.put_all(behind)
    }

    /// Puts a keyword, and an expression in parentheses.
    pub fn put_head(&mut self, word: Keyword, e: &Expr) -> Result<(), NoMemory>
        ensures { OnOk result (Prints (spell_head word (view e.now)) self.old self.new) }
    {
        self.put_around(&[Fixed::Keyword(word), LEFT], e, &[RIGHT])
    }

    // Two expressions with tokens between them.
    #[cycle(expressions)]
    fn put_pair(&mut self, left: &Expr, between: &[Fixed], right: &Expr) -> Result<(), NoMemory>
        ensures { OnOk result (Prints (λ w. spell (view left.now) (fixed_views between.now (spell
            (view right.now) w))) self.old self.new) }
    {
        self.put_expr(left)?;
        self.put_all(between)?;
        self.put_expr(right)
    }

    // ---- texts with parts

    #[cycle(expressions)]
    fn put_template(&mut self, pieces: &[Piece<Expr>]) -> Result<(), NoMemory>
        ensures { OnOk result (Prints (λ w. symbol.quote
            ∷ spell_pieces (pieces_from tree.no_piece (map (piece_with view) pieces.now))
            (symbol.unquote ∷ w)) self.old self.new) }
    {
        self.put(Printed::Quote)?;
        for piece in pieces {
            self.put_piece(piece)?;
        }
        self.put(Printed::Unquote)
    }

    #[cycle(expressions)]
    fn put_piece(&mut self, piece: &Piece<Expr>) -> Result<(), NoMemory>
        ensures { OnOk result (Prints (spell_piece (piece_with view piece.now)) self.old self.new) }
    {
        match piece {
            Piece::Bytes(text) => self.put_bytes(text),
            Piece::Part(e) => self.put_around(&[Fixed::Part], e, &[Fixed::EndPart]),
        }
    }

    // ---- lists

    #[cycle(expressions)]
    fn put_array(&mut self, form: ArrayForm, items: &[Item<Expr>]) -> Result<(), NoMemory>
        ensures { OnOk result (Prints (λ w. list_opening (tree.array form)
            (spell_items (items_from tree.none (map (item_with view) items.now))
            (list_closing (tree.array form) ∷ w))) self.old self.new) }
    {
        self.put_array_opening(form)?;
        let mut has_before = false;
        for item in items {
            self.put_punct_if(has_before, Punct::Comma)?;
            self.put_item(item)?;
            has_before = true;
        }
        self.put_array_closing(form)
    }

    fn put_array_opening(&mut self, form: ArrayForm) -> Result<(), NoMemory>
        ensures { OnOk result (Prints (list_opening (tree.array form)) self.old self.new) }
    {
        match form {
            ArrayForm::Brackets => self.put_fixed(LEFT_BRACKET),
            ArrayForm::Array => self.put_all(&[Fixed::Keyword(Keyword::Array), LEFT]),
            ArrayForm::List => self.put_all(&[Fixed::Keyword(Keyword::List), LEFT]),
        }
    }

    fn put_array_closing(&mut self, form: ArrayForm) -> Result<(), NoMemory>
        ensures { OnOk result (Prints (λ w. list_closing (tree.array form) ∷ w) self.old self.new) }
    {
        match form {
            ArrayForm::Brackets => self.put_fixed(RIGHT_BRACKET),
            ArrayForm::Array | ArrayForm::List => self.put_fixed(RIGHT),
        }
    }

    #[cycle(expressions)]
    fn put_item(&mut self, item: &Item<Expr>) -> Result<(), NoMemory>
        ensures { OnOk result (Prints (spell_item (item_with view item.now)) self.old self.new) }
    {
        match item {
            Item::Missing => Ok(()),
            Item::Value(e) => self.put_expr(e),
            Item::Reference(e) => self.put_around(&[AMPERSAND], e, &[]),
            Item::Keyed(key, e) => self.put_pair(key, &[DOUBLE_ARROW], e),
            Item::KeyedReference(key, e) => self.put_pair(key, &[DOUBLE_ARROW, AMPERSAND], e),
        }
    }

    /// Puts expressions with commas between them.
    #[cycle(expressions)]
    pub fn put_values(&mut self, values: &[Expr]) -> Result<(), NoMemory>
        ensures { OnOk result (Prints (spell_items (values_from tree.none (map view values.now)))
            self.old self.new) }
    {
        let mut is_later = false;
        for value in values {
            self.put_punct_if(is_later, Punct::Comma)?;
            self.put_expr(value)?;
            is_later = true;
        }
        Ok(())
    }

    #[cycle(expressions)]
    fn put_is_set(&mut self, values: &[Expr]) -> Result<(), NoMemory>
        ensures { OnOk result (Prints (λ w. symbol.keyword word.IsSet ∷ symbol.punct mark.LeftParen
            ∷ spell_items (values_from tree.none (map view values.now))
            (symbol.punct mark.RightParen ∷ w)) self.old self.new) }
    {
        self.put_all(&[Fixed::Keyword(Keyword::IsSet), LEFT])?;
        self.put_values(values)?;
        self.put_fixed(RIGHT)
    }

    // Arguments in their parentheses.
    #[cycle(expressions)]
    fn put_arguments(&mut self, arguments: &[Argument<Expr>]) -> Result<(), NoMemory>
        ensures { OnOk result (Prints (spell_arguments (map (argument_with view) arguments.now))
            self.old self.new) }
    {
        self.put_fixed(LEFT)?;
        let mut is_later = false;
        for argument in arguments {
            self.put_punct_if(is_later, Punct::Comma)?;
            self.put_argument(argument)?;
            is_later = true;
        }
        self.put_fixed(RIGHT)
    }

    #[cycle(expressions)]
    fn put_argument(&mut self, argument: &Argument<Expr>) -> Result<(), NoMemory>
        ensures { OnOk result (Prints (spell_argument (argument_with view argument.now))
            self.old self.new) }
    {
        match argument {
            Argument::Value(e) => self.put_expr(e),
            Argument::Spread(e) => self.put_around(&[Fixed::Punct(Punct::Ellipsis)], e, &[]),
        }
    }

    // ---- suffixes and runs

    #[cycle(expressions)]
    fn put_chain(&mut self, first: &Expr, suffixes: &[Suffix<Expr>]) -> Result<(), NoMemory>
        ensures { OnOk result (Prints (spell (with_suffixes (view first.now) (map
            (suffix_with view) suffixes.now))) self.old self.new) }
    {
        self.put_expr(first)?;
        for suffix in suffixes {
            self.put_suffix(suffix)?;
        }
        Ok(())
    }

    #[cycle(expressions)]
    fn put_suffix(&mut self, suffix: &Suffix<Expr>) -> Result<(), NoMemory>
        ensures { OnOk result (Prints (spell_suffix (suffix_with view suffix.now)) self.old self.new) }
    {
        match suffix {
            Suffix::Append => self.put_all(&[LEFT_BRACKET, RIGHT_BRACKET]),
            Suffix::Index(key) => self.put_around(&[LEFT_BRACKET], key, &[RIGHT_BRACKET]),
            Suffix::Property(Named::Word(word)) => self.put_property_word(word),
            Suffix::Property(Named::Variable(name)) => self.put_property_variable(name),
            Suffix::Property(Named::Computed(key)) => {
                let before = [ARROW, Fixed::Punct(Punct::LeftBrace)];
                self.put_around(&before, key, &[Fixed::Punct(Punct::RightBrace)])
            }
            Suffix::Member(member) => self.put_member(member),
            Suffix::Call(arguments) => self.put_arguments(arguments.as_slice()),
        }
    }

    #[cycle(expressions)]
    fn put_run(&mut self, first: &Expr, links: &[Link<Expr>]) -> Result<(), NoMemory>
        ensures { OnOk result (Prints (spell (with_links (view first.now) (map (link_with view) links.now)))
            self.old self.new) }
    {
        self.put_expr(first)?;
        for link in links {
            self.put_link(link)?;
        }
        Ok(())
    }

    #[cycle(expressions)]
    fn put_link(&mut self, link: &Link<Expr>) -> Result<(), NoMemory>
        ensures { OnOk result (Prints (spell_link (link_with view link.now)) self.old self.new) }
    {
        match link {
            Link::Operator(op, right) => self.put_around(&[binary_fixed(*op)], right, &[]),
            Link::Choice(middle, right) => {
                self.put_fixed(QUESTION)?;
                self.put_pair(middle, &[COLON], right)
            }
            Link::ShortChoice(right) => self.put_around(&[QUESTION, COLON], right, &[]),
        }
    }

    // ---- new

    #[cycle(expressions)]
    fn put_new(&mut self, class: &Class<Expr>) -> Result<(), NoMemory>
        ensures { OnOk result (Prints (spell_new (class_with view class.now)) self.old self.new) }
    {
        self.put_fixed(Fixed::Keyword(Keyword::New))?;
        match class {
            Class::Name(name) => self.put_name(&name.text),
            Class::Static(_) => self.put_fixed(STATIC),
            Class::Variable(name, steps) => self.put_steps(name, steps.as_slice()),
        }
    }

    #[cycle(expressions)]
    fn put_new_with(
        &mut self,
        class: &Class<Expr>,
        arguments: &[Argument<Expr>],
    ) -> Result<(), NoMemory>
        ensures { OnOk result (Prints (λ w. spell_new (class_with view class.now) (spell_arguments (map
            (argument_with view) arguments.now) w)) self.old self.new) }
    {
        self.put_new(class)?;
        self.put_arguments(arguments)
    }

    #[cycle(expressions)]
    fn put_steps(&mut self, name: &Name, steps: &[ClassStep<Expr>]) -> Result<(), NoMemory>
        ensures { OnOk result (Prints (spell_steps (steps_from (tree.from
            (spot_view name.now.spot) name.now.text) (map (step_with view) steps.now))) self.old self.new) }
    {
        self.put_variable(&name.text)?;
        for step in steps {
            self.put_step(step)?;
        }
        Ok(())
    }

    #[cycle(expressions)]
    fn put_step(&mut self, step: &ClassStep<Expr>) -> Result<(), NoMemory>
        ensures { OnOk result (Prints (spell_step (step_with view step.now)) self.old self.new) }
    {
        match step {
            ClassStep::Property(word) => self.put_property_word(word),
            ClassStep::Index(key) => self.put_around(&[LEFT_BRACKET], key, &[RIGHT_BRACKET]),
        }
    }
}
