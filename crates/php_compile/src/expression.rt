// The code of expressions.
ghost use Rattle.std.specs.Prelude.{◌≡◌, ◌+◌, ◌∷◌, [], ◌++◌, map, max, IfOk, OnOk};
ghost use Rattle.php_ast.specs.expression.Parts.{link_with, piece_with};
ghost use Rattle.php_ast.specs.expression.Tree as tree;
ghost use Rattle.php_ast.specs.expression.View.{pieces_from, spot_view, values_from, view, with_links};
ghost use Rattle.php_code.specs.declared.instr.Instr.TheVariants.{Do};
ghost use Rattle.php_value.specs.declared.scalar.Scalar.TheVariants as scalar;
ghost use Rattle.php_meaning.specs.Constants.{constant_of};
ghost use Rattle.php_meaning.specs.Forms as form;
ghost use Rattle.php_meaning.specs.Heights.{
  peak_of,
  peak_of_assigned,
  peak_of_items,
  peak_of_pieces,
  peak_of_two,
  piece_count,
};
ghost use Rattle.php_compile.specs.ExpressionCode.{
  assign_code,
  do_code,
  echo_code,
  expr_code,
  pieces_code,
  right_code,
};
ghost use Rattle.php_compile.specs.Parts.{link_code, link_peak, piece_code, piece_peak, template_code, value_code};

use crate::emitter::{Emitter, above};
use crate::forms::{
    assign_action, assigned_form, binary_action, constant_action, magic_action, prefix_action,
    push_int, push_text, read_action,
};
use indexmap::IndexSet;
use php_actions::{Action, OperatorAction, OutputAction};
use php_ast::{Assign, Binary, Expr, Link, Piece, Prefix};
use php_base::NoMemory;
use php_value::Text;

impl Emitter {
    /// Puts the code of an expression over so many temporaries.
    #[cycle(expressions)]
    pub fn put_expr(
        &mut self,
        names: &IndexSet<Text>,
        e: &Expr,
        standing: usize,
    ) -> Result<(), NoMemory>
        ensures code { OnOk result (self.new.code ≡ self.old.code ++ expr_code names.now.keys
            (view e.now)) }
        ensures peak { OnOk result (self.new.peak ≡ peak_of names.now.keys standing self.old.peak
            (view e.now)) }
    {
        match e {
            Expr::Variable(name) => self.put_variable(names, &name.text, standing),
            Expr::Int(_, value) => self.put_leaf(push_int(value), standing),
            Expr::Str(_, text) => self.put_text(text, standing),
            Expr::Name(name) => self.put_constant(&name.text, standing),
            Expr::Magic(spot, magic) => self.put_leaf(magic_action(*spot, *magic), standing),
            Expr::Template(_, pieces) => self.put_template(names, pieces.as_slice(), standing),
            Expr::Group(_, inside) => self.put_expr(names, inside.get(), standing),
            Expr::Chain(first, _) => self.put_expr(names, first.get(), standing),
            Expr::Prefix(_, op, operand) => self.put_prefix(names, *op, operand.get(), standing),
            Expr::Run(first, links) => {
                self.put_run(names, first.get(), links.as_slice(), standing)
            }
            Expr::Binary(op, left, right) => {
                self.put_binary(names, *op, left.get(), right.get(), standing)
            }
            Expr::Assign(op, target, value) => {
                self.put_assign(names, *op, target.get(), value.get(), standing)
            }
            Expr::AssignReference(_, _) => Ok(()),
            Expr::Empty(_, _) => Ok(()),
            Expr::ExitWith(_, _) => Ok(()),
            Expr::StaticMember(_, _) => Ok(()),
            Expr::Array(_, _, _) => Ok(()),
            Expr::IsSet(_, _) => Ok(()),
            Expr::Exit(_) => Ok(()),
            Expr::ExitEmpty(_) => Ok(()),
            Expr::New(_, _) => Ok(()),
            Expr::NewWith(_, _, _) => Ok(()),
            Expr::Count(_, _) => Ok(()),
            Expr::InstanceOf(_, _) => Ok(()),
            Expr::InstanceOfStatic(_, _) => Ok(()),
            Expr::YieldNothing(_) => Ok(()),
            Expr::Yield(_, _) => Ok(()),
            Expr::YieldPair(_, _, _) => Ok(()),
        }
    }

    fn put_variable(
        &mut self,
        names: &IndexSet<Text>,
        name: &Text,
        standing: usize,
    ) -> Result<(), NoMemory>
        ensures code { OnOk result (self.new.code ≡ self.old.code
            ++ Do (form.read_action (form.variable_form names.now.keys name.now)) ∷ []) }
        ensures peak { OnOk result (self.new.peak ≡ max self.old.peak (standing + 1)) }
    {
        let action = read_action(self.alloc, names, name)?;
        self.put_leaf(action, standing)
    }

    fn put_text(&mut self, text: &Text, standing: usize) -> Result<(), NoMemory>
        ensures code { OnOk result (self.new.code ≡ self.old.code ++ Do (form.push (scalar.Str text.now)) ∷ []) }
        ensures peak { OnOk result (self.new.peak ≡ max self.old.peak (standing + 1)) }
    {
        let action = push_text(text)?;
        self.put_leaf(action, standing)
    }

    fn put_constant(&mut self, name: &Text, standing: usize) -> Result<(), NoMemory>
        ensures code { OnOk result (self.new.code ≡ self.old.code
            ++ Do (form.constant_action (constant_of name.now) name.now) ∷ []) }
        ensures peak { OnOk result (self.new.peak ≡ max self.old.peak (standing + 1)) }
    {
        let action = constant_action(self.alloc, name)?;
        self.put_leaf(action, standing)
    }

    #[cycle(expressions)]
    fn put_prefix(
        &mut self,
        names: &IndexSet<Text>,
        op: Prefix,
        operand: &Expr,
        standing: usize,
    ) -> Result<(), NoMemory>
        ensures code { OnOk result (self.new.code ≡ self.old.code ++ (expr_code names.now.keys
            (view operand.now) ++ do_code (form.prefix_action op))) }
        ensures peak { OnOk result (self.new.peak ≡ peak_of names.now.keys standing self.old.peak
            (view operand.now)) }
    {
        self.put_expr(names, operand, standing)?;
        self.put_if(prefix_action(op))
    }

    #[cycle(expressions)]
    fn put_binary(
        &mut self,
        names: &IndexSet<Text>,
        op: Binary,
        left: &Expr,
        right: &Expr,
        standing: usize,
    ) -> Result<(), NoMemory>
        ensures code { OnOk result (self.new.code ≡ self.old.code ++ (expr_code names.now.keys
            (view left.now) ++ right_code (form.binary_action op) (expr_code names.now.keys (view right.now)))) }
        ensures peak { OnOk result (self.new.peak ≡ peak_of names.now.keys standing self.old.peak
            (tree.binary op (view left.now) (view right.now))) }
    {
        self.put_expr(names, left, standing)?;
        self.put_right(names, op, right, standing)
    }

    // The right side of an operator, and the operator.
    #[cycle(expressions)]
    fn put_right(
        &mut self,
        names: &IndexSet<Text>,
        op: Binary,
        right: &Expr,
        standing: usize,
    ) -> Result<(), NoMemory>
        ensures code { OnOk result (self.new.code ≡ self.old.code
            ++ right_code (form.binary_action op) (expr_code names.now.keys (view right.now))) }
        ensures peak { OnOk result (self.new.peak ≡ peak_of_two (form.binary_action op) standing self.old.peak
            (peak_of names.now.keys (standing + 1) self.old.peak (view right.now))) }
    {
        match binary_action(op) {
            None => Ok(()),
            Some(action) => {
                let over = above(standing, 1)?;
                self.put_expr(names, right, over)?;
                self.put(action)?;
                self.raise(standing, 4)
            }
        }
    }

    #[cycle(expressions)]
    fn put_assign(
        &mut self,
        names: &IndexSet<Text>,
        op: Assign,
        target: &Expr,
        value: &Expr,
        standing: usize,
    ) -> Result<(), NoMemory>
        ensures code { OnOk result (self.new.code ≡ self.old.code
            ++ assign_code (form.assigned_form names.now.keys (tree.by_value op) (view target.now))
            (expr_code names.now.keys (view value.now))) }
        ensures peak { OnOk result (self.new.peak ≡ peak_of_assigned (form.assigned_form names.now.keys (tree.by_value op)
            (view target.now)) standing self.old.peak (peak_of names.now.keys standing self.old.peak (view value.now))) }
    {
        match assigned_form(self.alloc, names, op, target)? {
            None => Ok(()),
            Some(place) => {
                self.put_expr(names, value, standing)?;
                self.put(assign_action(place))?;
                self.raise(standing, 2)
            }
        }
    }

    // ---- texts with parts

    #[cycle(expressions)]
    fn put_template(
        &mut self,
        names: &IndexSet<Text>,
        pieces: &[Piece<Expr>],
        standing: usize,
    ) -> Result<(), NoMemory>
        ensures code { OnOk result (self.new.code ≡ self.old.code
            ++ template_code names.now.keys (pieces_from tree.no_piece (map (piece_with view) pieces.now))) }
        ensures peak { OnOk result (self.new.peak ≡ max (peak_of_pieces names.now.keys standing self.old.peak
            (pieces_from tree.no_piece (map (piece_with view) pieces.now))) (standing + 1)) }
    {
        let count = self.put_pieces(names, pieces, standing)?;
        self.put(Action::Operator(OperatorAction::Join(count)))?;
        self.raise(standing, 1)
    }

    // The pieces, and how many they are.
    #[cycle(expressions)]
    fn put_pieces(
        &mut self,
        names: &IndexSet<Text>,
        pieces: &[Piece<Expr>],
        standing: usize,
    ) -> Result<usize, NoMemory>
        ensures code { OnOk result (self.new.code ≡ self.old.code ++ pieces_code names.now.keys
            (pieces_from tree.no_piece (map (piece_with view) pieces.now))) }
        ensures peak { OnOk result (self.new.peak ≡ peak_of_pieces names.now.keys standing self.old.peak
            (pieces_from tree.no_piece (map (piece_with view) pieces.now))) }
        ensures count { IfOk result (λ n. n ≡ piece_count (pieces_from tree.no_piece (map (piece_with view) pieces.now))) }
    {
        let mut count = 0;
        for piece in pieces {
            let over = above(standing, count)?;
            self.put_piece(names, piece, over)?;
            count = above(count, 1)?;
        }
        Ok(count)
    }

    #[cycle(expressions)]
    fn put_piece(
        &mut self,
        names: &IndexSet<Text>,
        piece: &Piece<Expr>,
        standing: usize,
    ) -> Result<(), NoMemory>
        ensures code { OnOk result (self.new.code ≡ self.old.code ++ piece_code names.now.keys
            (piece_with view piece.now)) }
        ensures peak { OnOk result (self.new.peak ≡ piece_peak names.now.keys standing self.old.peak
            (piece_with view piece.now)) }
    {
        match piece {
            Piece::Bytes(text) => self.put_text(text, standing),
            Piece::Part(e) => {
                self.put_expr(names, e, standing)?;
                self.put(Action::Operator(OperatorAction::ToText))
            }
        }
    }

    // ---- runs

    #[cycle(expressions)]
    fn put_run(
        &mut self,
        names: &IndexSet<Text>,
        first: &Expr,
        links: &[Link<Expr>],
        standing: usize,
    ) -> Result<(), NoMemory>
        ensures code { OnOk result (self.new.code ≡ self.old.code ++ expr_code names.now.keys
            (with_links (view first.now) (map (link_with view) links.now))) }
        ensures peak { OnOk result (self.new.peak ≡ peak_of names.now.keys standing self.old.peak
            (with_links (view first.now) (map (link_with view) links.now))) }
    {
        self.put_expr(names, first, standing)?;
        for link in links {
            self.put_link(names, link, standing)?;
        }
        Ok(())
    }

    #[cycle(expressions)]
    fn put_link(
        &mut self,
        names: &IndexSet<Text>,
        link: &Link<Expr>,
        standing: usize,
    ) -> Result<(), NoMemory>
        ensures code { OnOk result (self.new.code ≡ self.old.code ++ link_code names.now.keys
            (link_with view link.now)) }
        ensures peak { OnOk result (self.new.peak ≡ link_peak names.now.keys standing self.old.peak
            (link_with view link.now)) }
    {
        match link {
            Link::Operator(op, right) => self.put_right(names, *op, right, standing),
            Link::Choice(_, _) => Ok(()),
            Link::ShortChoice(_) => Ok(()),
        }
    }

    // ---- echo

    /// Puts the code that writes some values, one after the other.
    pub fn put_values(
        &mut self,
        names: &IndexSet<Text>,
        values: &[Expr],
        standing: usize,
    ) -> Result<(), NoMemory>
        ensures code { OnOk result (self.new.code ≡ self.old.code ++ echo_code names.now.keys
            (values_from tree.none (map view values.now))) }
        ensures peak { OnOk result (self.new.peak ≡ peak_of_items names.now.keys standing self.old.peak
            (values_from tree.none (map view values.now))) }
    {
        for value in values {
            self.put_value(names, value, standing)?;
        }
        Ok(())
    }

    fn put_value(
        &mut self,
        names: &IndexSet<Text>,
        value: &Expr,
        standing: usize,
    ) -> Result<(), NoMemory>
        ensures code { OnOk result (self.new.code ≡ self.old.code ++ value_code names.now.keys
            (view value.now)) }
        ensures peak { OnOk result (self.new.peak ≡ peak_of names.now.keys standing self.old.peak
            (view value.now)) }
    {
        self.put_expr(names, value, standing)?;
        self.put(Action::Output(OutputAction::Echo))
    }
}
