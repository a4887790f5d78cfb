// The code of statements.
ghost use Rattle.std.specs.Prelude.{◌≡◌, ◌∷◌, [], ◌++◌, map, OnOk};
ghost use Rattle.php_ast.specs.expression.Tree.{none};
ghost use Rattle.php_ast.specs.expression.View.{spot_view, values_from, view};
ghost use Rattle.php_ast.specs.statement.Tree as tree;
ghost use Rattle.php_ast.specs.statement.View.{list_view, sequence, statement_view};
ghost use Rattle.php_ast.specs.declaration.View.{item_view};
ghost use Rattle.php_meaning.specs.Heights.{
  peak_of,
  peak_of_item,
  peak_of_items,
  peak_of_script,
  peak_of_statement,
  peak_of_statements,
};
ghost use Rattle.php_compile.specs.StatementCode.{
  inline_code,
  item_code,
  items_code,
  statement_code,
  statements_code,
};

use crate::emitter::Emitter;
use crate::forms::tick;
use indexmap::IndexSet;
use php_actions::{Action, OutputAction, StackAction};
use php_ast::{Expr, ScriptItem, Spot, Stmt};
use php_base::NoMemory;
use php_value::Text;

impl Emitter {
    #[cycle(statements)]
    fn put_statement(
        &mut self,
        names: &IndexSet<Text>,
        s: &Stmt,
        standing: usize,
    ) -> Result<(), NoMemory>
        ensures code { OnOk result (self.new.code ≡ self.old.code ++ statement_code names.now.keys
            standing (statement_view s.now)) }
        ensures peak { OnOk result (self.new.peak ≡ peak_of_statement names.now.keys standing
            self.old.peak (statement_view s.now)) }
    {
        match s {
            Stmt::Block(_, body) => self.put_statements(names, body.as_slice(), standing),
            Stmt::Inline(spot, text) => self.put_inline(*spot, text),
            Stmt::Expression(spot, e) => self.put_alone(names, *spot, e, standing),
            Stmt::Echo(spot, values) => self.put_echo(names, *spot, values.as_slice(), standing),
            Stmt::Empty(_) => Ok(()),
            Stmt::Global(_, _) => Ok(()),
            Stmt::Static(_, _) => Ok(()),
            Stmt::Unset(_, _) => Ok(()),
            Stmt::Const(_, _) => Ok(()),
            Stmt::Return(_, _) => Ok(()),
            Stmt::Throw(_, _) => Ok(()),
            Stmt::Break(_, _) => Ok(()),
            Stmt::Continue(_, _) => Ok(()),
            Stmt::If(_, _, _, _, _) => Ok(()),
            Stmt::IfColon(_, _, _, _, _) => Ok(()),
            Stmt::While(_, _, _) => Ok(()),
            Stmt::DoWhile(_, _, _) => Ok(()),
            Stmt::For(_, _, _) => Ok(()),
            Stmt::Foreach(_, _, _) => Ok(()),
            Stmt::Switch(_, _, _, _) => Ok(()),
            Stmt::Try(_, _, _, _) => Ok(()),
            Stmt::Declare(_, _, _) => Ok(()),
        }
    }

    #[cycle(statements)]
    fn put_statements(
        &mut self,
        names: &IndexSet<Text>,
        body: &[Stmt],
        standing: usize,
    ) -> Result<(), NoMemory>
        ensures code { OnOk result (self.new.code ≡ self.old.code ++ statements_code names.now.keys
            standing (list_view (map statement_view body.now))) }
        ensures peak { OnOk result (self.new.peak ≡ peak_of_statements names.now.keys standing
            self.old.peak (list_view (map statement_view body.now))) }
    {
        for s in body {
            self.put_statement(names, s, standing)?;
        }
        Ok(())
    }

    fn put_inline(&mut self, spot: Spot, text: &Text) -> Result<(), NoMemory>
        ensures code { OnOk result (self.new.code ≡ self.old.code ++ inline_code (spot_view spot) text.now) }
        ensures peak { OnOk result (self.new.peak ≡ self.old.peak) }
    {
        let text = text.share()?;
        self.put(tick(spot))?;
        self.put(Action::Output(OutputAction::Write(text)))
    }

    // An expression whose value falls.
    fn put_alone(
        &mut self,
        names: &IndexSet<Text>,
        spot: Spot,
        e: &Expr,
        standing: usize,
    ) -> Result<(), NoMemory>
        ensures code { OnOk result (self.new.code ≡ self.old.code ++ statement_code names.now.keys
            standing (tree.expression (spot_view spot) (view e.now))) }
        ensures peak { OnOk result (self.new.peak ≡ peak_of names.now.keys standing self.old.peak
            (view e.now)) }
    {
        self.put(tick(spot))?;
        self.put_expr(names, e, standing)?;
        self.put(Action::Stack(StackAction::Drop))
    }

    fn put_echo(
        &mut self,
        names: &IndexSet<Text>,
        spot: Spot,
        values: &[Expr],
        standing: usize,
    ) -> Result<(), NoMemory>
        ensures code { OnOk result (self.new.code ≡ self.old.code ++ statement_code names.now.keys
            standing (tree.echo (spot_view spot) (values_from none (map view values.now)))) }
        ensures peak { OnOk result (self.new.peak ≡ peak_of_items names.now.keys standing
            self.old.peak (values_from none (map view values.now))) }
    {
        self.put(tick(spot))?;
        self.put_values(names, values, standing)
    }

    fn put_item(&mut self, names: &IndexSet<Text>, item: &ScriptItem) -> Result<(), NoMemory>
        ensures code { OnOk result (self.new.code ≡ self.old.code ++ item_code names.now.keys
            (item_view item.now)) }
        ensures peak { OnOk result (self.new.peak ≡ peak_of_item names.now.keys self.old.peak
            (item_view item.now)) }
    {
        match item {
            ScriptItem::Statement(s) => self.put_statement(names, s, 0),
            ScriptItem::Function(_) => Ok(()),
            ScriptItem::Class(_) => Ok(()),
            ScriptItem::Interface(_) => Ok(()),
            ScriptItem::Trait(_) => Ok(()),
        }
    }

    /// Puts the code of the script's own part.
    pub fn put_items(
        &mut self,
        names: &IndexSet<Text>,
        items: &[ScriptItem],
    ) -> Result<(), NoMemory>
        ensures code { OnOk result (self.new.code ≡ self.old.code ++ items_code names.now.keys
            (sequence item_view items.now)) }
        ensures peak { OnOk result (self.new.peak ≡ peak_of_script names.now.keys self.old.peak
            (sequence item_view items.now)) }
    {
        for item in items {
            self.put_item(names, item)?;
        }
        Ok(())
    }
}
