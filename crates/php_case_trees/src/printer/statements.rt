// Prints statements.

use crate::printer::Printer;
use php_ast::{
    Body, Case, CaseEnd, Catch, ConstantItem, ElseIf, Expr, ForHead, ForeachHead, Name, Stmt,
    SwitchForm, Target, VariableItem,
};
use php_value::Text;
use sqlite_items::{Boxed, Items};
use std::alloc::AllocError;

impl Printer {
    fn inline(&mut self, text: &Text) -> Result<(), AllocError> {
        self.put("inline `")?;
        self.text(text)?;
        self.put("`")
    }

    fn echo(&mut self, values: &[Expr]) -> Result<(), AllocError> {
        self.put("echo ")?;
        self.values(values)
    }

    fn unset(&mut self, places: &[Expr]) -> Result<(), AllocError> {
        self.put("unset ")?;
        self.values(places)
    }

    fn globals(&mut self, names: &[Name]) -> Result<(), AllocError> {
        self.put("global ")?;
        self.names("$", names)
    }

    fn statics(&mut self, items: &[VariableItem]) -> Result<(), AllocError> {
        self.put("static ")?;
        self.variables(items)
    }

    /// Variables between commas, with their values.
    pub(crate) fn variables(&mut self, items: &[VariableItem]) -> Result<(), AllocError> {
        let mut is_later = false;
        for item in items {
            self.put_if(is_later, ", ")?;
            self.put("$")?;
            self.text(&item.name.text)?;
            self.value_if(" = ", &item.value)?;
            is_later = true;
        }
        Ok(())
    }

    fn constants(&mut self, items: &[ConstantItem]) -> Result<(), AllocError> {
        self.put("const ")?;
        let mut is_later = false;
        for item in items {
            self.put_if(is_later, ", ")?;
            self.text(&item.name.text)?;
            self.put(" = ")?;
            self.value(&item.value)?;
            is_later = true;
        }
        Ok(())
    }

    fn jump(&mut self, word: &str, value: &Option<Expr>) -> Result<(), AllocError> {
        self.put(word)?;
        self.value_if(" ", value)
    }

    fn throw(&mut self, e: &Expr) -> Result<(), AllocError> {
        self.put("throw ")?;
        self.value(e)
    }

    fn declare(&mut self, name: &Name, value: i64) -> Result<(), AllocError> {
        self.put("declare ")?;
        self.text(&name.text)?;
        self.put(" = ")?;
        self.int(value)
    }

    fn target(&mut self, target: &Target) -> Result<(), AllocError> {
        self.put_if(target.is_reference, "&")?;
        self.value(&target.place)
    }

    fn foreach_head(&mut self, head: &ForeachHead) -> Result<(), AllocError> {
        self.put("foreach ")?;
        self.value(&head.walked)?;
        self.put(" as ")?;
        if let Some(key) = &head.key {
            self.target(key)?;
            self.put(" => ")?;
        }
        self.target(&head.value)?;
        self.put(" ")
    }

    fn for_head(&mut self, head: &ForHead) -> Result<(), AllocError> {
        self.put("for (")?;
        self.values(head.starts.as_slice())?;
        self.put("; ")?;
        self.values(head.tests.as_slice())?;
        self.put("; ")?;
        self.values(head.steps.as_slice())?;
        self.put(") ")
    }

    fn test(&mut self, word: &str, test: &Expr) -> Result<(), AllocError> {
        self.put(word)?;
        self.value(test)?;
        self.put(" ")
    }

    fn label(&mut self, case: &Case<Stmt>) -> Result<(), AllocError> {
        match &case.value {
            Some(value) => {
                self.put("case ")?;
                self.value(value)?;
            }
            None => self.put("default")?,
        }
        match case.end {
            CaseEnd::Colon => self.put(" : "),
            CaseEnd::Semicolon => self.put(" ; "),
        }
    }

    fn catch_head(&mut self, catch: &Catch<Stmt>) -> Result<(), AllocError> {
        self.put(" catch ")?;
        self.names("", catch.classes.as_slice())?;
        self.put(" $")?;
        self.text(&catch.variable.text)?;
        self.put(" ")
    }

    /// A statement, with `..` in place of what stands inside `depth` others.
    #[cycle(printing)]
    pub(crate) fn statement(&mut self, s: &Stmt, depth: usize) -> Result<(), AllocError> {
        if depth == 0 {
            return self.put("..");
        }
        self.node(s, depth - 1)
    }

    // A statement, of which the parts may have `depth` levels.
    #[cycle(printing)]
    fn node(&mut self, s: &Stmt, depth: usize) -> Result<(), AllocError> {
        match s {
            Stmt::Block(_, body) => self.list(body.as_slice(), depth),
            Stmt::Empty(_) => self.put("nothing"),
            Stmt::Inline(_, text) => self.inline(text),
            Stmt::Expression(_, e) => self.value(e),
            Stmt::Echo(_, values) => self.echo(values.as_slice()),
            Stmt::Global(_, names) => self.globals(names.as_slice()),
            Stmt::Static(_, items) => self.statics(items.as_slice()),
            Stmt::Unset(_, places) => self.unset(places.as_slice()),
            Stmt::Const(_, items) => self.constants(items.as_slice()),
            Stmt::Return(_, value) => self.jump("return", value),
            Stmt::Throw(_, e) => self.throw(e),
            Stmt::Break(_, value) => self.jump("break", value),
            Stmt::Continue(_, value) => self.jump("continue", value),
            Stmt::If(_, test, body, parts, last) => {
                self.branches(test, body.get(), parts.as_slice(), last, depth)
            }
            Stmt::IfColon(_, test, body, parts, last) => {
                self.list_branches(test, body.as_slice(), parts.as_slice(), last, depth)
            }
            Stmt::While(_, test, body) => self.while_loop(test, body, depth),
            Stmt::DoWhile(_, body, test) => self.do_while(body.get(), test, depth),
            Stmt::For(_, head, body) => self.for_loop(head, body, depth),
            Stmt::Foreach(_, head, body) => self.foreach(head, body, depth),
            Stmt::Switch(_, e, form, cases) => self.switch(e, *form, cases.as_slice(), depth),
            Stmt::Try(_, body, catches, last) => {
                self.try_catch(body.as_slice(), catches.as_slice(), last, depth)
            }
            Stmt::Declare(_, name, value) => self.declare(name, *value),
        }
    }

    #[cycle(printing)]
    pub(crate) fn list(&mut self, body: &[Stmt], depth: usize) -> Result<(), AllocError> {
        self.put("{")?;
        let mut is_later = false;
        for s in body {
            self.put_if(is_later, "; ")?;
            self.statement(s, depth)?;
            is_later = true;
        }
        self.put("}")
    }

    #[cycle(printing)]
    fn single(&mut self, s: &Stmt, depth: usize) -> Result<(), AllocError> {
        self.put("[")?;
        self.statement(s, depth)?;
        self.put("]")
    }

    // A list behind a colon.
    #[cycle(printing)]
    fn behind_colon(&mut self, body: &[Stmt], depth: usize) -> Result<(), AllocError> {
        self.put(": ")?;
        self.list(body, depth)
    }

    #[cycle(printing)]
    fn body(&mut self, body: &Body<Stmt>, depth: usize) -> Result<(), AllocError> {
        match body {
            Body::Single(s) => self.single(s.get(), depth),
            Body::Colon(list) => self.behind_colon(list.as_slice(), depth),
        }
    }

    #[cycle(printing)]
    fn branches(
        &mut self,
        test: &Expr,
        body: &Stmt,
        parts: &[ElseIf<Boxed<Stmt>>],
        last: &Option<Boxed<Stmt>>,
        depth: usize,
    ) -> Result<(), AllocError> {
        self.test("if ", test)?;
        self.single(body, depth)?;
        for part in parts {
            self.test(" elseif ", &part.test)?;
            self.single(part.body.get(), depth)?;
        }
        match last {
            Some(s) => {
                self.put(" else ")?;
                self.single(s.get(), depth)
            }
            None => Ok(()),
        }
    }

    #[cycle(printing)]
    fn list_branches(
        &mut self,
        test: &Expr,
        body: &[Stmt],
        parts: &[ElseIf<Items<Stmt>>],
        last: &Option<Items<Stmt>>,
        depth: usize,
    ) -> Result<(), AllocError> {
        self.test("if ", test)?;
        self.behind_colon(body, depth)?;
        for part in parts {
            self.test(" elseif ", &part.test)?;
            self.behind_colon(part.body.as_slice(), depth)?;
        }
        match last {
            Some(list) => {
                self.put(" else ")?;
                self.behind_colon(list.as_slice(), depth)
            }
            None => Ok(()),
        }
    }

    #[cycle(printing)]
    fn while_loop(
        &mut self,
        test: &Expr,
        body: &Body<Stmt>,
        depth: usize,
    ) -> Result<(), AllocError> {
        self.test("while ", test)?;
        self.body(body, depth)
    }

    #[cycle(printing)]
    fn do_while(&mut self, body: &Stmt, test: &Expr, depth: usize) -> Result<(), AllocError> {
        self.put("do ")?;
        self.single(body, depth)?;
        self.put(" while ")?;
        self.value(test)
    }

    #[cycle(printing)]
    fn for_loop(
        &mut self,
        head: &ForHead,
        body: &Body<Stmt>,
        depth: usize,
    ) -> Result<(), AllocError> {
        self.for_head(head)?;
        self.body(body, depth)
    }

    #[cycle(printing)]
    fn foreach(
        &mut self,
        head: &ForeachHead,
        body: &Body<Stmt>,
        depth: usize,
    ) -> Result<(), AllocError> {
        self.foreach_head(head)?;
        self.body(body, depth)
    }

    #[cycle(printing)]
    fn switch(
        &mut self,
        e: &Expr,
        form: SwitchForm,
        cases: &[Case<Stmt>],
        depth: usize,
    ) -> Result<(), AllocError> {
        self.test("switch ", e)?;
        match form {
            SwitchForm::Braces => self.put("(")?,
            SwitchForm::Colon => self.put(": (")?,
        }
        let mut is_later = false;
        for case in cases {
            self.put_if(is_later, " ")?;
            self.label(case)?;
            self.list(case.body.as_slice(), depth)?;
            is_later = true;
        }
        self.put(")")
    }

    #[cycle(printing)]
    fn try_catch(
        &mut self,
        body: &[Stmt],
        catches: &[Catch<Stmt>],
        last: &Option<Items<Stmt>>,
        depth: usize,
    ) -> Result<(), AllocError> {
        self.put("try ")?;
        self.list(body, depth)?;
        for catch in catches {
            self.catch_head(catch)?;
            self.list(catch.body.as_slice(), depth)?;
        }
        match last {
            Some(list) => {
                self.put(" finally ")?;
                self.list(list.as_slice(), depth)
            }
            None => Ok(()),
        }
    }
}
