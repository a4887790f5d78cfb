// Prints functions, classes, interfaces and traits.

use crate::printer::{DEEPEST, Printer};
use php_ast::{
    BaseType, ClassConstant, ClassDecl, ClassMember, ClassModifier, FunctionDecl, InterfaceDecl,
    Method, Modifier, ModifierWord, Name, Param, Rule, Signature, TraitDecl, Type, Visibility,
    Word,
};
use sqlite_items::Items;
use std::alloc::AllocError;

fn modifier_word(word: ModifierWord) -> &'static str {
    match word {
        ModifierWord::Public => "public ",
        ModifierWord::Protected => "protected ",
        ModifierWord::Private => "private ",
        ModifierWord::Static => "static ",
        ModifierWord::Abstract => "abstract ",
        ModifierWord::Final => "final ",
        ModifierWord::Var => "var ",
    }
}

fn class_word(word: ClassModifier) -> &'static str {
    match word {
        ClassModifier::Abstract => "abstract ",
        ClassModifier::Final => "final ",
    }
}

fn visibility_word(seen: Visibility) -> &'static str {
    match seen {
        Visibility::Public => " public",
        Visibility::Protected => " protected",
        Visibility::Private => " private",
    }
}

impl Printer {
    fn base(&mut self, base: &BaseType) -> Result<(), AllocError> {
        match base {
            BaseType::Name(name) => self.text(&name.text),
            BaseType::Array => self.put("<array>"),
            BaseType::Callable => self.put("<callable>"),
        }
    }

    fn declared(&mut self, declared: &Type) -> Result<(), AllocError> {
        self.put_if(declared.is_nullable, "?")?;
        self.base(&declared.base)
    }

    fn param(&mut self, param: &Param) -> Result<(), AllocError> {
        if let Some(declared) = &param.declared {
            self.declared(declared)?;
            self.put(" ")?;
        }
        self.put_if(param.is_reference, "&")?;
        self.put_if(param.is_variadic, "...")?;
        self.put("$")?;
        self.text(&param.name.text)?;
        self.value_if(" = ", &param.default)
    }

    pub(crate) fn signature(&mut self, signature: &Signature) -> Result<(), AllocError> {
        self.put("(")?;
        let mut is_later = false;
        for param in signature.params.as_slice() {
            self.put_if(is_later, ", ")?;
            self.param(param)?;
            is_later = true;
        }
        self.put(")")?;
        match &signature.result {
            Some(declared) => {
                self.put(": ")?;
                self.declared(declared)
            }
            None => Ok(()),
        }
    }

    pub(crate) fn function(&mut self, f: &FunctionDecl) -> Result<(), AllocError> {
        self.put("function ")?;
        self.put_if(f.is_reference, "&")?;
        self.text(&f.name.text)?;
        self.signature(&f.signature)?;
        self.put(" ")?;
        self.list(f.body.as_slice(), DEEPEST)
    }

    fn word(&mut self, word: &Word) -> Result<(), AllocError> {
        self.text(&word.text)?;
        self.put_if(word.keyword.is_some(), "!")
    }

    fn modifiers(&mut self, modifiers: &[Modifier]) -> Result<(), AllocError> {
        for modifier in modifiers {
            self.put(modifier_word(modifier.word))?;
        }
        Ok(())
    }

    fn constant_list(&mut self, items: &[ClassConstant]) -> Result<(), AllocError> {
        self.put("const ")?;
        let mut is_later = false;
        for item in items {
            self.put_if(is_later, ", ")?;
            self.word(&item.name)?;
            self.put(" = ")?;
            self.value(&item.value)?;
            is_later = true;
        }
        Ok(())
    }

    fn method(&mut self, m: &Method) -> Result<(), AllocError> {
        self.modifiers(m.modifiers.as_slice())?;
        self.put("function ")?;
        self.put_if(m.is_reference, "&")?;
        self.word(&m.name)?;
        self.signature(&m.signature)?;
        match &m.body {
            Some(body) => {
                self.put(" ")?;
                self.list(body.as_slice(), DEEPEST)
            }
            None => Ok(()),
        }
    }

    fn renames(
        &mut self,
        origin: &Option<Name>,
        name: &Word,
        seen: &Option<Visibility>,
        alias: &Option<Word>,
    ) -> Result<(), AllocError> {
        if let Some(class) = origin {
            self.text(&class.text)?;
            self.put("::")?;
        }
        self.word(name)?;
        self.put(" as")?;
        if let Some(visibility) = seen {
            self.put(visibility_word(*visibility))?;
        }
        if let Some(word) = alias {
            self.put(" ")?;
            self.word(word)?;
        }
        Ok(())
    }

    fn prefers(&mut self, origin: &Name, name: &Word, others: &[Name]) -> Result<(), AllocError> {
        self.text(&origin.text)?;
        self.put("::")?;
        self.word(name)?;
        self.put(" insteadof ")?;
        self.names("", others)
    }

    fn rule(&mut self, rule: &Rule) -> Result<(), AllocError> {
        match rule {
            Rule::As(_, origin, name, seen, alias) => self.renames(origin, name, seen, alias),
            Rule::InsteadOf(_, origin, name, others) => {
                self.prefers(origin, name, others.as_slice())
            }
        }
    }

    fn uses(&mut self, names: &[Name], rules: &Option<Items<Rule>>) -> Result<(), AllocError> {
        self.put("use ")?;
        self.names("", names)?;
        let Some(rules) = rules else {
            return Ok(());
        };
        self.put(" {")?;
        let mut is_later = false;
        for rule in rules.as_slice() {
            self.put_if(is_later, "; ")?;
            self.rule(rule)?;
            is_later = true;
        }
        self.put("}")
    }

    fn member(&mut self, member: &ClassMember) -> Result<(), AllocError> {
        match member {
            ClassMember::Use(_, names, rules) => self.uses(names.as_slice(), rules),
            ClassMember::Const(modifiers, items) => {
                self.modifiers(modifiers.as_slice())?;
                self.constant_list(items.as_slice())
            }
            ClassMember::Method(m) => self.method(m),
            ClassMember::Properties(modifiers, items) => {
                self.modifiers(modifiers.as_slice())?;
                self.variables(items.as_slice())
            }
        }
    }

    fn members(&mut self, members: &[ClassMember]) -> Result<(), AllocError> {
        self.put(" {")?;
        let mut is_later = false;
        for member in members {
            self.put_if(is_later, "; ")?;
            self.member(member)?;
            is_later = true;
        }
        self.put("}")
    }

    // Names behind a word, which is left out where there are none.
    fn names_if(&mut self, word: &str, names: &[Name]) -> Result<(), AllocError> {
        self.put_if(!names.is_empty(), word)?;
        self.names("", names)
    }

    pub(crate) fn class(&mut self, class: &ClassDecl) -> Result<(), AllocError> {
        for modifier in class.modifiers.as_slice() {
            self.put(class_word(modifier.1))?;
        }
        self.put("class ")?;
        self.text(&class.name.text)?;
        if let Some(parent) = &class.parent {
            self.put(" extends ")?;
            self.text(&parent.text)?;
        }
        self.names_if(" implements ", class.interfaces.as_slice())?;
        self.members(class.members.as_slice())
    }

    pub(crate) fn interface(&mut self, interface: &InterfaceDecl) -> Result<(), AllocError> {
        self.put("interface ")?;
        self.text(&interface.name.text)?;
        self.names_if(" extends ", interface.parents.as_slice())?;
        self.members(interface.members.as_slice())
    }

    pub(crate) fn trait_declaration(&mut self, t: &TraitDecl) -> Result<(), AllocError> {
        self.put("trait ")?;
        self.text(&t.name.text)?;
        self.members(t.members.as_slice())
    }
}
