// How operators are written.

use php_ast::{ArrayForm, Assign, Binary, Count, Magic, Prefix};

pub(crate) fn binary_characters(op: Binary) -> &'static str {
    match op {
        Binary::Power => "**",
        Binary::Times => "*",
        Binary::Divided => "/",
        Binary::Remainder => "%",
        Binary::Plus => "+",
        Binary::Minus => "-",
        Binary::Concatenated => ".",
        Binary::ShiftedLeft => "<<",
        Binary::ShiftedRight => ">>",
        Binary::Less => "<",
        Binary::LessEqual => "<=",
        Binary::Greater => ">",
        Binary::GreaterEqual => ">=",
        Binary::Equal => "==",
        Binary::NotEqual => "!=",
        Binary::LessGreater => "<>",
        Binary::Identical => "===",
        Binary::NotIdentical => "!==",
        Binary::Compared => "<=>",
        Binary::BitAnd => "&",
        Binary::BitXor => "^",
        Binary::BitOr => "|",
        Binary::LogicalAnd => "&&",
        Binary::LogicalOr => "||",
        Binary::Coalesced => "??",
        Binary::WordAnd => "and",
        Binary::WordXor => "xor",
        Binary::WordOr => "or",
    }
}

pub(crate) fn prefix_characters(op: Prefix) -> &'static str {
    match op {
        Prefix::Clone => "clone",
        Prefix::Increment => "++",
        Prefix::Decrement => "--",
        Prefix::BitNot => "~",
        Prefix::Silence => "@",
        Prefix::ToInt => "(int)",
        Prefix::ToBool => "(bool)",
        Prefix::ToText => "(string)",
        Prefix::ToArray => "(array)",
        Prefix::Plus => "+",
        Prefix::Minus => "-",
        Prefix::Not => "!",
        Prefix::Print => "print",
        Prefix::YieldFrom => "yield from",
    }
}

pub(crate) fn count_characters(count: Count) -> &'static str {
    match count {
        Count::Up => "++",
        Count::Down => "--",
    }
}

pub(crate) fn assign_characters(op: Assign) -> &'static str {
    match op {
        Assign::Plain => "=",
        Assign::Power => "**=",
        Assign::Times => "*=",
        Assign::Divided => "/=",
        Assign::Remainder => "%=",
        Assign::Plus => "+=",
        Assign::Minus => "-=",
        Assign::Concatenated => ".=",
        Assign::ShiftedLeft => "<<=",
        Assign::ShiftedRight => ">>=",
        Assign::BitAnd => "&=",
        Assign::BitXor => "^=",
        Assign::BitOr => "|=",
    }
}

pub(crate) fn magic_word(constant: Magic) -> &'static str {
    match constant {
        Magic::Line => "__LINE__",
        Magic::Class => "__CLASS__",
        Magic::Function => "__FUNCTION__",
        Magic::Method => "__METHOD__",
    }
}

pub(crate) fn array_opening(form: ArrayForm) -> &'static str {
    match form {
        ArrayForm::Brackets => "[",
        ArrayForm::Array => "array[",
        ArrayForm::List => "list[",
    }
}
