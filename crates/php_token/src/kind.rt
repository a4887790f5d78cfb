// What a token is.

/// A keyword of the language, in whatever letter case it was written.
#[derive(Clone, Copy, Debug, PartialEq, Eq)]
pub enum Keyword {
    /// `abstract`
    Abstract,
    /// `and`
    And,
    /// `array`
    Array,
    /// `as`
    As,
    /// `break`
    Break,
    /// `callable`
    Callable,
    /// `case`
    Case,
    /// `catch`
    Catch,
    /// `class`
    Class,
    /// `clone`
    Clone,
    /// `const`
    Const,
    /// `continue`
    Continue,
    /// `declare`
    Declare,
    /// `default`
    Default,
    /// `do`
    Do,
    /// `echo`
    Echo,
    /// `else`
    Else,
    /// `elseif`
    ElseIf,
    /// `empty`
    Empty,
    /// `endfor`
    EndFor,
    /// `endforeach`
    EndForeach,
    /// `endif`
    EndIf,
    /// `endswitch`
    EndSwitch,
    /// `endwhile`
    EndWhile,
    /// `enddeclare`
    EndDeclare,
    /// `eval`
    Eval,
    /// `exit` and `die`
    Exit,
    /// `extends`
    Extends,
    /// `final`
    Final,
    /// `finally`
    Finally,
    /// `for`
    For,
    /// `foreach`
    Foreach,
    /// `function`
    Function,
    /// `global`
    Global,
    /// `goto`
    Goto,
    /// `if`
    If,
    /// `implements`
    Implements,
    /// `include`
    Include,
    /// `include_once`
    IncludeOnce,
    /// `instanceof`
    InstanceOf,
    /// `insteadof`
    InsteadOf,
    /// `interface`
    Interface,
    /// `isset`
    IsSet,
    /// `list`
    List,
    /// `namespace`
    Namespace,
    /// `new`
    New,
    /// `or`
    Or,
    /// `print`
    Print,
    /// `private`
    Private,
    /// `protected`
    Protected,
    /// `public`
    Public,
    /// `require`
    Require,
    /// `require_once`
    RequireOnce,
    /// `return`
    Return,
    /// `static`
    Static,
    /// `switch`
    Switch,
    /// `throw`
    Throw,
    /// `trait`
    Trait,
    /// `try`
    Try,
    /// `unset`
    Unset,
    /// `use`
    Use,
    /// `var`
    Var,
    /// `while`
    While,
    /// `xor`
    Xor,
    /// `yield`
    Yield,
    /// `yield from`, with any blanks between the two words
    YieldFrom,
    /// `__halt_compiler`
    HaltCompiler,
    /// `__CLASS__`
    ClassName,
    /// `__FUNCTION__`
    FunctionName,
    /// `__LINE__`
    LineNumber,
    /// `__METHOD__`
    MethodName,
    /// `__FILE__`
    FileName,
    /// `__DIR__`
    DirectoryName,
    /// `__NAMESPACE__`
    NamespaceName,
    /// `__TRAIT__`
    TraitName,
}

/// A punctuator.
#[derive(Clone, Copy, Debug, PartialEq, Eq)]
pub enum Punct {
    /// `[`
    LeftBracket,
    /// `]`
    RightBracket,
    /// `(`
    LeftParen,
    /// `)`
    RightParen,
    /// `{`
    LeftBrace,
    /// `}`
    RightBrace,
    /// `.`
    Dot,
    /// `->`
    Arrow,
    /// `++`
    PlusPlus,
    /// `--`
    MinusMinus,
    /// `**`
    StarStar,
    /// `*`
    Star,
    /// `+`
    Plus,
    /// `-`
    Minus,
    /// `~`
    Tilde,
    /// `!`
    Bang,
    /// `/`
    Slash,
    /// `%`
    Percent,
    /// `<<`
    ShiftLeft,
    /// `>>`
    ShiftRight,
    /// `<`
    Less,
    /// `>`
    Greater,
    /// `<=`
    LessEqual,
    /// `>=`
    GreaterEqual,
    /// `==`
    EqualEqual,
    /// `===`
    Identical,
    /// `!=`
    NotEqual,
    /// `!==`
    NotIdentical,
    /// `<>`
    LessGreater,
    /// `<=>`
    Spaceship,
    /// `^`
    Caret,
    /// `|`
    Bar,
    /// `&`
    Ampersand,
    /// `&&`
    AndAnd,
    /// `||`
    BarBar,
    /// `?`
    Question,
    /// `:`
    Colon,
    /// `;`
    Semicolon,
    /// `=`
    Assign,
    /// `**=`
    PowerAssign,
    /// `*=`
    StarAssign,
    /// `/=`
    SlashAssign,
    /// `%=`
    PercentAssign,
    /// `+=`
    PlusAssign,
    /// `-=`
    MinusAssign,
    /// `.=`
    DotAssign,
    /// `<<=`
    ShiftLeftAssign,
    /// `>>=`
    ShiftRightAssign,
    /// `&=`
    AmpersandAssign,
    /// `^=`
    CaretAssign,
    /// `|=`
    BarAssign,
    /// `,`
    Comma,
    /// `??`
    QuestionQuestion,
    /// `=>`
    DoubleArrow,
    /// `::`
    DoubleColon,
    /// `...`
    Ellipsis,
    /// `@`
    At,
}

/// A cast, a type's name in parentheses.
#[derive(Clone, Copy, Debug, PartialEq, Eq)]
pub enum Cast {
    /// `(int)` and `(integer)`
    Int,
    /// `(bool)` and `(boolean)`
    Bool,
    /// `(string)`
    Str,
    /// `(array)`
    Arr,
    /// `(float)`, `(double)`, `(real)`, `(object)`, `(unset)` and `(binary)`, which no script may use
    Other,
}

/// The kind of a token.
#[derive(Clone, Copy, Debug, PartialEq, Eq)]
pub enum TokenKind {
    /// Bytes outside the tags, written as they are.
    Inline,
    /// A name that is no keyword.
    Name,
    /// A keyword.
    Keyword(Keyword),
    /// `$` and a name.
    Variable,
    /// An integer literal.
    Int,
    /// A text literal without parts.
    Str,
    /// The start of a template, a text literal with parts.
    Quote,
    /// Bytes of a template.
    Piece,
    /// The start of a part of a template. The tokens of an expression follow.
    Part,
    /// The end of a part.
    EndPart,
    /// The end of a template.
    Unquote,
    /// A punctuator.
    Punct(Punct),
    /// A cast.
    Cast(Cast),
}
