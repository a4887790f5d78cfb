// Texts and their printed tokens, written from the rules.

ghost use Rattle.std.specs.Prelude.{◌≤◌, length};

use php_lex::{TokenKind, lex};
use std::alloc::{AllocError, Global};
use std::process::Abort;
use std::test::Fail;

// Each text, and a line for each of its tokens: the kind, the text or the int, and the line. A fault is printed alone.
const FIRST_TEXTS: [(&[u8], &str); 48] = [
    (b"", ""),
    (b"a<?b", "Inline a<?b 1\n"),
    (
        b"<?=1?>",
        "Keyword(Echo) echo 1\nInt 1 1\nPunct(Semicolon) ; 1\n",
    ),
    (b"<?phpx", "Inline <?phpx 1\n"),
    (b"<?PHP", ""),
    (b"<?php\r\n$a", "Variable a 2\n"),
    (b"<?php\r$a", "Variable a 1\n"),
    (b"<?php ?>\nb", "Punct(Semicolon) ; 1\nInline b 2\n"),
    (b"<?php ?>\r\n\n", "Punct(Semicolon) ; 1\nInline \\x0a 2\n"),
    (b"<?php #c?>d", "Punct(Semicolon) ; 1\nInline d 1\n"),
    (b"<?php //c?\n$a", "Variable a 2\n"),
    (b"<?php #c\r$a", "Variable a 1\n"),
    (b"<?php /**/$a/* \n*/$b", "Variable a 1\nVariable b 2\n"),
    (b"<?php \n/* \n*", "Unclosed(2)"),
    (
        b"<?php WHILE DIE __line__",
        "Keyword(While) WHILE 1\nKeyword(Exit) DIE 1\nKeyword(LineNumber) __line__ 1\n",
    ),
    (
        b"<?php whiles _a1 True",
        "Name whiles 1\nName _a1 1\nName True 1\n",
    ),
    (b"<?php \xc8\x80", "Name \\xc8\\x80 1\n"),
    (b"<?php $while", "Variable while 1\n"),
    (b"<?php $1", "BadByte(1)"),
    (
        b"<?php yield \nFROM $a",
        "Keyword(YieldFrom) yield \\x0aFROM 1\nVariable a 2\n",
    ),
    (
        b"<?php yield fromx",
        "Keyword(Yield) yield 1\nName fromx 1\n",
    ),
    (b"<?php yieldfrom", "Name yieldfrom 1\n"),
    (
        b"<?php 0 017 0x1F 0B11",
        "Int 0 1\nInt 15 1\nInt 31 1\nInt 3 1\n",
    ),
    (b"<?php 9223372036854775807", "Int 9223372036854775807 1\n"),
    (b"<?php 9223372036854775808", "IntTooLarge(1)"),
    (b"<?php 0x8000000000000000", "IntTooLarge(1)"),
    (b"<?php 08", "BadByte(1)"),
    (b"<?php 1.5", "FloatLiteral(1)"),
    (b"<?php 1...$a", "FloatLiteral(1)"),
    (b"<?php 09.5", "FloatLiteral(1)"),
    (b"<?php .5", "FloatLiteral(1)"),
    (b"<?php 1E+2", "FloatLiteral(1)"),
    (b"<?php 99999999999999999999.0", "FloatLiteral(1)"),
    (b"<?php 1e", "Int 1 1\nName e 1\n"),
    (b"<?php 0x", "Int 0 1\nName x 1\n"),
    (
        b"<?php ===!==<=>**=...->=>",
        "Punct(Identical) === 1\nPunct(NotIdentical) !== 1\nPunct(Spaceship) <=> 1\nPunct(PowerAssign) **= 1\nPunct(Ellipsis) ... 1\nPunct(Arrow) -> 1\nPunct(DoubleArrow) => 1\n",
    ),
    (
        b"<?php $a..$b",
        "Variable a 1\nPunct(Dot) . 1\nPunct(Dot) . 1\nVariable b 1\n",
    ),
    (
        b"<?php <>!=",
        "Punct(LessGreater) <> 1\nPunct(NotEqual) != 1\n",
    ),
    (
        b"<?php ( Int\t)(ARRAY)(float)(int8)",
        "Cast(Int) ( Int\\x09) 1\nCast(Arr) (ARRAY) 1\nCast(Other) (float) 1\nPunct(LeftParen) ( 1\nName int8 1\nPunct(RightParen) ) 1\n",
    ),
    (b"<?php `", "BadByte(1)"),
    (b"<?php 'it\\'s\\\\n\\n'", "Str it's\\n\\n 1\n"),
    (b"<?php \n'a\\'\n", "Unclosed(2)"),
    (
        b"<?php \"\\n\\t\\r\\v\\e\\f\\\\\\$\\\"\"",
        "Str \\x0a\\x09\\x0d\\x0b\\x1b\\x0c\\$\" 1\n",
    ),
    (b"<?php \"\\7\\101\\4011\"", "Str \\x07A\\x011 1\n"),
    (b"<?php \"\\x41\\X4g\\xg\"", "Str A\\x04g\\xg 1\n"),
    (
        b"<?php \"\\u{e9}\\u{D800}\\u{10FFFF}\"",
        "Str \\xc3\\xa9\\xed\\xa0\\x80\\xf4\\x8f\\xbf\\xbf 1\n",
    ),
    (b"<?php \"\\u{110000}\"", "BadEscape(1)"),
    (b"<?php \"\\u{}\"", "BadEscape(1)"),
];

const SECOND_TEXTS: [(&[u8], &str); 48] = [
    (b"<?php \n\"a\\u{41", "Unclosed(2)"),
    (b"<?php \"\\q\\u\"", "Str \\q\\u 1\n"),
    (b"<?php \n\"a\n", "Unclosed(2)"),
    (b"<?php \"$1{a$\"", "Str $1{a$ 1\n"),
    (
        b"<?php \"a$x b\"",
        "Quote  1\nPiece a 1\nPart  1\nVariable x 1\nEndPart  1\nPiece  b 1\nUnquote  1\n",
    ),
    (
        b"<?php \"$x->class->y\"",
        "Quote  1\nPart  1\nVariable x 1\nPunct(Arrow) -> 1\nKeyword(Class) class 1\nEndPart  1\nPiece ->y 1\nUnquote  1\n",
    ),
    (
        b"<?php \"$x->1\"",
        "Quote  1\nPart  1\nVariable x 1\nEndPart  1\nPiece ->1 1\nUnquote  1\n",
    ),
    (
        b"<?php \"$x[list]\"",
        "Quote  1\nPart  1\nVariable x 1\nPunct(LeftBracket) [ 1\nStr list 1\nPunct(RightBracket) ] 1\nEndPart  1\nUnquote  1\n",
    ),
    (
        b"<?php \"$x[$k]\"",
        "Quote  1\nPart  1\nVariable x 1\nPunct(LeftBracket) [ 1\nVariable k 1\nPunct(RightBracket) ] 1\nEndPart  1\nUnquote  1\n",
    ),
    (
        b"<?php \"$x[12]\"",
        "Quote  1\nPart  1\nVariable x 1\nPunct(LeftBracket) [ 1\nInt 12 1\nPunct(RightBracket) ] 1\nEndPart  1\nUnquote  1\n",
    ),
    (
        b"<?php \"$x[-12]\"",
        "Quote  1\nPart  1\nVariable x 1\nPunct(LeftBracket) [ 1\nInt -12 1\nPunct(RightBracket) ] 1\nEndPart  1\nUnquote  1\n",
    ),
    (
        b"<?php \"$x[0]\"",
        "Quote  1\nPart  1\nVariable x 1\nPunct(LeftBracket) [ 1\nInt 0 1\nPunct(RightBracket) ] 1\nEndPart  1\nUnquote  1\n",
    ),
    (
        b"<?php \"$x[-0]\"",
        "Quote  1\nPart  1\nVariable x 1\nPunct(LeftBracket) [ 1\nStr -0 1\nPunct(RightBracket) ] 1\nEndPart  1\nUnquote  1\n",
    ),
    (
        b"<?php \"$x[08]\"",
        "Quote  1\nPart  1\nVariable x 1\nPunct(LeftBracket) [ 1\nStr 08 1\nPunct(RightBracket) ] 1\nEndPart  1\nUnquote  1\n",
    ),
    (
        b"<?php \"$x[0x1F]\"",
        "Quote  1\nPart  1\nVariable x 1\nPunct(LeftBracket) [ 1\nStr 0x1F 1\nPunct(RightBracket) ] 1\nEndPart  1\nUnquote  1\n",
    ),
    (
        b"<?php \"$x[9223372036854775808]\"",
        "Quote  1\nPart  1\nVariable x 1\nPunct(LeftBracket) [ 1\nStr 9223372036854775808 1\nPunct(RightBracket) ] 1\nEndPart  1\nUnquote  1\n",
    ),
    (
        b"<?php \"$x[-9223372036854775808]\"",
        "Quote  1\nPart  1\nVariable x 1\nPunct(LeftBracket) [ 1\nInt -9223372036854775808 1\nPunct(RightBracket) ] 1\nEndPart  1\nUnquote  1\n",
    ),
    (b"<?php \"$x[1.5]\"", "BadEscape(1)"),
    (b"<?php \"$x[ 1]\"", "BadEscape(1)"),
    (b"<?php \"$x[", "Unclosed(1)"),
    (
        b"<?php \"{$x[{1}]}\"",
        "Quote  1\nPart  1\nVariable x 1\nPunct(LeftBracket) [ 1\nPunct(LeftBrace) { 1\nInt 1 1\nPunct(RightBrace) } 1\nPunct(RightBracket) ] 1\nEndPart  1\nUnquote  1\n",
    ),
    (b"<?php \"\n{$x\n", "Unclosed(2)"),
    (
        b"<?php \"\\{$x}\"",
        "Quote  1\nPiece \\{ 1\nPart  1\nVariable x 1\nEndPart  1\nPiece } 1\nUnquote  1\n",
    ),
    (
        b"<?php \"${n}\"",
        "Quote  1\nPart  1\nVariable n 1\nEndPart  1\nUnquote  1\n",
    ),
    (
        b"<?php \"${n[ [1] ]}\"",
        "Quote  1\nPart  1\nVariable n 1\nPunct(LeftBracket) [ 1\nPunct(LeftBracket) [ 1\nInt 1 1\nPunct(RightBracket) ] 1\nPunct(RightBracket) ] 1\nEndPart  1\nUnquote  1\n",
    ),
    (b"<?php \"${ n}\"", "BadEscape(1)"),
    (b"<?php \"${n[1] }\"", "BadEscape(1)"),
    (
        b"<?php \"{$x?>y<?php }\"",
        "Quote  1\nPart  1\nVariable x 1\nPunct(Semicolon) ; 1\nInline y 1\nEndPart  1\nUnquote  1\n",
    ),
    (
        b"<?php <<<E\na\\x41\nE;\n",
        "Str aA 1\nPunct(Semicolon) ; 3\n",
    ),
    (b"<?php <<< \"E\"\r\na\r\nE", "Str a 1\n"),
    (b"<?php <<<E\nE\n", "Str  1\n"),
    (b"<?php <<<E\n E\nE\n", "Str  E 1\n"),
    (b"<?php <<<E\nEE\nE\n", "Str EE 1\n"),
    (
        b"<?php <<<E\n$x\nE;",
        "Quote  1\nPart  2\nVariable x 2\nEndPart  2\nUnquote  2\nPunct(Semicolon) ; 3\n",
    ),
    (b"<?php <<<E\n\\\"\nE", "Str \\\" 1\n"),
    (b"<?php \n<<<E\na E\n", "Unclosed(2)"),
    (
        b"<?php <<<'E'\n$x\\n\nE;",
        "Str $x\\n 1\nPunct(Semicolon) ; 3\n",
    ),
    (b"<?php \n<<<'E'\nE x", "Unclosed(2)"),
    (
        b"<?php <<<E;",
        "Punct(ShiftLeft) << 1\nPunct(Less) < 1\nName E 1\nPunct(Semicolon) ; 1\n",
    ),
    (
        b"<?php\n$a\r$b\r\n$c",
        "Variable a 2\nVariable b 2\nVariable c 3\n",
    ),
    (
        b"Hello\n<?= 1+2 ?>\nBye",
        "Inline Hello\\x0a 1\nKeyword(Echo) echo 2\nInt 1 2\nPunct(Plus) + 2\nInt 2 2\nPunct(Semicolon) ; 2\nInline Bye 3\n",
    ),
    (
        b"a<?php #c ?>\nb",
        "Inline a 1\nPunct(Semicolon) ; 1\nInline b 2\n",
    ),
    (
        b"<?php echo 'it\\'s', \"\\x41\\u{e9}\";",
        "Keyword(Echo) echo 1\nStr it's 1\nPunct(Comma) , 1\nStr A\\xc3\\xa9 1\nPunct(Semicolon) ; 1\n",
    ),
    (
        b"<?php echo <<<'E'\n$x\nE;\n",
        "Keyword(Echo) echo 1\nStr $x 1\nPunct(Semicolon) ; 3\n",
    ),
    (b"<?php echo \"\\u{110000}\";", "BadEscape(1)"),
    (b"<?php echo 1.5;", "FloatLiteral(1)"),
    (b"<?php echo 'a", "Unclosed(1)"),
    (
        b"<?php echo 'a';",
        "Keyword(Echo) echo 1\nStr a 1\nPunct(Semicolon) ; 1\n",
    ),
];

const THIRD_TEXTS: [(&[u8], &str); 47] = [
    (
        b"<?php\n\n?>\n\n<?php\n$a",
        "Punct(Semicolon) ; 3\nInline \\x0a 4\nVariable a 6\n",
    ),
    (
        b"<?php [](){}",
        "Punct(LeftBracket) [ 1\nPunct(RightBracket) ] 1\nPunct(LeftParen) ( 1\nPunct(RightParen) ) 1\nPunct(LeftBrace) { 1\nPunct(RightBrace) } 1\n",
    ),
    (
        b"<?php . -> ++ -- ** * + - ~ ! / %",
        "Punct(Dot) . 1\nPunct(Arrow) -> 1\nPunct(PlusPlus) ++ 1\nPunct(MinusMinus) -- 1\nPunct(StarStar) ** 1\nPunct(Star) * 1\nPunct(Plus) + 1\nPunct(Minus) - 1\nPunct(Tilde) ~ 1\nPunct(Bang) ! 1\nPunct(Slash) / 1\nPunct(Percent) % 1\n",
    ),
    (
        b"<?php << >> < > <= >= == === != !== <> <=>",
        "Punct(ShiftLeft) << 1\nPunct(ShiftRight) >> 1\nPunct(Less) < 1\nPunct(Greater) > 1\nPunct(LessEqual) <= 1\nPunct(GreaterEqual) >= 1\nPunct(EqualEqual) == 1\nPunct(Identical) === 1\nPunct(NotEqual) != 1\nPunct(NotIdentical) !== 1\nPunct(LessGreater) <> 1\nPunct(Spaceship) <=> 1\n",
    ),
    (
        b"<?php ^ | & && || ? : ; =",
        "Punct(Caret) ^ 1\nPunct(Bar) | 1\nPunct(Ampersand) & 1\nPunct(AndAnd) && 1\nPunct(BarBar) || 1\nPunct(Question) ? 1\nPunct(Colon) : 1\nPunct(Semicolon) ; 1\nPunct(Assign) = 1\n",
    ),
    (
        b"<?php **= *= /= %= += -= .= <<= >>= &= ^= |=",
        "Punct(PowerAssign) **= 1\nPunct(StarAssign) *= 1\nPunct(SlashAssign) /= 1\nPunct(PercentAssign) %= 1\nPunct(PlusAssign) += 1\nPunct(MinusAssign) -= 1\nPunct(DotAssign) .= 1\nPunct(ShiftLeftAssign) <<= 1\nPunct(ShiftRightAssign) >>= 1\nPunct(AmpersandAssign) &= 1\nPunct(CaretAssign) ^= 1\nPunct(BarAssign) |= 1\n",
    ),
    (
        b"<?php , ?? => :: ... @",
        "Punct(Comma) , 1\nPunct(QuestionQuestion) ?? 1\nPunct(DoubleArrow) => 1\nPunct(DoubleColon) :: 1\nPunct(Ellipsis) ... 1\nPunct(At) @ 1\n",
    ),
    (
        b"<?php ****=",
        "Punct(StarStar) ** 1\nPunct(PowerAssign) **= 1\n",
    ),
    (
        b"<?php =====",
        "Punct(Identical) === 1\nPunct(EqualEqual) == 1\n",
    ),
    (
        b"<?php ???",
        "Punct(QuestionQuestion) ?? 1\nPunct(Question) ? 1\n",
    ),
    (
        b"<?php $a---$b",
        "Variable a 1\nPunct(MinusMinus) -- 1\nPunct(Minus) - 1\nVariable b 1\n",
    ),
    (
        b"<?php (integer)(bool)(boolean)(string)(double)(real)(object)(unset)(binary)",
        "Cast(Int) (integer) 1\nCast(Bool) (bool) 1\nCast(Bool) (boolean) 1\nCast(Str) (string) 1\nCast(Other) (double) 1\nCast(Other) (real) 1\nCast(Other) (object) 1\nCast(Other) (unset) 1\nCast(Other) (binary) 1\n",
    ),
    (
        b"<?php (int\n)",
        "Punct(LeftParen) ( 1\nName int 1\nPunct(RightParen) ) 2\n",
    ),
    (
        b"<?php 0b101 0B0 0xfF 00",
        "Int 5 1\nInt 0 1\nInt 255 1\nInt 0 1\n",
    ),
    (
        b"<?php 0777777777777777777777",
        "Int 9223372036854775807 1\n",
    ),
    (b"<?php 01000000000000000000000", "IntTooLarge(1)"),
    (b"<?php 0x7fffffffffffffff", "Int 9223372036854775807 1\n"),
    (b"<?php 0b12", "Int 1 1\nInt 2 1\n"),
    (b"<?php 1.", "FloatLiteral(1)"),
    (b"<?php \n1e5", "FloatLiteral(2)"),
    (b"<?php 1e+", "Int 1 1\nName e 1\nPunct(Plus) + 1\n"),
    (b"<?php ...5", "Punct(Ellipsis) ... 1\nInt 5 1\n"),
    (b"<?php \x00", "BadByte(1)"),
    (b"<?php \\", "BadByte(1)"),
    (b"<?php $a\r\n\x01", "BadByte(2)"),
    (b"<?php //\n//\n$a", "Variable a 3\n"),
    (b"<?php /***/ /*/ */$a", "Variable a 1\n"),
    (b"<?php '\n\n' $a", "Str \\x0a\\x0a 1\nVariable a 3\n"),
    (b"<?php 'a\\", "Unclosed(1)"),
    (b"<?php ''", "Str  1\n"),
    (b"<?php \"\"", "Str  1\n"),
    (
        b"<?php \"{$a['k']}$b\"",
        "Quote  1\nPart  1\nVariable a 1\nPunct(LeftBracket) [ 1\nStr k 1\nPunct(RightBracket) ] 1\nEndPart  1\nPart  1\nVariable b 1\nEndPart  1\nUnquote  1\n",
    ),
    (
        b"<?php \"${a['k']}\"",
        "Quote  1\nPart  1\nVariable a 1\nPunct(LeftBracket) [ 1\nStr k 1\nPunct(RightBracket) ] 1\nEndPart  1\nUnquote  1\n",
    ),
    (
        b"<?php \"{$a(\"{$b}\")}\"",
        "Quote  1\nPart  1\nVariable a 1\nPunct(LeftParen) ( 1\nQuote  1\nPart  1\nVariable b 1\nEndPart  1\nUnquote  1\nPunct(RightParen) ) 1\nEndPart  1\nUnquote  1\n",
    ),
    (b"<?php \"$a[0x]\"", "BadEscape(1)"),
    (b"<?php \"$a[-]\"", "BadEscape(1)"),
    (b"<?php \"$a[b\"", "BadEscape(1)"),
    (b"<?php \"${a", "Unclosed(1)"),
    (b"<?php \"{$", "BadByte(1)"),
    (b"<?php \"{$a", "Unclosed(1)"),
    (
        b"<?php <<<A\n$x <<<A\nA;\n",
        "Quote  1\nPart  2\nVariable x 2\nEndPart  2\nPiece  <<<A 2\nUnquote  2\nPunct(Semicolon) ; 3\n",
    ),
    (
        b"<?php <<<A\r\na\r\nb\r\nA\r\n$c",
        "Str a\\x0d\\x0ab 1\nVariable c 5\n",
    ),
    (b"<?php <<<'A'\nA\n", "Str  1\n"),
    (b"<?php <<<A\nA x\n", "Unclosed(1)"),
    (b"<?php <<<A\na\\\nA\n", "Str a\\ 1\n"),
    (
        b"<?php yield\tfrom yield from_ YIELD",
        "Keyword(YieldFrom) yield\\x09from 1\nKeyword(Yield) yield 1\nName from_ 1\nKeyword(Yield) YIELD 1\n",
    ),
    (
        b"<?php self parent null false insteadof __halt_compiler",
        "Name self 1\nName parent 1\nName null 1\nName false 1\nKeyword(InsteadOf) insteadof 1\nKeyword(HaltCompiler) __halt_compiler 1\n",
    ),
];

fn push_bytes(out: &mut String, alloc: Global, bytes: &[u8]) -> Result<(), AllocError> {
    for b in bytes {
        if 32 <= *b && *b < 127 {
            out.push(*b as char)?;
        } else {
            out.push_str(format!(in alloc; "\\x{:02x}", *b)?.as_str())?;
        }
    }
    Ok(())
}

fn printed(alloc: Global, text: &[u8]) -> Result<String, AllocError>
    requires { length text.now ≤ 1048576 }
{
    let mut out = String::new(alloc);
    let tokens = match lex(alloc, text) {
        Ok(tokens) => tokens,
        Err(fault) => return format!(in alloc; "{fault:?}"),
    };
    for at in 0..tokens.len() {
        let kind = tokens.kind(at);
        out.push_str(format!(in alloc; "{kind:?} ")?.as_str())?;
        match kind {
            TokenKind::Int => {
                let int = tokens.int(at);
                out.push_str(format!(in alloc; "{int}")?.as_str())?;
            }
            _ => push_bytes(&mut out, alloc, tokens.text(at))?,
        }
        let line = tokens.line(at);
        out.push_str(format!(in alloc; " {line}\n")?.as_str())?;
    }
    Ok(out)
}

fn check_all(rt: &impl Abort, alloc: Global, texts: &[(&[u8], &str)]) -> Result<(), AllocError> {
    for row in texts {
        assert!(rt; row.0.len() <= 1048576);
        let found = printed(alloc, row.0)?;
        assert_eq!(rt; found.as_str(), row.1);
    }
    Ok(())
}

#[test]
fn first_texts_have_these_tokens(rt: HostRuntime) -> Result<(), Fail> {
    check_all(&rt, rt.alloc(), &FIRST_TEXTS)?;
    Ok(())
}

#[test]
fn second_texts_have_these_tokens(rt: HostRuntime) -> Result<(), Fail> {
    check_all(&rt, rt.alloc(), &SECOND_TEXTS)?;
    Ok(())
}

#[test]
fn third_texts_have_these_tokens(rt: HostRuntime) -> Result<(), Fail> {
    check_all(&rt, rt.alloc(), &THIRD_TEXTS)?;
    Ok(())
}
