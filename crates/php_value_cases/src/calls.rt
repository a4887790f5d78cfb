// The calls that a case can ask for.

use crate::shown::{shown_bool, shown_bytes, shown_fault, shown_key, shown_outcome, shown_value};
use crate::words::{Word, bytes_of, integer, next_word, scalar};
use indexmap::IndexMap;
use php_base::NoMemory;
use php_value::{
    Op, Scalar, ScalarType, Text, arith, coerce, complement, count_down, count_up, key_of, loose,
    numeric_form, order, strict, to_bool, to_int, to_text,
};
use php_value_callers::{add, count_key, sort_by_order};
use std::alloc::Global;

/// What is answered of a case.
pub(crate) fn answer_of(alloc: Global, asked: &str) -> Result<String, NoMemory> {
    let (first, rest) = next_word(asked);
    let (second, last) = next_word(rest);
    if let Word::Plain(sign) = second {
        let (third, _) = next_word(last);
        if let Some(op) = operator(sign) {
            return binary(alloc, op, first, third);
        }
        if matches!(sign, "==" | "===" | "<=>") {
            return compared(alloc, sign, first, third);
        }
    }
    match first {
        Word::Plain(name) => further(alloc, name, second, last, rest),
        Word::Quoted(_) => unknown(alloc),
    }
}

fn unknown(alloc: Global) -> Result<String, NoMemory> {
    Ok(format!(in alloc; "no call")?)
}

fn operator(sign: &str) -> Option<Op> {
    Some(match sign {
        "+" => Op::Add,
        "-" => Op::Sub,
        "*" => Op::Mul,
        "**" => Op::Pow,
        "/" => Op::Div,
        "%" => Op::Mod,
        "<<" => Op::Shl,
        ">>" => Op::Shr,
        "&" => Op::And,
        "|" => Op::Or,
        "^" => Op::Xor,
        "." => Op::Concat,
        _ => return None,
    })
}

fn binary(alloc: Global, op: Op, left: Word<'_>, right: Word<'_>) -> Result<String, NoMemory> {
    let left = scalar(alloc, left)?;
    let right = scalar(alloc, right)?;
    shown_outcome(alloc, arith(alloc, op, &left, &right))
}

// `==`, `===` and `<=>`.
fn compared(
    alloc: Global,
    sign: &str,
    left: Word<'_>,
    right: Word<'_>,
) -> Result<String, NoMemory> {
    let left = scalar(alloc, left)?;
    let right = scalar(alloc, right)?;
    match sign {
        "===" => shown_bool(alloc, strict(&left, &right)),
        "==" => match loose(&left, &right) {
            Ok(is_same) => shown_bool(alloc, is_same),
            Err(fault) => shown_fault(alloc, fault),
        },
        _ => match order(&left, &right) {
            Ok(found) => Ok(format!(in alloc; "{found:?}")?),
            Err(fault) => shown_fault(alloc, fault),
        },
    }
}

// What is made of more than one value, or of a value and something else.
fn further(
    alloc: Global,
    name: &str,
    first: Word<'_>,
    last: &str,
    all: &str,
) -> Result<String, NoMemory> {
    let (second, _) = next_word(last);
    match name {
        "strictly" => coerced(alloc, true, first, second),
        "as" => coerced(alloc, false, first, second),
        "sum" => summed(alloc, integer(first), integer(second)),
        "append" => appended(alloc, first, second),
        "long" => joined(alloc, integer(first), integer(second)),
        "keys" => counted(alloc, all),
        "sort" => sorted(alloc, all),
        "form" => form(alloc, first),
        _ => alone(alloc, name, scalar(alloc, first)?),
    }
}

// What is made of one value.
fn alone(alloc: Global, name: &str, value: Scalar) -> Result<String, NoMemory> {
    match name {
        "~" => shown_outcome(alloc, complement(alloc, &value)),
        "++" => shown_outcome(alloc, count_up(&value)),
        "--" => shown_outcome(alloc, count_down(&value)),
        "bool" => shown_bool(alloc, to_bool(&value)),
        "int" => match to_int(&value) {
            Ok(int) => Ok(format!(in alloc; "{int}")?),
            Err(fault) => shown_fault(alloc, fault),
        },
        "text" => Ok(shown_bytes(alloc, to_text(alloc, &value)?.bytes())?),
        "share" => shown_value(alloc, &value.share()?),
        "key" => shown_key(alloc, &key_of(value)),
        _ => unknown(alloc),
    }
}

// `as TYPE VALUE`, and `strictly` the same where types are strict.
fn coerced(
    alloc: Global,
    is_strict: bool,
    declared: Word<'_>,
    value: Word<'_>,
) -> Result<String, NoMemory> {
    let declared = match declared {
        Word::Plain("int") => ScalarType::Int,
        Word::Plain("string") => ScalarType::Str,
        Word::Plain("bool") => ScalarType::Bool,
        _ => return unknown(alloc),
    };
    let value = scalar(alloc, value)?;
    shown_outcome(alloc, coerce(alloc, declared, is_strict, &value))
}

// `form TEXT`: what the text is as a number.
fn form(alloc: Global, text: Word<'_>) -> Result<String, NoMemory> {
    let Word::Quoted(text) = text else {
        return unknown(alloc);
    };
    let bytes = bytes_of(alloc, text)?;
    Ok(format!(in alloc; "{:?}", numeric_form(bytes.as_slice()))?)
}

// `append TEXT TEXT`: the longer text, the first one beside it, and the two once more where nobody else has the first.
fn appended(alloc: Global, first: Word<'_>, second: Word<'_>) -> Result<String, NoMemory> {
    let (Word::Quoted(first), Word::Quoted(second)) = (first, second) else {
        return unknown(alloc);
    };
    let more = bytes_of(alloc, second)?;
    let text = Text::from_vec(alloc, bytes_of(alloc, first)?)?;
    let shared = text.share()?;
    let longer = shown_bytes(alloc, text.append(alloc, more.as_slice())?.bytes())?;
    let kept = shown_bytes(alloc, shared.bytes())?;
    let own = shown_bytes(alloc, shared.append(alloc, more.as_slice())?.bytes())?;
    Ok(format!(in alloc; "{longer} {kept} {own}")?)
}

fn zeros(alloc: Global, bytes: i64) -> Result<Scalar, NoMemory> {
    let count = usize::try_from(bytes).unwrap_or(0).min(16_777_216);
    let zeros = vec![in alloc; 0; count]?;
    Ok(Scalar::Str(Text::from_vec(alloc, zeros)?))
}

// `long N M`: how many bytes two texts of so many bytes have together.
fn joined(alloc: Global, left: i64, right: i64) -> Result<String, NoMemory> {
    let left = zeros(alloc, left)?;
    let right = zeros(alloc, right)?;
    match arith(alloc, Op::Concat, &left, &right) {
        Ok(Scalar::Str(whole)) => Ok(format!(in alloc; "{}", whole.bytes().len())?),
        other => shown_outcome(alloc, other),
    }
}

// `sum N M`: by the caller of `+`.
fn summed(alloc: Global, x: i64, y: i64) -> Result<String, NoMemory> {
    match add(alloc, x, y) {
        Ok(sum) => Ok(format!(in alloc; "{sum}")?),
        Err(fault) => shown_fault(alloc, fault),
    }
}

// `keys VALUE ..`: each key with the number of values that stand for it.
fn counted(alloc: Global, all: &str) -> Result<String, NoMemory> {
    let mut counts = IndexMap::new(alloc);
    let mut rest = all;
    for _ in 0..all.len() {
        if rest.is_empty() {
            break;
        }
        let (value, more) = next_word(rest);
        count_key(&mut counts, scalar(alloc, value)?)?;
        rest = more;
    }
    let mut shown = String::new(alloc);
    for (key, count) in &counts {
        let key = shown_key(alloc, key)?;
        let entry = format!(in alloc; " {key}:{count}")?;
        shown.push_str(entry.as_str())?;
    }
    Ok(format!(in alloc; "counts{shown}")?)
}

// `sort INTEGER ..`: the integers in order.
fn sorted(alloc: Global, all: &str) -> Result<String, NoMemory> {
    let mut values = Vec::new(alloc);
    for word in all.split(' ') {
        values.push(integer(Word::Plain(word)))?;
    }
    sort_by_order(&mut values)?;
    Ok(format!(in alloc; "{values:?}")?)
}
