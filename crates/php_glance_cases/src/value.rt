// Values that are looked at, as a case writes them.

use php_base::NoMemory;
use php_memdef::{Obj, Peek};
use php_value::Text;
use std::alloc::Global;

#[derive(Drop)]
pub(crate) enum Value {
    Missing,
    Null,
    Bool(bool),
    Int(i64),
    Str(Text),
    /// An array of so many entries.
    Arr(usize),
    Obj(Obj),
}

impl Value {
    pub(crate) fn peek(&self) -> Peek<'_> {
        match self {
            Value::Missing => Peek::Absent,
            Value::Null => Peek::Null,
            Value::Bool(b) => Peek::Bool(*b),
            Value::Int(i) => Peek::Int(*i),
            Value::Str(text) => Peek::Str(text),
            Value::Arr(entries) => Peek::Arr(*entries),
            Value::Obj(obj) => Peek::Obj(*obj),
        }
    }
}

/// The value that a case writes so.
pub(crate) fn value_of(alloc: Global, word: &str) -> Result<Value, NoMemory> {
    if let Some(rest) = word.strip_prefix('"') {
        let text = rest.strip_suffix('"').unwrap_or(rest);
        return Ok(Value::Str(Text::from_bytes(alloc, text.as_bytes())?));
    }
    if let Some(entries) = word.strip_prefix('[') {
        return Ok(Value::Arr(entries.parse::<usize>().unwrap_or(0)));
    }
    if let Some(number) = word.strip_prefix('#') {
        return Ok(Value::Obj(Obj(number.parse::<u64>().unwrap_or(0))));
    }
    Ok(match word {
        "missing" => Value::Missing,
        "null" => Value::Null,
        "true" => Value::Bool(true),
        "false" => Value::Bool(false),
        _ => Value::Int(word.parse::<i64>().unwrap_or(0)),
    })
}
