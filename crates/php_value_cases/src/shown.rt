// Answers as texts.

use php_base::NoMemory;
use php_value::{ErrorKind, Fault, Key, Scalar, Stopped};
use std::alloc::{AllocError, Global};

pub(crate) fn shown_bytes(alloc: Global, bytes: &[u8]) -> Result<String, AllocError> {
    let mut shown = String::new(alloc);
    shown.push('"')?;
    for byte in bytes {
        put_byte(alloc, &mut shown, *byte)?;
    }
    shown.push('"')?;
    Ok(shown)
}

fn put_byte(alloc: Global, shown: &mut String, byte: u8) -> Result<(), AllocError> {
    match byte {
        32..=126 => shown.push(byte as char),
        _ => {
            let number = format!(in alloc; "\\x{byte:02x}")?;
            shown.push_str(number.as_str())
        }
    }
}

pub(crate) fn shown_value(alloc: Global, value: &Scalar) -> Result<String, NoMemory> {
    Ok(match value {
        Scalar::Null => String::from_str(alloc, "null")?,
        Scalar::Bool(b) => format!(in alloc; "{b}")?,
        Scalar::Int(int) => format!(in alloc; "{int}")?,
        Scalar::Str(text) => shown_bytes(alloc, text.bytes())?,
    })
}

pub(crate) fn shown_key(alloc: Global, key: &Key) -> Result<String, NoMemory> {
    Ok(match key {
        Key::Int(int) => format!(in alloc; "{int}")?,
        Key::Str(text) => shown_bytes(alloc, text.bytes())?,
    })
}

pub(crate) fn shown_fault(alloc: Global, fault: Fault) -> Result<String, NoMemory> {
    Ok(format!(in alloc; "fault {fault:?}")?)
}

pub(crate) fn shown_bool(alloc: Global, is_so: bool) -> Result<String, NoMemory> {
    Ok(format!(in alloc; "{is_so}")?)
}

// The errors that operators throw.
const THROWN: [(ErrorKind, &str); 5] = [
    (ErrorKind::UNSUPPORTED_OPERANDS, "UNSUPPORTED_OPERANDS"),
    (ErrorKind::NOT_COUNTABLE, "NOT_COUNTABLE"),
    (ErrorKind::DIVISION_BY_ZERO, "DIVISION_BY_ZERO"),
    (ErrorKind::ARITHMETIC, "ARITHMETIC"),
    (ErrorKind::TYPE_MISMATCH, "TYPE_MISMATCH"),
];

fn name_of(kind: ErrorKind) -> &'static str {
    for (thrown, name) in &THROWN {
        if *thrown == kind {
            return name;
        }
    }
    "another error"
}

pub(crate) fn shown_outcome(
    alloc: Global,
    outcome: Result<Scalar, Stopped>,
) -> Result<String, NoMemory> {
    match outcome {
        Ok(value) => shown_value(alloc, &value),
        Err(Stopped::Fault(fault)) => shown_fault(alloc, fault),
        Err(Stopped::Throws(kind)) => Ok(format!(in alloc; "throws {}", name_of(kind))?),
        Err(Stopped::NoMemory) => Err(NoMemory),
    }
}
