// The forms of the scripts that are read, each of one expression.

use php_bench_texts::{Form, RISING, deep, flat};

/// An array of links that nest so deep.
fn array_of(
    name: &'static str,
    depth: usize,
    open: &'static [u8],
    middle: &'static [u8],
    close: &'static [u8],
) -> Form {
    deep(name, depth, open, middle, close, b",").between(b"[", b"]")
}

/// The forms. Inside the array a link may nest 127 deep.
pub(crate) fn forms() -> [Form; 11] {
    [
        flat("run", 1, b"1", b" + 2", b""),
        flat("powers", 4, b"1", b" + 2 * 3 - 4 / 5", b""),
        flat("suffixes", 3, b"$a", b"[1][2]->b", b""),
        flat("array", 1, b"[", b"1,", b"]"),
        flat("keyed", 1, b"[", b"'k'=>$v,", b"]"),
        array_of("nested", 100, b"[", b"1", b"]"),
        flat("arguments", 1, b"f(1", b",$v", b")"),
        flat("parts", 1, b"\"", b"a $b ", b"\""),
        flat("choices", 1, b"1", b" ? 2 : 3", b""),
        array_of("to_right", 127, b"1 ** ", b"1", b""),
        array_of("rising", 127, RISING, b"1", b")"),
    ]
}
