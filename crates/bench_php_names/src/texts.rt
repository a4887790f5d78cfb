// The scripts that are checked.

use php_bench_texts::LONGEST;
use std::alloc::Global;
use std::io;

/// How scripts of one form are written: `begin`, then links, then `end`. In a link `#` stands for its number, from 0.
#[derive(Clone, Copy)]
pub struct Form {
    pub name: &'static str,
    /// The most links that are measured.
    pub most: usize,
    begin: &'static [u8],
    link: &'static [u8],
    end: &'static [u8],
}

/// Ordinary code: functions, a class, loops and texts, about as often as they are met.
const ORDINARY: &[u8] = b"
function total#(array $prices, int $least = 10): int
{
    $sum = 0;
    foreach ($prices as $name => $price) {
        if ($price < $least || !isset($prices[$name])) {
            continue;
        }
        $sum += $price * 2 + strlen($name);
        echo \"$name costs $price\", PHP_EOL;
    }
    return $sum;
}

class Basket# extends Shelf implements Countable
{
    private $items = [], $open = true;

    public function add(string $name, $price = null)
    {
        try {
            $this->items[$name] = $price ?? $this->find($name)->price;
        } catch (Missing $e) {
            throw new Refused('no ' . $name, 1, $e);
        }
        return $this;
    }

    public function count(): int
    {
        return count($this->items);
    }
}

for ($i = 0; $i < 10; $i++) {
    $basket = new Basket#();
    $basket->add('tea', $i)->add('milk', 2 * $i);
    switch ($basket->count() % 3) {
        case 0: echo 'none'; break;
        case 1: echo 'one'; break;
        default: echo 'more';
    }
}
";

fn numbered(
    name: &'static str,
    most: usize,
    begin: &'static [u8],
    link: &'static [u8],
    end: &'static [u8],
) -> Form {
    Form {
        name,
        most,
        begin,
        link,
        end,
    }
}

/// The forms. The first one about fills the longest script; of names there are as many as a script may have.
pub fn forms() -> [Form; 8] {
    [
        numbered("ordinary code", 1_020, b"", ORDINARY, b""),
        numbered("one variable again and again", 200_000, b"", b"$v;", b""),
        numbered("different variables", 65_535, b"", b"$v#;", b""),
        numbered("different constants", 65_535, b"", b"c#;", b""),
        numbered("functions", 50_000, b"", b"function f#(){}", b""),
        numbered(
            "methods of one class",
            20_000,
            b"class A{",
            b"function m#(){}",
            b"}",
        ),
        numbered(
            "properties of one class",
            20_000,
            b"class A{",
            b"public $p#;",
            b"}",
        ),
        numbered(
            "constants of one class",
            20_000,
            b"class A{",
            b"const C#=1;",
            b"}",
        ),
    ]
}

impl Form {
    fn link(&self, alloc: Global, number: usize) -> io::Result<Vec<u8>> {
        let digits = format!(in alloc; "{number}")?;
        let mut link = Vec::new(alloc);
        for byte in self.link {
            if *byte == b'#' {
                link.extend_from_slice(digits.as_bytes())?;
            } else {
                link.push(*byte)?;
            }
        }
        Ok(link)
    }

    /// A script of so many links, or of as many as fit into the longest one.
    pub fn script(&self, alloc: Global, links: usize) -> io::Result<Vec<u8>> {
        let end = self.end.len().saturating_add(1);
        let mut script = Vec::new(alloc);
        script.extend_from_slice(b"<?php ")?;
        script.extend_from_slice(self.begin)?;
        for number in 0..links {
            let link = self.link(alloc, number)?;
            if LONGEST.saturating_sub(script.len()) < link.len().saturating_add(end) {
                break;
            }
            script.extend_from_slice(&link)?;
        }
        script.extend_from_slice(self.end)?;
        script.extend_from_slice(b";")?;
        Ok(script)
    }
}
