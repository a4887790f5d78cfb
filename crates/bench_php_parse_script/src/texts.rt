// The forms of the scripts that are read.

use php_bench_texts::{Form, RISING, deep, flat};

/// Ordinary code: functions, a class, loops and texts, about as often as they are met.
const ORDINARY: &[u8] = b"
function total(array $prices, int $least = 10): int
{
    $sum = 0;
    foreach ($prices as $name => $price) {
        if ($price < $least || !isset($prices[$name])) {
            continue;
        }
        $sum += $price * 2 + strlen($name);
        echo \"$name costs $price\", PHP_EOL;
    }
    return $sum;
}

class Basket extends Shelf implements Countable
{
    private $items = [], $open = true;

    public function add(string $name, $price = null)
    {
        try {
            $this->items[$name] = $price ?? $this->find($name)->price;
        } catch (Missing $e) {
            throw new Refused('no ' . $name, 1, $e);
        }
        return $this;
    }

    public function count(): int
    {
        return count($this->items);
    }
}

for ($i = 0; $i < 10; $i++) {
    $basket = new Basket();
    $basket->add('tea', $i)->add('milk', 2 * $i);
    switch ($basket->count() % 3) {
        case 0: echo 'none'; break;
        case 1: echo 'one'; break;
        default: echo 'more';
    }
}
";

/// Code that is as long as the longest script at most, and usual in what it has.
pub(crate) fn ordinary() -> Form {
    flat("ordinary", 1, b"", ORDINARY, b"")
}

/// The forms. A link may nest 128 deep.
pub(crate) fn forms() -> [Form; 19] {
    [
        ordinary(),
        flat("assignments", 1, b"", b"$a=1;", b""),
        flat("echoes", 1, b"", b"echo 1,$a;", b""),
        flat("calls", 1, b"", b"f($a,1);", b""),
        flat("loops", 1, b"", b"for($i=0;$i<9;$i++){f($i);}", b""),
        flat("else_if", 1, b"if($a);", b"elseif($a);", b""),
        flat("cases", 1, b"switch($a){", b"case 1:f();", b"}"),
        flat("catches", 1, b"try{}", b"catch(A|B $e){}", b""),
        flat("functions", 1, b"", b"function f($a,$b=1){return $a;}", b""),
        flat(
            "classes",
            1,
            b"",
            b"class A extends B implements C,D{}",
            b"",
        ),
        flat("properties", 1, b"class A{", b"public $a=1,$b;", b"}"),
        flat(
            "methods",
            1,
            b"class A{",
            b"public function f($a){return $a;}",
            b"}",
        ),
        flat("uses", 1, b"class A{", b"use B{B::f as g;}", b"}"),
        flat("inline", 1, b"", b"?>x<?= 1 ", b""),
        deep("blocks", 127, b"{", b";", b"}", b""),
        deep("bodies", 127, b"if(1)", b";", b"", b""),
        deep("else_in_else", 127, b"if(1);else ", b";", b"", b""),
        deep("switches", 127, b"switch(1){case 1:", b";", b"}", b""),
        deep("rising", 127, RISING, b"1", b")", b";"),
    ]
}
