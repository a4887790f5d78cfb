ghost use Rattle.std.specs.Prelude.{◌≡◌, ◌+ℤ◌, ◌-ℤ◌, ◌*ℤ◌, false};
ghost use Rattle.php_first_tree.specs.Expression.{atom_view, product_view, sum_view};
ghost use Rattle.php_value.specs.Operator.{arith_of, makes_text};
ghost use Rattle.php_first_run.specs.Evaluation.{calculated, evaluated, value_at};
ghost use Rattle.php_first_run.specs.Scalars.{int_in, scalar_of};

use crate::value::Value;
use php_first_tree::{Atom, Product, Sign, Sum};
use php_value::{Op, Scalar, arith};
use std::alloc::Global;

impl Value {
    fn scalar(self) -> Scalar
        ensures { result ≡ scalar_of self }
    {
        match self {
            Value::Null => Scalar::Null,
            Value::Int(n) => Scalar::Int(n),
        }
    }
}

/// The operation on two numbers. `None` is an overflow. Numbers take no memory.
fn operate(alloc: Global, op: Op, left: Value, right: Value) -> Option<Value>
    requires { makes_text op (scalar_of left) (scalar_of right) ≡ false }
    ensures { result ≡ int_in (arith_of op (scalar_of left) (scalar_of right)) }
{
    match arith(alloc, op, &left.scalar(), &right.scalar()) {
        Ok(Scalar::Int(n)) => Some(Value::Int(n)),
        Ok(_) => None,
        Err(_) => None,
    }
}

fn times(alloc: Global, left: Option<Value>, right: Option<Value>) -> Option<Value>
    ensures { result ≡ calculated ◌*ℤ◌ left right }
{
    operate(alloc, Op::Mul, left?, right?)
}

fn plus(alloc: Global, left: Option<Value>, right: Option<Value>) -> Option<Value>
    ensures { result ≡ calculated ◌+ℤ◌ left right }
{
    operate(alloc, Op::Add, left?, right?)
}

fn minus(alloc: Global, left: Option<Value>, right: Option<Value>) -> Option<Value>
    ensures { result ≡ calculated ◌-ℤ◌ left right }
{
    operate(alloc, Op::Sub, left?, right?)
}

fn variable(values: &[Value], number: usize) -> Value
    ensures { result ≡ value_at values.now number }
{
    values.get(number).copied().unwrap_or(Value::Null)
}

#[cycle(sums)]
fn evaluate_atom(alloc: Global, values: &[Value], atom: &Atom) -> Option<Value>
    ensures { result ≡ evaluated values.now (atom_view atom.now) }
{
    match atom {
        Atom::Int(n) => Some(Value::Int(*n)),
        Atom::Variable(number) => Some(variable(values, *number)),
        Atom::Group(sum) => evaluate(alloc, values, sum.get()),
    }
}

#[cycle(sums)]
fn evaluate_product(alloc: Global, values: &[Value], product: &Product<Atom>) -> Option<Value>
    ensures { result ≡ evaluated values.now (product_view product.now) }
{
    let mut value = evaluate_atom(alloc, values, &product.first);
    for atom in product.rest.as_slice() {
        value = times(alloc, value, evaluate_atom(alloc, values, atom));
    }
    value
}

/// The value of a sum over the values of the variables. `None` is an overflow.
#[cycle(sums)]
pub(crate) fn evaluate(alloc: Global, values: &[Value], sum: &Sum<Atom>) -> Option<Value>
    ensures { result ≡ evaluated values.now (sum_view sum.now) }
{
    let mut value = evaluate_product(alloc, values, &sum.first);
    for term in sum.rest.as_slice() {
        let product = evaluate_product(alloc, values, &term.product);
        value = match term.sign {
            Sign::Plus => plus(alloc, value, product),
            Sign::Minus => minus(alloc, value, product),
        };
    }
    value
}
