ghost use Rattle.std.specs.Prelude.{◌≡◌, ◌≢◌, pos};
ghost use Rattle.jp_store.specs.Arith as spec;
ghost use Rattle.jp_store.specs.Arith.{on_numbers, divided};

use crate::{BinaryOp, Outcome, Test, TrapKind, Value};

fn sum_of(x: i32, y: i32) -> i32
    ensures { result ≡ spec.sum_of x y }
{
    x.wrapping_add(y)
}

fn difference_of(x: i32, y: i32) -> i32
    ensures { result ≡ spec.difference_of x y }
{
    x.wrapping_sub(y)
}

fn product_of(x: i32, y: i32) -> i32
    ensures { result ≡ spec.product_of x y }
{
    x.wrapping_mul(y)
}

fn quotient_of(x: i32, y: i32) -> i32
    requires { y ≢ pos 0 }
    ensures { result ≡ spec.quotient_of x y }
{
    x.wrapping_div(y)
}

fn remainder_of(x: i32, y: i32) -> i32
    requires { y ≢ pos 0 }
    ensures { result ≡ spec.remainder_of x y }
{
    x.wrapping_rem(y)
}

fn negation_of(x: i32) -> i32
    ensures { result ≡ spec.negation_of x }
{
    x.wrapping_neg()
}

fn distance_of(y: i32) -> u32
    ensures { result ≡ spec.distance_of y }
{
    y.cast_unsigned() % 32
}

fn shifted_left(x: i32, y: i32) -> i32
    ensures { result ≡ spec.shifted_left x y }
{
    x << distance_of(y)
}

fn shifted_right(x: i32, y: i32) -> i32
    ensures { result ≡ spec.shifted_right x y }
{
    x >> distance_of(y)
}

fn shifted_right_unsigned(x: i32, y: i32) -> i32
    ensures { result ≡ spec.shifted_right_unsigned x y }
{
    (x.cast_unsigned() >> distance_of(y)).cast_signed()
}

fn long_sum_of(x: i64, y: i64) -> i64
    ensures { result ≡ spec.long_sum_of x y }
{
    x.wrapping_add(y)
}

fn long_product_of(x: i64, y: i64) -> i64
    ensures { result ≡ spec.long_product_of x y }
{
    x.wrapping_mul(y)
}

fn order_of(x: i64, y: i64) -> i32
    ensures { result ≡ spec.order_of x y }
{
    if x < y {
        -1
    } else if y < x {
        1
    } else {
        0
    }
}

fn passes(test: Test, x: i32, y: i32) -> bool
    ensures { result ≡ spec.passes test x y }
{
    match test {
        Test::Equal => !(x < y) && !(y < x),
        Test::NotEqual => !(!(x < y) && !(y < x)),
        Test::Less => x < y,
        Test::GreaterOrEqual => !(x < y),
        Test::Greater => y < x,
        Test::LessOrEqual => !(y < x),
    }
}

fn divide(x: i32, y: i32) -> Outcome<Value>
    ensures { result ≡ divided spec.quotient_of x y }
{
    if y == 0 {
        Outcome::Trap(TrapKind::DivideByZero)
    } else {
        Outcome::Fine(Value::Int(quotient_of(x, y)))
    }
}

fn divide_for_rest(x: i32, y: i32) -> Outcome<Value>
    ensures { result ≡ divided spec.remainder_of x y }
{
    if y == 0 {
        Outcome::Trap(TrapKind::DivideByZero)
    } else {
        Outcome::Fine(Value::Int(remainder_of(x, y)))
    }
}

fn operate(op: BinaryOp, x: i32, y: i32) -> Outcome<Value>
    ensures { result ≡ on_numbers op x y }
{
    match op {
        BinaryOp::Add => Outcome::Fine(Value::Int(sum_of(x, y))),
        BinaryOp::Subtract => Outcome::Fine(Value::Int(difference_of(x, y))),
        BinaryOp::Multiply => Outcome::Fine(Value::Int(product_of(x, y))),
        BinaryOp::Divide => divide(x, y),
        BinaryOp::Remainder => divide_for_rest(x, y),
        BinaryOp::ShiftLeft => Outcome::Fine(Value::Int(shifted_left(x, y))),
        BinaryOp::ShiftRight => Outcome::Fine(Value::Int(shifted_right(x, y))),
        BinaryOp::ShiftRightUnsigned => Outcome::Fine(Value::Int(shifted_right_unsigned(x, y))),
        BinaryOp::And => Outcome::Fine(Value::Int(x & y)),
        BinaryOp::Or => Outcome::Fine(Value::Int(x | y)),
        BinaryOp::Xor => Outcome::Fine(Value::Int(x ^ y)),
    }
}

/// An operator on two ints. A zero divisor is a trap, and other operands are wrong.
pub fn binary(op: BinaryOp, x: Value, y: Value) -> Outcome<Value>
    ensures { result ≡ spec.binary op x y }
{
    match x {
        Value::Int(x) => match y {
            Value::Int(y) => operate(op, x, y),
            _ => Outcome::Wrong,
        },
        _ => Outcome::Wrong,
    }
}

/// An int with the other sign.
pub fn negated(x: Value) -> Outcome<Value>
    ensures { result ≡ spec.negated x }
{
    match x {
        Value::Int(x) => Outcome::Fine(Value::Int(negation_of(x))),
        _ => Outcome::Wrong,
    }
}

/// An int as a long.
pub fn widened(x: Value) -> Outcome<Value>
    ensures { result ≡ spec.widened x }
{
    match x {
        Value::Int(x) => Outcome::Fine(Value::Long(i64::from(x))),
        _ => Outcome::Wrong,
    }
}

/// The sum of two longs.
pub fn long_sums(x: Value, y: Value) -> Outcome<Value>
    ensures { result ≡ spec.long_sums x y }
{
    match x {
        Value::Long(x) => match y {
            Value::Long(y) => Outcome::Fine(Value::Long(long_sum_of(x, y))),
            _ => Outcome::Wrong,
        },
        _ => Outcome::Wrong,
    }
}

/// The product of two longs.
pub fn long_products(x: Value, y: Value) -> Outcome<Value>
    ensures { result ≡ spec.long_products x y }
{
    match x {
        Value::Long(x) => match y {
            Value::Long(y) => Outcome::Fine(Value::Long(long_product_of(x, y))),
            _ => Outcome::Wrong,
        },
        _ => Outcome::Wrong,
    }
}

/// How two longs compare: -1, 0 or 1.
pub fn long_orders(x: Value, y: Value) -> Outcome<Value>
    ensures { result ≡ spec.long_orders x y }
{
    match x {
        Value::Long(x) => match y {
            Value::Long(y) => Outcome::Fine(Value::Int(order_of(x, y))),
            _ => Outcome::Wrong,
        },
        _ => Outcome::Wrong,
    }
}

/// Whether two ints pass a test.
pub fn compares(test: Test, x: Value, y: Value) -> Outcome<bool>
    ensures { result ≡ spec.compares test x y }
{
    match x {
        Value::Int(x) => match y {
            Value::Int(y) => Outcome::Fine(passes(test, x, y)),
            _ => Outcome::Wrong,
        },
        _ => Outcome::Wrong,
    }
}

/// Whether two references are the same.
pub fn sames(x: Value, y: Value) -> Outcome<bool>
    ensures { result ≡ spec.sames x y }
{
    match x {
        Value::Null => match y {
            Value::Null => Outcome::Fine(true),
            Value::Ref(_) => Outcome::Fine(false),
            _ => Outcome::Wrong,
        },
        Value::Ref(x) => match y {
            Value::Null => Outcome::Fine(false),
            Value::Ref(y) => Outcome::Fine(x == y),
            _ => Outcome::Wrong,
        },
        _ => Outcome::Wrong,
    }
}
