//! Operators on values: arithmetic, joined texts and comparisons.

ghost use Rattle.std.specs.Prelude.{◌≡◌, ◌+ℤ◌, ◌-ℤ◌, ◌*ℤ◌, neg_ℤ, IfOk, IfErr, Ok};
ghost use Rattle.ss_model.specs.Expressions.{int_of, checked_int, checked_div, checked_rem, cmp_holds, apply_binary};
ghost use Rattle.ss_sql_trees.specs.declared.typed.BinaryOp.TheVariants.{Concat};
ghost use Rattle.ss_model.specs.Stops.{StopsAs};

use crate::Reason;
use crate::run_error::RunError;
use ss_sql_trees::{BinaryOp, Cmp};
use ss_value::Value;
use std::alloc::Global;
use std::cmp::Ordering;

/// The number of an Int, and 0 for a text, which no well typed expression asks for.
pub fn int_of(value: &Value) -> i64
    ensures { result ≡ int_of value.now }
{
    match value {
        Value::Int(n) => *n,
        Value::Text(_) => 0,
    }
}

/// A number as an Int. Aborts with `Overflow` where it is outside 64 bits.
pub fn checked_int(number: i128) -> Result<Value, Reason>
    ensures { result ≡ checked_int number }
{
    match i64::try_from(number) {
        Ok(number) => Ok(Value::Int(number)),
        Err(_) => Err(Reason::Overflow),
    }
}

/// A number with its sign changed. Aborts with `Overflow` at the least Int.
pub fn negation(a: i64) -> Result<Value, Reason>
    ensures { result ≡ checked_int (neg_ℤ a) }
{
    checked_int(-i128::from(a))
}

/// A sum. Aborts with `Overflow` where it is no Int.
fn sum(a: i64, b: i64) -> Result<Value, Reason>
    ensures { result ≡ checked_int (a +ℤ b) }
{
    // 128 bits hold every sum, difference and product of two Ints, so one test of the exact result is enough.
    checked_int(i128::from(a) + i128::from(b))
}

/// A difference. Aborts with `Overflow` where it is no Int.
fn difference(a: i64, b: i64) -> Result<Value, Reason>
    ensures { result ≡ checked_int (a -ℤ b) }
{
    checked_int(i128::from(a) - i128::from(b))
}

/// A product. Aborts with `Overflow` where it is no Int.
fn product(a: i64, b: i64) -> Result<Value, Reason>
    ensures { result ≡ checked_int (a *ℤ b) }
{
    checked_int(i128::from(a) * i128::from(b))
}

/// A quotient, rounded toward zero. Aborts with `DivideByZero`, and with `Overflow` where it is no Int.
fn quotient(a: i64, b: i64) -> Result<Value, Reason>
    ensures { result ≡ checked_div a b }
{
    if b == 0 {
        return Err(Reason::DivideByZero);
    }
    // None here is the least Int by -1 alone, since a divisor of 0 has its own reason above.
    match a.checked_div(b) {
        Some(quotient) => Ok(Value::Int(quotient)),
        None => Err(Reason::Overflow),
    }
}

/// A remainder, with the sign of the dividend. Aborts where the quotient does, though the remainder would be 0.
fn remainder(a: i64, b: i64) -> Result<Value, Reason>
    ensures { result ≡ checked_rem a b }
{
    if b == 0 {
        return Err(Reason::DivideByZero);
    }
    match a.checked_rem(b) {
        Some(remainder) => Ok(Value::Int(remainder)),
        None => Err(Reason::Overflow),
    }
}

/// One text behind the other, and the left side where either is no text. Aborts with `TextTooLong` over 255 bytes.
fn concatenation(alloc: Global, a: &Value, b: &Value) -> Result<Value, RunError>
    ensures ok { IfOk result (λ v. apply_binary Concat a.now b.now ≡ Ok v) }
    ensures stops { IfErr result (λ stop. StopsAs (apply_binary Concat a.now b.now) stop) }
{
    match (a, b) {
        (Value::Text(s), Value::Text(t)) => match s.concat(alloc, t)? {
            Some(text) => Ok(Value::Text(text)),
            None => Err(RunError::Abort(Reason::TextTooLong)),
        },
        (Value::Text(_), Value::Int(_)) => Ok(a.copy(alloc)?),
        (Value::Int(_), _) => Ok(a.copy(alloc)?),
    }
}

/// The value of an operator on two values, and the left one for an operator that is a test.
///
/// Aborts with `Overflow`, `DivideByZero` or `TextTooLong` where the result is no Int, there is none, or it is no Text.
pub fn apply_binary(alloc: Global, op: BinaryOp, a: &Value, b: &Value) -> Result<Value, RunError>
    ensures ok { IfOk result (λ v. apply_binary op a.now b.now ≡ Ok v) }
    ensures stops { IfErr result (λ stop. StopsAs (apply_binary op a.now b.now) stop) }
{
    match op {
        BinaryOp::Add => Ok(sum(int_of(a), int_of(b))?),
        BinaryOp::Sub => Ok(difference(int_of(a), int_of(b))?),
        BinaryOp::Mul => Ok(product(int_of(a), int_of(b))?),
        BinaryOp::Div => Ok(quotient(int_of(a), int_of(b))?),
        BinaryOp::Rem => Ok(remainder(int_of(a), int_of(b))?),
        BinaryOp::Concat => concatenation(alloc, a, b),
        // A test in a value's place has no sense, and no well typed expression has one; the definitions give it this.
        BinaryOp::Or | BinaryOp::And | BinaryOp::Compare(_) => Ok(a.copy(alloc)?),
    }
}

/// Whether a comparison holds, where `order` is that of its left value to its right one.
pub fn cmp_holds(cmp: Cmp, order: Ordering) -> bool
    ensures { result ≡ cmp_holds cmp order }
{
    match cmp {
        Cmp::Eq => order.is_eq(),
        Cmp::Ne => order.is_ne(),
        Cmp::Lt => order.is_lt(),
        Cmp::Le => order.is_le(),
        Cmp::Gt => order.is_gt(),
        Cmp::Ge => order.is_ge(),
    }
}
