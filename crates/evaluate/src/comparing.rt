// Comparisons, ranges and tests of values.
ghost use Rattle.std.specs.Prelude.{◌≡◌};
ghost use Rattle.plan.specs.Syntax.{eq};
ghost use Rattle.plan.specs.WordValues.{cmp_of, test_of};
ghost use Rattle.meaning.specs.Meaning.{is_f, is_t};
ghost use Rattle.evaluate.specs.Truths.{value_of};
ghost use Rattle.meaning.specs.Meaning as M;

use crate::logic::Truth;
use plan::values::{Case, Value};
use plan::words::{Comparison, Test};

// Whether a comparison holds.
fn holds(op: Comparison, a: i64, b: i64) -> bool
    ensures { result ≡ M.holds (cmp_of op) a b }
{
    match op {
        Comparison::Eq => a == b,
        Comparison::NotEq => a != b,
        Comparison::Lt => a < b,
        Comparison::LtEq => a <= b,
        Comparison::Gt => b < a,
        Comparison::GtEq => b <= a,
    }
}

// Two values of one type are compared; with NULL a comparison is UNKNOWN.
pub fn compare(op: Comparison, a: Value, b: Value) -> Truth
    ensures { value_of result ≡ M.compared (cmp_of op) a.case b.case }
{
    if a.is_null() | (a.kind_of() != b.kind_of()) {
        return Truth::Unknown;
    }
    Truth::from(holds(op, a.code_of(), b.code_of()))
}

// low <= operand AND operand <= high.
pub fn within(operand: Value, low: Value, high: Value) -> Truth
    ensures { value_of result ≡ M.within operand.case low.case high.case }
{
    compare(Comparison::LtEq, low, operand).and(compare(Comparison::LtEq, operand, high))
}

// Whether the item of a list equals the operand: a NULL equals nothing.
pub fn equals(operand: Value, item: Value) -> bool
    ensures { result ≡ is_t (M.compared eq operand.case item.case) }
{
    matches!(compare(Comparison::Eq, operand, item), Truth::True)
}

fn is_true(v: Value) -> bool
    ensures { result ≡ is_t v.case }
{
    matches!(v.case, Case::Truth(true))
}

fn is_false(v: Value) -> bool
    ensures { result ≡ is_f v.case }
{
    matches!(v.case, Case::Truth(false))
}

// What a test says of a value.
pub fn tested(test: Test, v: Value) -> bool
    ensures { result ≡ M.tested (test_of test) v.case }
{
    match test {
        Test::IsNull => v.is_null(),
        Test::IsNotNull => !v.is_null(),
        Test::IsTrue => is_true(v),
        Test::IsFalse => is_false(v),
        Test::IsUnknown => !is_true(v) & !is_false(v),
        Test::IsNotTrue => !is_true(v),
        Test::IsNotFalse => !is_false(v),
        Test::IsNotUnknown => is_true(v) | is_false(v),
    }
}
