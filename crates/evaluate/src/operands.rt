// What is seen of an operator's operands, one after another, and what the operator makes of them.
ghost use Rattle.std.specs.Prelude.{◌≡◌, ◌++◌, ◌∷◌, List, [], drop};
ghost use Rattle.plan.specs.Values.{Right, Valued};
ghost use Rattle.plan.specs.WordValues.{op_of};
ghost use Rattle.evaluate.specs.Operators.{Sees, SeesRight, operand, operated, operated_type};
ghost use Rattle.evaluate.specs.Truths.{value_of};
ghost use Rattle.meaning.specs.Meaning as M;
ghost use Rattle.plan.specs.Syntax as S;

use crate::comparing::{compare, equals, tested, within};
use crate::logic::Truth;
use image::records::Label;
use plan::kinds::{ExprKind, What, what_of};
use plan::values::Value;
use plan::words::{NEGATED, NO_TYPE, Operator, Test};

// The first three operands, and of those after the first whether one equals it and whether one is NULL: no operator asks for more.
#[derive(Clone, Copy, Debug, PartialEq, Eq, Hash)]
pub struct Seen {
    pub count: usize,
    pub first: Value,
    pub second: Value,
    pub third: Value,
    pub equal: bool,
    pub null: bool,
}

impl Seen {
    // No operands.
    pub fn nothing() -> Seen
        ensures right { SeesRight result }
        ensures is { Sees result [] }
    {
        let none = Value::null_of(NO_TYPE);
        Seen {
            count: 0,
            first: none,
            second: none,
            third: none,
            equal: false,
            null: false,
        }
    }

    // One operand more.
    pub fn with(self, v: Value) -> Seen
        requires { SeesRight self × Right v }
        ensures right { SeesRight result }
        ensures is { (vs : List S.Value) → Sees self vs → Sees result (vs ++ (v.case ∷ [])) }
    {
        if self.count == 0 {
            return Seen {
                count: 1,
                first: v,
                ..self
            };
        }
        let seen = Seen {
            equal: self.equal | equals(self.first, v),
            null: self.null | v.is_null(),
            ..self
        };
        if self.count == 1 {
            return Seen {
                count: 2,
                second: v,
                ..seen
            };
        }
        if self.count == 2 {
            return Seen {
                count: 3,
                third: v,
                ..seen
            };
        }
        seen
    }
}

// BinaryExpr: OR, a comparison or AND.
fn binary(op: Operator, a: Value, b: Value) -> Truth
    ensures { value_of result ≡ M.binary (op_of op) a.case b.case }
{
    match op {
        Operator::And => Truth::of(a).and(Truth::of(b)),
        Operator::Or => Truth::of(a).or(Truth::of(b)),
        Operator::Compare(comparison) => compare(comparison, a, b),
    }
}

// UNKNOWN for a NULL operand; else TRUE if an item equals it, and if none does UNKNOWN if an item is NULL, FALSE if none is.
fn in_list(seen: Seen) -> Truth
    ensures { (vs : List S.Value) → Sees seen vs → value_of result ≡ M.in_list (operand 0 vs) (drop 1 vs) }
{
    if seen.first.is_null() {
        return Truth::Unknown;
    }
    if seen.equal {
        return Truth::True;
    }
    if seen.null {
        return Truth::Unknown;
    }
    Truth::False
}

// What the operator with this label makes of its operands; NULL where it is none, and of a function's type where it is one.
#[tactic(auto, unfolding(crate::specs::Operators::operated, crate::specs::Operators::operated_type))]
pub fn operate(l: Label, seen: Seen) -> Value
    requires { SeesRight seen }
    ensures right { Right result }
    ensures is { (vs : List S.Value) → Sees seen vs → Valued result (operated_type l) (operated l.kind l.p vs) }
{
    let first = seen.first;
    let second = seen.second;
    match what_of(l.kind) {
        What::Expr(ExprKind::Binary) => binary(Operator::of(l.p), first, second).to_value(),
        What::Expr(ExprKind::Not) => Truth::of(first).not().to_value(),
        What::Expr(ExprKind::Test) => Truth::from(tested(Test::of(l.p), first)).to_value(),
        What::Expr(ExprKind::Between) => within(first, second, seen.third)
            .negated(l.p == NEGATED)
            .to_value(),
        What::Expr(ExprKind::InList) => in_list(seen).negated(l.p == NEGATED).to_value(),
        What::Expr(ExprKind::Function) => Value::null_of(l.r),
        _ => Value::null_of(NO_TYPE),
    }
}
