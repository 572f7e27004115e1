// What a record asks of the types of its own expressions, and whether they are so.
ghost use Rattle.std.specs.Prelude.{◌≡◌, eqb};
ghost use Rattle.image.specs.Subtrees.{forest};
ghost use Rattle.plan.specs.Kinds.{what_of};
ghost use Rattle.plan.specs.Lists.{all};
ghost use Rattle.plan.specs.Syntax.{no_type};
ghost use Rattle.check_fields.specs.Fields.{first};
ghost use Rattle.check_fields.specs.Rules.{alike, types_of};
ghost use Rattle.check_fields.specs.Scopes.{scope_at};
ghost use Rattle.check_types.specs.Demands.{demand_of, integer_or, met};

use check_fields::scopes::{Scope, type_of};
use image::trees::Stretches;
use plan::kinds::{ExprKind, PartKind, PlanKind, What, is_expression, what_of};
use plan::words::{BOOLEAN, COUNT, INTEGER, IS_NOT_NULL, NO_TYPE, OR};

// What a record asks of the types of its own expressions.
#[derive(Clone, Copy, Debug, PartialEq, Eq, Hash)]
pub enum Demand {
    Nothing,
    Booleans,
    // One type for all of them.
    OneType,
    // The first of them is an integer.
    IntegerFirst,
}

// Count takes any type, Min and Max an integer.
fn integer_unless_count(r: usize) -> Demand
    ensures { result ≡ integer_or r }
{
    if r == COUNT {
        return Demand::Nothing;
    }
    Demand::IntegerFirst
}

// What a record of the kind asks for.
pub fn demand_of(kind: usize, p: usize, r: usize) -> Demand
    ensures { result ≡ demand_of (what_of kind) p r }
{
    match what_of(kind) {
        What::Expr(ExprKind::Binary) if p <= OR => Demand::Booleans,
        What::Expr(ExprKind::Binary) => Demand::OneType,
        What::Expr(ExprKind::Test) if p <= IS_NOT_NULL => Demand::Nothing,
        What::Expr(ExprKind::Test) => Demand::Booleans,
        What::Expr(ExprKind::Not) => Demand::Booleans,
        What::Expr(ExprKind::Between | ExprKind::InList) => Demand::OneType,
        What::Plan(PlanKind::TableScan | PlanKind::Filter | PlanKind::Join) => Demand::Booleans,
        What::Part(PartKind::PairPart) => Demand::OneType,
        What::Part(PartKind::AggPart | PartKind::WinPart) => integer_unless_count(r),
        _ => Demand::Nothing,
    }
}

// The type of the first expression among the trees, of which the first stands over `here` and the others over `after`; no type if none is.
pub fn first_type<'a, const N: usize>(
    trees: Stretches<'a, N>,
    here: Scope<'a, N>,
    after: Scope<'a, N>,
) -> usize
    ensures { result ≡ first no_type (types_of (scope_at here.entry) (scope_at after.entry) (forest trees.entry)) }
{
    let mut over = here;
    for tree in trees {
        let label = tree.label();
        if is_expression(label.kind) {
            return type_of(label, over);
        }
        over = after;
    }
    NO_TYPE
}

// Whether all expressions among the trees have the type t.
pub fn all_have<'a, const N: usize>(
    trees: Stretches<'a, N>,
    here: Scope<'a, N>,
    after: Scope<'a, N>,
    t: usize,
) -> bool
    ensures { result ≡ all (eqb t) (types_of (scope_at here.entry) (scope_at after.entry) (forest trees.entry)) }
{
    let mut over = here;
    for tree in trees {
        let label = tree.label();
        if is_expression(label.kind) && t != type_of(label, over) {
            return false;
        }
        over = after;
    }
    true
}

// Whether all expressions among the trees have one type: the first is asked for it, and then the others.
pub fn all_alike<'a, const N: usize>(
    trees: Stretches<'a, N>,
    here: Scope<'a, N>,
    after: Scope<'a, N>,
) -> bool
    ensures { result ≡ alike (types_of (scope_at here.entry) (scope_at after.entry) (forest trees.entry)) }
{
    let mut over = here;
    let mut left = trees;
    while let Some((tree, others)) = left.split_first() {
        let label = tree.label();
        if is_expression(label.kind) {
            return all_have(others, after, after, type_of(label, over));
        }
        over = after;
        left = others;
    }
    true
}

// Whether the expressions among the trees are as the record above them asks.
pub fn meets<'a, const N: usize>(
    d: Demand,
    trees: Stretches<'a, N>,
    here: Scope<'a, N>,
    after: Scope<'a, N>,
) -> bool
    ensures { result ≡ met d (types_of (scope_at here.entry) (scope_at after.entry) (forest trees.entry)) }
{
    match d {
        Demand::Nothing => true,
        Demand::Booleans => all_have(trees, here, after, BOOLEAN),
        Demand::OneType => all_alike(trees, here, after),
        Demand::IntegerFirst => first_type(trees, here, after) == INTEGER,
    }
}
