// The kinds of records by name, all of them: those of specs/Kinds.antt. What their words hold is in words.rt.
// A new kind is a variant in image/src/kinds.rt, one number and one arm here, a row in word_ranges.rt and in children.rt of check_form, of a
// plan its role in field_sources.rt, and a failed proof wherever it is not treated.
ghost use Rattle.std.specs.Prelude.{◌≡◌};
ghost use Rattle.plan.specs.Kinds.{expr_w, number_of, part_w, plan_w, what_of};

pub use image::kinds::{ExprKind, PartKind, PlanKind, What};

// What a record is whose kind has this number. Inlined where one kind or another is asked for, so that it is compared and not looked up.
#[tactic(auto, unfolding(crate::specs::Kinds::what_of, crate::specs::Kinds::among))]
#[inline]
pub fn what_of(kind: usize) -> What
    ensures { result ≡ what_of kind }
{
    match kind {
        COLUMN => What::Expr(ExprKind::Column),
        INTEGER_LITERAL => What::Expr(ExprKind::Integer),
        BOOLEAN_LITERAL => What::Expr(ExprKind::Boolean),
        NULL_LITERAL => What::Expr(ExprKind::Null),
        BINARY_EXPR => What::Expr(ExprKind::Binary),
        NOT => What::Expr(ExprKind::Not),
        TEST => What::Expr(ExprKind::Test),
        BETWEEN => What::Expr(ExprKind::Between),
        IN_LIST => What::Expr(ExprKind::InList),
        FUNCTION => What::Expr(ExprKind::Function),
        TABLE_SCAN => What::Plan(PlanKind::TableScan),
        FILTER => What::Plan(PlanKind::Filter),
        PROJECTION => What::Plan(PlanKind::Projection),
        JOIN => What::Plan(PlanKind::Join),
        SUBQUERY_ALIAS => What::Plan(PlanKind::SubqueryAlias),
        UNION => What::Plan(PlanKind::Union),
        DISTINCT => What::Plan(PlanKind::Distinct),
        SORT => What::Plan(PlanKind::Sort),
        REPARTITION => What::Plan(PlanKind::Repartition),
        LIMIT => What::Plan(PlanKind::Limit),
        AGGREGATE => What::Plan(PlanKind::Aggregate),
        WINDOW => What::Plan(PlanKind::Window),
        FIELD => What::Part(PartKind::FieldPart),
        ENTRY => What::Part(PartKind::EntryPart),
        PAIR => What::Part(PartKind::PairPart),
        SORT_KEY => What::Part(PartKind::KeyPart),
        AGGREGATE_ENTRY => What::Part(PartKind::AggPart),
        WINDOW_ENTRY => What::Part(PartKind::WinPart),
        _ => What::Unknown,
    }
}

// ---- expressions

pub const COLUMN: usize = 1;

pub const INTEGER_LITERAL: usize = 2;

pub const BOOLEAN_LITERAL: usize = 3;

pub const NULL_LITERAL: usize = 4;

pub const BINARY_EXPR: usize = 5;

pub const NOT: usize = 6;

pub const TEST: usize = 7;

pub const BETWEEN: usize = 8;

pub const IN_LIST: usize = 9;

pub const FUNCTION: usize = 10;

// ---- plans

pub const TABLE_SCAN: usize = 32;

pub const FILTER: usize = 33;

pub const PROJECTION: usize = 34;

pub const JOIN: usize = 35;

pub const SUBQUERY_ALIAS: usize = 36;

pub const UNION: usize = 37;

pub const DISTINCT: usize = 38;

pub const SORT: usize = 39;

pub const REPARTITION: usize = 40;

pub const LIMIT: usize = 41;

pub const AGGREGATE: usize = 42;

pub const WINDOW: usize = 43;

// ---- parts of plans

pub const FIELD: usize = 48;

pub const ENTRY: usize = 49;

pub const PAIR: usize = 50;

pub const SORT_KEY: usize = 51;

pub const AGGREGATE_ENTRY: usize = 52;

pub const WINDOW_ENTRY: usize = 53;

// ---- where each sort begins and ends

pub const FIRST_EXPRESSION: usize = COLUMN;

pub const LAST_EXPRESSION: usize = FUNCTION;

pub const FIRST_PLAN: usize = TABLE_SCAN;

pub const LAST_PLAN: usize = WINDOW;

pub const FIRST_PART: usize = FIELD;

pub const LAST_PART: usize = WINDOW_ENTRY;

// Whether records of the kind are expressions.
#[inline]
pub fn is_expression(kind: usize) -> bool
    ensures { result ≡ expr_w (what_of kind) }
{
    (FIRST_EXPRESSION <= kind) & (kind <= LAST_EXPRESSION)
}

// Whether records of the kind are plans.
#[inline]
pub fn is_plan(kind: usize) -> bool
    ensures { result ≡ plan_w (what_of kind) }
{
    (FIRST_PLAN <= kind) & (kind <= LAST_PLAN)
}

// Whether records of the kind are parts of plans.
#[inline]
pub fn is_part(kind: usize) -> bool
    ensures { result ≡ part_w (what_of kind) }
{
    (FIRST_PART <= kind) & (kind <= LAST_PART)
}
