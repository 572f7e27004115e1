// What the words of a record can hold, by name: operators, tests, join kinds, aggregates, types and marks.
// A type has no enum: the definitions have its number, and the code hands on whatever number a word holds.
ghost use Rattle.std.specs.Prelude.{◌≡◌, ◌-◌};
ghost use Rattle.plan.specs.Read.{aggs, joins, nth, ops, tests};
ghost use Rattle.plan.specs.Syntax.{and, count, inner, is_null};
ghost use Rattle.plan.specs.WordValues.{aggregate_of, cmp_at, cmp_of, join_of, op_of, test_of};

#[derive(Clone, Copy, Debug, PartialEq, Eq, Hash)]
pub enum Comparison {
    Eq,
    NotEq,
    Lt,
    LtEq,
    Gt,
    GtEq,
}

// The operators of a BinaryExpr.
#[derive(Clone, Copy, Debug, PartialEq, Eq, Hash)]
pub enum Operator {
    And,
    Or,
    Compare(Comparison),
}

#[derive(Clone, Copy, Debug, PartialEq, Eq, Hash)]
pub enum Test {
    IsNull,
    IsNotNull,
    IsTrue,
    IsFalse,
    IsUnknown,
    IsNotTrue,
    IsNotFalse,
    IsNotUnknown,
}

#[derive(Clone, Copy, Debug, PartialEq, Eq, Hash)]
pub enum JoinKind {
    Inner,
    Left,
    Right,
    Full,
    LeftSemi,
    RightSemi,
    LeftAnti,
    RightAnti,
}

// The aggregates of the entries of an Aggregate and of a Window.
#[derive(Clone, Copy, Debug, PartialEq, Eq, Hash)]
pub enum Aggregate {
    Count,
    Min,
    Max,
}

impl Comparison {
    // The comparison with this number; Eq where it is the number of none.
    pub fn of(word: usize) -> Comparison
        ensures { cmp_of result ≡ cmp_at word }
    {
        match word {
            NOT_EQ => Comparison::NotEq,
            LT => Comparison::Lt,
            LT_EQ => Comparison::LtEq,
            GT => Comparison::Gt,
            GT_EQ => Comparison::GtEq,
            _ => Comparison::Eq,
        }
    }
}

impl Operator {
    // The operator with this number; And where it is the number of none.
    #[tactic(auto, unfolding(crate::specs::Read::nth))]
    pub fn of(word: usize) -> Operator
        ensures { op_of result ≡ nth and ops (word - 1) }
    {
        match word {
            OR => Operator::Or,
            EQ => Operator::Compare(Comparison::Eq),
            NOT_EQ => Operator::Compare(Comparison::NotEq),
            LT => Operator::Compare(Comparison::Lt),
            LT_EQ => Operator::Compare(Comparison::LtEq),
            GT => Operator::Compare(Comparison::Gt),
            GT_EQ => Operator::Compare(Comparison::GtEq),
            _ => Operator::And,
        }
    }
}

impl Test {
    // The test with this number; IsNull where it is the number of none.
    #[tactic(auto, unfolding(crate::specs::Read::nth))]
    pub fn of(word: usize) -> Test
        ensures { test_of result ≡ nth is_null tests (word - 1) }
    {
        match word {
            IS_NOT_NULL => Test::IsNotNull,
            IS_TRUE => Test::IsTrue,
            IS_FALSE => Test::IsFalse,
            IS_UNKNOWN => Test::IsUnknown,
            IS_NOT_TRUE => Test::IsNotTrue,
            IS_NOT_FALSE => Test::IsNotFalse,
            IS_NOT_UNKNOWN => Test::IsNotUnknown,
            _ => Test::IsNull,
        }
    }
}

impl JoinKind {
    // The kind of join with this number; Inner where it is the number of none.
    #[tactic(auto, unfolding(crate::specs::Read::nth))]
    pub fn of(word: usize) -> JoinKind
        ensures { join_of result ≡ nth inner joins (word - 1) }
    {
        match word {
            LEFT => JoinKind::Left,
            RIGHT => JoinKind::Right,
            FULL => JoinKind::Full,
            LEFT_SEMI => JoinKind::LeftSemi,
            RIGHT_SEMI => JoinKind::RightSemi,
            LEFT_ANTI => JoinKind::LeftAnti,
            RIGHT_ANTI => JoinKind::RightAnti,
            _ => JoinKind::Inner,
        }
    }
}

impl Aggregate {
    // The aggregate with this number; Count where it is the number of none.
    #[tactic(auto, unfolding(crate::specs::Read::nth))]
    pub fn of(word: usize) -> Aggregate
        ensures { aggregate_of result ≡ nth count aggs (word - 1) }
    {
        match word {
            MIN => Aggregate::Min,
            MAX => Aggregate::Max,
            _ => Aggregate::Count,
        }
    }
}

// ---- the operators of a BinaryExpr: p
pub const AND: usize = 1;

pub const OR: usize = 2;

pub const EQ: usize = 3;

pub const NOT_EQ: usize = 4;

pub const LT: usize = 5;

pub const LT_EQ: usize = 6;

pub const GT: usize = 7;

pub const GT_EQ: usize = 8;

// ---- the tests: p

pub const IS_NULL: usize = 1;

pub const IS_NOT_NULL: usize = 2;

pub const IS_TRUE: usize = 3;

pub const IS_FALSE: usize = 4;

pub const IS_UNKNOWN: usize = 5;

pub const IS_NOT_TRUE: usize = 6;

pub const IS_NOT_FALSE: usize = 7;

pub const IS_NOT_UNKNOWN: usize = 8;

// ---- the kinds of joins: p

pub const INNER: usize = 1;

pub const LEFT: usize = 2;

pub const RIGHT: usize = 3;

pub const FULL: usize = 4;

pub const LEFT_SEMI: usize = 5;

pub const RIGHT_SEMI: usize = 6;

pub const LEFT_ANTI: usize = 7;

pub const RIGHT_ANTI: usize = 8;

// ---- the aggregates of the entries of an Aggregate and of a Window: r

pub const COUNT: usize = 1;

pub const MIN: usize = 2;

pub const MAX: usize = 3;

// ---- the types of fields and values: p of a NULL, r of a field or a function; no type is 0

pub const NO_TYPE: usize = 0;

pub const INTEGER: usize = 1;

pub const BOOLEAN: usize = 2;

// ---- bits: the TRUE literal, a negated Between or InList, a Sort that fetches, a descending key: p; a field that is filtered exactly: lo

pub const TRUE: usize = 1;

pub const NEGATED: usize = 1;

pub const FETCHES: usize = 1;

pub const MARKED: usize = 1;

// ---- the marks of a function: q

pub const VOLATILE: usize = 1;

pub const LEAFWARD: usize = 2;

pub const VOLATILE_LEAFWARD: usize = 3;
