// The kinds of records, without their numbers, which are plan/src/kinds.rt's: here for the definitions of plan/specs, which pass them on.
#[derive(Clone, Copy, Debug, PartialEq, Eq, Hash)]
pub enum ExprKind {
    Column,
    Integer,
    Boolean,
    Null,
    Binary,
    Not,
    Test,
    Between,
    InList,
    Function,
}

#[derive(Clone, Copy, Debug, PartialEq, Eq, Hash)]
pub enum PlanKind {
    TableScan,
    Filter,
    Projection,
    Join,
    SubqueryAlias,
    Union,
    Distinct,
    Sort,
    Repartition,
    Limit,
    Aggregate,
    Window,
}

#[derive(Clone, Copy, Debug, PartialEq, Eq, Hash)]
pub enum PartKind {
    FieldPart,
    EntryPart,
    PairPart,
    KeyPart,
    AggPart,
    WinPart,
}

// What a record is.
#[derive(Clone, Copy, Debug, PartialEq, Eq, Hash)]
pub enum What {
    Expr(ExprKind),
    Plan(PlanKind),
    Part(PartKind),
    Unknown,
}
