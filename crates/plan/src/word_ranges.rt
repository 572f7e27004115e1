// Record (2): the range of each word of a record, by its kind: those of specs/Words.antt.
ghost use Rattle.std.specs.Prelude.{◌≡◌};
ghost use Rattle.plan.specs.Words.{row, row_e, row_p, row_q};

use crate::kinds::{ExprKind, PartKind, PlanKind};
use crate::words::{
    AND, BOOLEAN, COUNT, FETCHES, GT_EQ, INNER, INTEGER, IS_NOT_UNKNOWN, IS_NULL, MAX, RIGHT_ANTI,
    VOLATILE_LEAFWARD,
};
use image::ranges::{Range, WordRow};

const MAX_WORD: usize = 4294967295;

const UNUSED: Range = Range { low: 0, high: 0 };

const ANY: Range = Range {
    low: 0,
    high: MAX_WORD,
};

// A name, or the qualifier of an alias.
const NAME: Range = Range {
    low: 1,
    high: MAX_WORD,
};

const BIT: Range = Range { low: 0, high: 1 };

const TYPE: Range = Range {
    low: INTEGER,
    high: BOOLEAN,
};

const OPERATOR: Range = Range {
    low: AND,
    high: GT_EQ,
};

const TEST: Range = Range {
    low: IS_NULL,
    high: IS_NOT_UNKNOWN,
};

const JOIN: Range = Range {
    low: INNER,
    high: RIGHT_ANTI,
};

const MARKS: Range = Range {
    low: 0,
    high: VOLATILE_LEAFWARD,
};

const AGGREGATE: Range = Range {
    low: COUNT,
    high: MAX,
};

fn row(p: Range, q: Range, r: Range, lo: Range, hi: Range) -> WordRow
    ensures { result ≡ row p q r lo hi }
{
    WordRow { p, q, r, lo, hi }
}

pub fn row_e(kind: ExprKind) -> WordRow
    ensures { result ≡ row_e kind }
{
    match kind {
        ExprKind::Column => row(ANY, NAME, UNUSED, UNUSED, UNUSED),
        ExprKind::Integer => row(UNUSED, UNUSED, UNUSED, ANY, ANY),
        ExprKind::Boolean => row(BIT, UNUSED, UNUSED, UNUSED, UNUSED),
        ExprKind::Null => row(TYPE, UNUSED, UNUSED, UNUSED, UNUSED),
        ExprKind::Binary => row(OPERATOR, UNUSED, UNUSED, UNUSED, UNUSED),
        ExprKind::Not => row(UNUSED, UNUSED, UNUSED, UNUSED, UNUSED),
        ExprKind::Test => row(TEST, UNUSED, UNUSED, UNUSED, UNUSED),
        ExprKind::Between => row(BIT, UNUSED, UNUSED, UNUSED, UNUSED),
        ExprKind::InList => row(BIT, UNUSED, UNUSED, UNUSED, UNUSED),
        ExprKind::Function => row(ANY, MARKS, TYPE, UNUSED, UNUSED),
    }
}

// By p, which says whether a Sort has a fetch.
pub fn row_p(kind: PlanKind, p: usize) -> WordRow
    ensures { result ≡ row_p kind p }
{
    match kind {
        PlanKind::TableScan => row(ANY, UNUSED, UNUSED, UNUSED, UNUSED),
        PlanKind::Filter => row(UNUSED, UNUSED, UNUSED, UNUSED, UNUSED),
        PlanKind::Projection => row(UNUSED, UNUSED, UNUSED, UNUSED, UNUSED),
        PlanKind::Join => row(JOIN, UNUSED, UNUSED, UNUSED, UNUSED),
        PlanKind::SubqueryAlias => row(NAME, UNUSED, UNUSED, UNUSED, UNUSED),
        PlanKind::Union => row(UNUSED, UNUSED, UNUSED, UNUSED, UNUSED),
        PlanKind::Distinct => row(UNUSED, UNUSED, UNUSED, UNUSED, UNUSED),
        PlanKind::Sort => row(
            BIT,
            UNUSED,
            UNUSED,
            if p == FETCHES { ANY } else { UNUSED },
            UNUSED,
        ),
        PlanKind::Repartition => row(UNUSED, UNUSED, UNUSED, UNUSED, UNUSED),
        PlanKind::Limit => row(UNUSED, UNUSED, UNUSED, ANY, ANY),
        PlanKind::Aggregate => row(UNUSED, UNUSED, UNUSED, UNUSED, UNUSED),
        PlanKind::Window => row(UNUSED, UNUSED, UNUSED, UNUSED, UNUSED),
    }
}

pub fn row_q(kind: PartKind) -> WordRow
    ensures { result ≡ row_q kind }
{
    match kind {
        PartKind::FieldPart => row(ANY, NAME, TYPE, BIT, UNUSED),
        PartKind::EntryPart => row(ANY, NAME, UNUSED, UNUSED, UNUSED),
        PartKind::PairPart => row(UNUSED, UNUSED, UNUSED, UNUSED, UNUSED),
        PartKind::KeyPart => row(BIT, UNUSED, UNUSED, UNUSED, UNUSED),
        PartKind::AggPart => row(ANY, NAME, AGGREGATE, UNUSED, UNUSED),
        PartKind::WinPart => row(ANY, NAME, AGGREGATE, UNUSED, UNUSED),
    }
}
