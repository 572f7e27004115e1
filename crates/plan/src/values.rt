// Values: a record of a type, with its case inside. Literals, row cells and bounds are such records.
ghost use Rattle.std.specs.Prelude.{◌≡◌, ◌<◌};
ghost use Rattle.image.specs.Tree.{Fits32};
ghost use Rattle.plan.specs.Read.{signed};
ghost use Rattle.plan.specs.Values.{code, is_n, kind_of, literal_of, null_of};

use crate::kinds::{ExprKind, What, what_of};
use crate::words::{BOOLEAN, INTEGER, NO_TYPE, TRUE};
use image::records::Label;
pub use image::values::Case;

#[derive(Clone, Copy, Debug, PartialEq, Eq, Hash)]
pub struct Value {
    pub ty: usize,
    pub case: Case,
}

impl Value {
    // A NULL of a type.
    pub fn null_of(ty: usize) -> Value
        ensures { result ≡ null_of ty }
    {
        Value {
            ty,
            case: Case::Null,
        }
    }

    pub fn is_null(self) -> bool
        ensures { result ≡ is_n self.case }
    {
        matches!(self.case, Case::Null)
    }

    // The type of what a value holds: none for a NULL, whatever its own type.
    pub fn kind_of(self) -> usize
        ensures { result ≡ kind_of self.case }
    {
        match self.case {
            Case::Null => NO_TYPE,
            Case::Integer(_) => INTEGER,
            Case::Truth(_) => BOOLEAN,
        }
    }

    // Where a value stands in the order of its type: FALSE below TRUE.
    pub fn code_of(self) -> i64
        ensures { result ≡ code self.case }
    {
        match self.case {
            Case::Null => 0,
            Case::Integer(z) => z,
            Case::Truth(b) => i64::from(b),
        }
    }
}

// The signed 64-bit number of its halves, by two's complement.
pub fn signed(lo: u64, hi: u64) -> i64
    requires { (lo < 4294967296) × (hi < 4294967296) }
    ensures { result ≡ signed lo hi }
{
    if hi < 2147483648 {
        return (hi * 4294967296 + lo) as i64;
    }
    let below = (4294967295 - hi) * 4294967296 + (4294967295 - lo);
    -1 - (below as i64)
}

// The literal that a record is.
#[tactic(auto, unfolding(crate::specs::Values::literal_of))]
pub fn literal_of(l: Label) -> Option<Value>
    requires { Fits32 l }
    ensures { result ≡ literal_of l }
{
    match what_of(l.kind) {
        What::Expr(ExprKind::Integer) => Some(Value {
            ty: INTEGER,
            case: Case::Integer(signed(l.lo as u64, l.hi as u64)),
        }),
        What::Expr(ExprKind::Boolean) => Some(Value {
            ty: BOOLEAN,
            case: Case::Truth(l.p == TRUE),
        }),
        What::Expr(ExprKind::Null) => Some(Value::null_of(l.p)),
        _ => None,
    }
}
