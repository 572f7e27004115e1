// The cells of a row: values lent as 64-bit numbers beside their marks, 1 for NULL.
ghost use Rattle.std.specs.Prelude.{◌≡◌, List, ◌<◌, ◌≤◌, get_or, length};
ghost use Rattle.image.specs.Limits.{max_fields};
ghost use Rattle.plan.specs.Schema.{look_d};
ghost use Rattle.plan.specs.Syntax.{Name, nm, no_type, null};
ghost use Rattle.plan.specs.Values.{Right, Valued};
ghost use Rattle.rewrite.specs.RowTest.{lent};
ghost use Rattle.utils.specs.Fields.{Names};
ghost use Rattle.meaning.specs.Meaning as M;
ghost use Rattle.rewrite.specs.RowTest as R;

use plan::values::{Case, Value};
use plan::words::{BOOLEAN, NO_TYPE};
use utils::schema_columns::{Fields, place_in};

// The marks of a cell: it holds a value, or NULL.
const HELD: u8 = 0;

const NULL: u8 = 1;

// A row over fields with these types: what is lent for each.
#[derive(Drop)]
pub struct Row<'a> {
    pub types: &'a [usize],
    pub values: &'a [i64],
    pub marks: &'a [u8],
}

// A row whose fields have these names.
#[derive(Drop)]
pub struct NamedRow<'a> {
    pub row: Row<'a>,
    pub fields: Fields,
    ghost few: { fields.len ≤ max_fields },
}

// A value that is not NULL, of a field of this type.
fn cell_of(ty: usize, z: i64) -> Value
    ensures right { Right result }
    ensures is { Valued result ty (R.cell ty z 0) }
{
    if ty == BOOLEAN {
        return Value {
            ty,
            case: Case::Truth(0 < z),
        };
    }
    Value {
        ty,
        case: Case::Integer(z),
    }
}

// Whether what is lent for a field of this type is a value: a boolean that is not NULL is 0 or 1.
fn cell_ok(ty: usize, z: i64, mark: u8) -> bool
    ensures { result ≡ R.cell_ok ty z mark }
{
    if mark == NULL {
        return true;
    }
    if mark != HELD {
        return false;
    }
    if ty == BOOLEAN {
        return (0 <= z) & (z <= 1);
    }
    true
}

impl Row<'_> {
    // The cell with the place i; NULL where the row has none. A value under a NULL mark is not read.
    pub fn cell(&self, i: usize) -> Value
        ensures right { Right result }
        ensures is { Valued result (get_or self.now.types.now i no_type)
            (get_or (lent self.now.types.now self.now.values.now self.now.marks.now) i null) }
    {
        if self.types.len() <= i {
            return Value::null_of(NO_TYPE);
        }
        let ty = self.types[i];
        if (self.values.len() <= i) | (self.marks.len() <= i) {
            return Value::null_of(ty);
        }
        if self.marks[i] == NULL {
            return Value::null_of(ty);
        }
        cell_of(ty, self.values[i])
    }

    // Whether there are as many values and marks as fields, each in order.
    pub fn is_ok(&self) -> bool
        ensures { result ≡ R.row_ok self.now.types.now self.now.values.now self.now.marks.now }
    {
        let n = self.types.len();
        if (self.values.len() != n) | (self.marks.len() != n) {
            return false;
        }
        for i in 0..n {
            if !cell_ok(self.types[i], self.values[i], self.marks[i]) {
                return false;
            }
        }
        true
    }
}

impl NamedRow<'_> {
    // The value of a column.
    pub fn column(&self, q: usize, n: usize) -> Value
        ensures right { Right result }
        ensures is { (ns : List Name) → Names self.now.fields ns → length self.now.row.types.now ≤ length ns
            → Valued result (look_d no_type ns self.now.row.types.now (nm q n))
            (M.look ns (lent self.now.row.types.now self.now.row.values.now self.now.row.marks.now) (nm q n)) }
    {
        self.row.cell(place_in(self.fields, q, n))
    }
}
