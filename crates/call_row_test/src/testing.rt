// The row test: a named Filter's predicate on a row over its input's schema.
ghost use Rattle.std.specs.Prelude.{◌≡◌, ◌≤◌};
ghost use Rattle.image.specs.Limits.{max_fields};
ghost use Rattle.image.specs.Subtrees.{tree_of};
ghost use Rattle.plan.specs.Integers.{FitsE};
ghost use Rattle.plan.specs.Schema.{schema};
ghost use Rattle.plan.specs.Syntax.{Expr, Plan};
ghost use Rattle.plan.specs.Trees.{expr_tree};
ghost use Rattle.rewrite.specs.OnBytes.{plan_in};
ghost use Rattle.rewrite.specs.RewriteAt.{focus};
ghost use Rattle.rewrite.specs.RowTest.{row_test_bytes, test_focus, test_predicate};
ghost use Rattle.utils.specs.Fields.{Names};
ghost use Rattle.call_row_test.specs.Answer.{tested_of};
ghost use Rattle.call_row_test.specs.Standing.{FilterHere, Parts, Whole};
ghost use Rattle.plan.specs.Types as Types;

use crate::schemas::field_types;
use check_image::check;
use conjuncts::volatility::{Functions, has_function};
use evaluate::cells::{NamedRow, Row};
use evaluate::expressions::evaluate;
use evaluate::logic::Truth;
use image::limits::RECORD_BYTES;
use image::records::{KIND, record_at};
use image::refusals::Refusal;
use image::trees::Subtree;
use image::words::word_at;
use plan::kinds::FILTER;
use utils::schema_columns::{Fields, no_fields, schema_columns};

// The predicate of the Filter at this record, on a row over the fields with these names and types.
fn test_predicate(
    predicate: Subtree,
    node: usize,
    fields: Fields,
    types: &[usize],
    values: &[i64],
    marks: &[u8],
) -> Result<Truth, Refusal>
    requires { fields.len ≤ max_fields }
    ensures { (e : Expr) (p : Plan) → tree_of predicate.entry ≡ expr_tree e → FitsE e → Names fields (schema p)
        → types.now ≡ Types.types p → tested_of result ≡ test_predicate node e p values.now marks.now }
{
    let row = Row {
        types,
        values,
        marks,
    };
    if !row.is_ok() {
        return Err(Refusal::Row);
    }
    if has_function(predicate, Functions::All) {
        return Err(Refusal::Function(node));
    }
    let named = NamedRow { row, fields };
    Ok(Truth::of(evaluate(predicate, &named)))
}

// The predicate of a Filter, and its input.
fn parts_of(filter: Subtree) -> Option<(Subtree, Subtree)>
    ensures { (e : Expr) (p : Plan) → FilterHere filter.entry e p → Parts e p result }
{
    let (predicate, others) = filter.children().split_first()?;
    let (input, _) = others.split_first()?;
    Some((predicate, input))
}

// A Filter.
fn test_filter(filter: Subtree, values: &[i64], marks: &[u8]) -> Result<Truth, Refusal>
    requires { (e : Expr) × (p : Plan) × FilterHere filter e p }
    ensures { (e : Expr) (p : Plan) → FilterHere filter.entry e p
        → tested_of result ≡ test_predicate filter.entry.number e p values.now marks.now }
{
    let Some((predicate, input)) = parts_of(filter) else {
        return Err(Refusal::Absent(filter.number));
    };
    let fields = schema_columns(input, no_fields());
    let types = field_types(filter.children(), fields.len);
    let n = fields.len;
    test_predicate(predicate, filter.number, fields, &types[..n], values, marks)
}

// What stands at the record, if it is there: a Filter or not.
fn test_at(image: &[u8], node: usize, values: &[i64], marks: &[u8]) -> Result<Truth, Refusal>
    requires { Whole image.now }
    ensures { tested_of result
        ≡ test_focus node (focus node (plan_in image.now)) values.now marks.now }
{
    if image.len() / RECORD_BYTES <= node {
        return Err(Refusal::Absent(node));
    }
    if word_at(record_at(image, node), KIND) != FILTER {
        return Err(Refusal::Absent(node));
    }
    let filter = Subtree {
        image,
        base: 0,
        number: node,
    };
    test_filter(filter, values, marks)
}

// Every slice, node, row and marks get their answer.
pub fn row_test(image: &[u8], node: u32, values: &[i64], marks: &[u8]) -> Result<Truth, Refusal>
    ensures { tested_of result ≡ row_test_bytes image.now node values.now marks.now }
{
    check(image)?;
    test_at(image, node as usize, values, marks)
}

// The number of a truth: 0 FALSE, 1 TRUE, 2 UNKNOWN; 0 where the test is refused.
pub fn truth_number(answer: Result<Truth, Refusal>) -> u32
    ensures { result ≡ (tested_of answer).truth }
{
    match answer {
        Ok(truth) => match truth {
            Truth::False => 0,
            Truth::True => 1,
            Truth::Unknown => 2,
        },
        Err(_) => 0,
    }
}
