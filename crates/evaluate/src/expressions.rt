// The value of an expression on a row.
ghost use Rattle.std.specs.Prelude.{◌≡◌, List, ◌≤◌, length};
ghost use Rattle.image.specs.Subtrees.{tree_of};
ghost use Rattle.plan.specs.Schema.{look_d};
ghost use Rattle.plan.specs.Syntax.{Name, no_type};
ghost use Rattle.plan.specs.Types.{type_of_expr};
ghost use Rattle.plan.specs.Values.{Right, Valued};
ghost use Rattle.meaning.specs.Meaning.{eval, look};
ghost use Rattle.rewrite.specs.RowTest.{lent, no_functions};
ghost use Rattle.utils.specs.Fields.{Names};
ghost use Rattle.evaluate.specs.Operators.{expr_in};

use crate::cells::NamedRow;
use crate::operands::{Seen, operate};
use image::trees::Stretch;
use plan::kinds::COLUMN;
use plan::values::{Value, literal_of};

// The value of an expression on a row.
pub fn evaluate<const N: usize>(tree: Stretch<'_, N>, row: &NamedRow) -> Value
    ensures right { Right result }
    ensures is { (ns : List Name) → Names row.now.fields ns → length row.now.row.types.now ≤ length ns
        → Valued result (type_of_expr (look_d no_type ns row.now.row.types.now) (expr_in (tree_of tree.entry)))
        (eval no_functions (look ns (lent row.now.row.types.now row.now.row.values.now row.now.row.marks.now))
        (expr_in (tree_of tree.entry))) }
{
    let l = tree.label();
    if l.kind == COLUMN {
        return row.column(l.p, l.q);
    }
    if let Some(v) = literal_of(l) {
        return v;
    }
    let mut seen = Seen::nothing();
    for child in tree.children() {
        seen = seen.with(evaluate(child, row));
    }
    operate(l, seen)
}
