// contain (1401 to 1415): which fields of a plan a conjunct may read that moves below it: a Projection's that are neither volatile nor
// leafward, an Aggregate's groups, and those by which every entry of a Window is partitioned (expr_columns, 1425).
ghost use Rattle.std.specs.Prelude.{◌≡◌, List, ◌≤◌};
ghost use Rattle.image.specs.Limits.{max_fields};
ghost use Rattle.image.specs.Subtrees.{tree_of};
ghost use Rattle.plan.specs.Syntax.{Name};
ghost use Rattle.utils.specs.Fields.{Names, named};
ghost use Rattle.utils.specs.Masks.{Masks};
ghost use Rattle.push_down_arms.specs.Movable.{fixed, is_named, leaf_here, lets, lets_all, may_move, partition_in};

use conjuncts::volatility::{Functions, has_function};
use image::trees::Stretch;
use image::words::wide;
use plan::kinds::{AGGREGATE, FUNCTION, WINDOW_ENTRY};
use plan::words::{LEAFWARD, VOLATILE_LEAFWARD};
use utils::schema_columns::{ColumnReference, Fields};
use utils::sets::FieldSet;
use writing::replace_cols_by_name::{find, is_entry};

// Whether this is a function that moves towards the leaves.
fn is_leafward<const N: usize>(tree: Stretch<'_, N>) -> bool
    ensures { result ≡ leaf_here (tree_of tree.entry).label }
{
    let label = tree.label();
    (label.kind == FUNCTION) & matches!(label.q, LEAFWARD | VOLATILE_LEAFWARD)
}

// Whether the entry's expression is volatile or leafward.
fn is_fixed<const N: usize>(part: Stretch<'_, N>) -> bool
    ensures { result ≡ fixed (tree_of part.entry) }
{
    if has_function(part, Functions::Volatile) {
        return true;
    }
    match part.children().split_first() {
        Some((expr, _)) => is_leafward(expr),
        None => false,
    }
}

// Whether the column has this name.
fn is_named<const N: usize>(tree: Stretch<'_, N>, c: ColumnReference) -> bool
    ensures { result ≡ is_named (named c) (tree_of tree.entry).label }
{
    let label = tree.label();
    (label.p == wide(c.q)) & (label.q == wide(c.n))
}

// Whether the entry of a Window is partitioned by the column: they stand behind its expression.
fn has_partition<const N: usize>(part: Stretch<'_, N>, c: ColumnReference) -> bool
    ensures { result ≡ partition_in (named c) (tree_of part.entry).below }
{
    let Some((_, columns)) = part.children().split_first() else {
        return false;
    };
    for column in columns {
        if is_named(column, c) {
            return true;
        }
    }
    false
}

// Whether the part of a plan lets a conjunct pass that reads the field.
fn lets_pass<const N: usize>(part: Stretch<'_, N>, c: ColumnReference) -> bool
    ensures { result ≡ lets (named c) (tree_of part.entry) }
{
    if part.kind() == WINDOW_ENTRY {
        return has_partition(part, c);
    }
    if is_entry(part, wide(c.q), wide(c.n)) {
        return !is_fixed(part);
    }
    true
}

// Whether each part of the plan does.
fn all_let_pass<const N: usize>(plan: Stretch<'_, N>, c: ColumnReference) -> bool
    ensures { result ≡ lets_all (named c) (tree_of plan.entry).below }
{
    for part in plan.children() {
        if !lets_pass(part, c) {
            return false;
        }
    }
    true
}

// Whether a conjunct that reads the field may move below the plan.
fn may_move<const N: usize>(plan: Stretch<'_, N>, c: ColumnReference) -> bool
    ensures { result ≡ may_move (tree_of plan.entry) (named c) }
{
    if plan.kind() == AGGREGATE {
        return find(plan, wide(c.q), wide(c.n)).is_some();
    }
    all_let_pass(plan, c)
}

// The set of the fields with which a conjunct may move below the plan.
pub fn movable<const N: usize>(plan: Stretch<'_, N>, fields: Fields) -> FieldSet
    requires { fields.len ≤ max_fields }
    ensures { (ns : List Name) → Names fields ns → Masks result ns (may_move (tree_of plan.entry)) }
{
    let mut set = FieldSet::empty();
    for (i, c) in fields.items().iter().enumerate() {
        set = set.mark(i, may_move(plan, *c));
    }
    set
}
