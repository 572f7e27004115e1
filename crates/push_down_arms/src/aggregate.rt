// The arm Aggregate (998 to 1034), with the difference D4.
ghost use Rattle.std.specs.Prelude.{◌≡◌, List};
ghost use Rattle.image.specs.Limits.{Shallow};
ghost use Rattle.image.specs.Subtrees.{tree_of};
ghost use Rattle.plan.specs.Syntax.{AggEntry, Entry, Expr, Plan, aggregate};
ghost use Rattle.rewrite.specs.PushDownFilter.{in_groups, move, rewrite_filter, stay};
ghost use Rattle.push_down_base.specs.Arms.{Answers, Rests};
ghost use Rattle.push_down_arms.specs.Divided.{Divides, OverAggregate};
ghost use Rattle.push_down_arms.specs.Movable.{entry_first};

use crate::push_some::{Divided, divide, push_some};
use conjuncts::lists::empty;
use image::copying::Writer;
use image::trees::Subtree;
use plan::kinds::ENTRY;
use push_down_base::predicates::Predicate;

// Whether the Aggregate has group entries: they come first.
fn has_groups(plan: Subtree) -> bool
    ensures { result ≡ entry_first (tree_of plan.entry).below }
{
    match plan.children().split_first() {
        Some((first, _)) => first.kind() == ENTRY,
        None => false,
    }
}

// Parts them over an Aggregate: without group entries nothing moves, not even a conjunct without columns.
pub fn divide_groups(plan: Subtree, p: Predicate) -> Divided
    requires { OverAggregate plan.image.now plan.number p }
    ensures { (e : Expr) (gs : List Entry) (ags : List AggEntry) (q : Plan) →
        Rests plan.entry.image.now plan.entry.number p e (aggregate gs ags q) →
        Divides plan.entry.image.now result (stay (in_groups gs) e) (move (in_groups gs) e) }
{
    if has_groups(plan) {
        return divide(plan, p);
    }
    let list = p.list;
    Divided {
        kept: list,
        moved: empty(),
    }
}

// Filter over Aggregate: what reads group columns alone moves.
pub fn rewrite_aggregate(plan: Subtree, p: Predicate, out: &mut Writer, level: usize) -> bool
    requires over_aggregate { OverAggregate plan.image.now plan.number p }
    requires arm { Shallow 6 level }
    ensures same { out.new.bytes.ghost_name ≡ out.old.bytes.ghost_name }
    ensures answers { (e : Expr) (gs : List Entry) (ags : List AggEntry) (q : Plan) →
        Rests plan.entry.image.now plan.entry.number p e (aggregate gs ags q) →
        Answers out.old.bytes.now out.new.bytes.now out.old.next level (record { next = out.new.next; flag = result })
        (rewrite_filter e (aggregate gs ags q)) }
{
    push_some(plan, divide_groups(plan, p), out, level)
}
