// The match on a Filter's input (834 to 1262), all arms but Filter.
ghost use Rattle.std.specs.Prelude.{◌≡◌, ◌≤◌, false, length};
ghost use Rattle.std.proofs.Math.Option.{Option};
ghost use Rattle.image.specs.Limits.{Shallow, map_bytes};
ghost use Rattle.plan.specs.Syntax.{Expr, Plan};
ghost use Rattle.rewrite.specs.PushDownFilter.{resume, rewrite_filter};
ghost use Rattle.push_down_base.specs.Arms.{Answers, Rests};
ghost use Rattle.push_down_merge.specs.Found.{OnInput};
ghost use Rattle.push_down_merge.specs.Merging.{is_filter};
ghost use Rattle.push_down_rewrite.specs.Filters.{Left, SomeLeft};

use image::copying::Writer;
use image::trees::Subtree;
use plan::kinds::{PlanKind, What, what_of};
use push_down_arms::aggregate::rewrite_aggregate;
use push_down_arms::projection::rewrite_projection;
use push_down_arms::subquery_alias::rewrite_subquery_alias;
use push_down_arms::table_scan::rewrite_table_scan;
use push_down_arms::through::rewrite_through;
use push_down_arms::union::rewrite_union;
use push_down_arms::window::rewrite_window;
use push_down_base::predicates::Predicate;
use push_down_join::push_down_all_join::rewrite_join;

// A predicate that rests on `input`, which is no Filter.
fn rewrite_input(input: Subtree, p: Predicate, m: &mut [u8], out: &mut Writer, level: usize) -> bool
    requires on_input { OnInput input.image.now input.number p }
    requires arm { Shallow 6 level }
    requires map_room { map_bytes ≤ length m.old }
    ensures same { out.new.bytes.ghost_name ≡ out.old.bytes.ghost_name }
    ensures answers { (e : Expr) (q : Plan) → Rests input.entry.image.now input.entry.number p e q → is_filter q ≡ false →
        Answers out.old.bytes.now out.new.bytes.now out.old.next level (record { next = out.new.next; flag = result })
        (rewrite_filter e q) }
{
    match what_of(input.kind()) {
        What::Plan(PlanKind::TableScan) => rewrite_table_scan(input, p, out, level),
        What::Plan(PlanKind::Projection) => rewrite_projection(input, p, out, level),
        What::Plan(PlanKind::Join) => rewrite_join(input, p, m, out, level),
        What::Plan(PlanKind::SubqueryAlias) => rewrite_subquery_alias(input, p, m, out, level),
        What::Plan(PlanKind::Union) => rewrite_union(input, p, m, out, level),
        What::Plan(PlanKind::Aggregate) => rewrite_aggregate(input, p, out, level),
        What::Plan(PlanKind::Window) => rewrite_window(input, p, out, level),
        // No Filter comes here.
        What::Plan(
            PlanKind::Distinct
            | PlanKind::Sort
            | PlanKind::Repartition
            | PlanKind::Limit
            | PlanKind::Filter,
        )
        | What::Expr(_)
        | What::Part(_)
        | What::Unknown => rewrite_through(input, p, out, level),
    }
}

// What is done with the predicate p that is left over `input`: the plan alone where none is (819 to 823), else the match.
pub fn resume(input: Subtree, p: Predicate, m: &mut [u8], out: &mut Writer, level: usize) -> bool
    requires some_left { SomeLeft input.image.now input.number p }
    requires arm { Shallow 6 level }
    requires map_room { map_bytes ≤ length m.old }
    ensures same { out.new.bytes.ghost_name ≡ out.old.bytes.ghost_name }
    ensures answers { (o : Option Expr) (q : Plan) → Left input.entry.image.now input.entry.number p o q →
        Answers out.old.bytes.now out.new.bytes.now out.old.next level (record { next = out.new.next; flag = result })
        (resume o (λ e. rewrite_filter e q) q) }
{
    if p.is_gone() {
        out.copy_tree(input, level);
        return true;
    }
    rewrite_input(input, p, m, out, level)
}
