// The arm Union (974 to 997).
ghost use Rattle.std.specs.Prelude.{◌≡◌, ◌≤◌, length};
ghost use Rattle.image.specs.Limits.{Shallow, map_bytes};
ghost use Rattle.plan.specs.Syntax.{Expr, Plans, union};
ghost use Rattle.rewrite.specs.PushDownFilter.{rewrite_filter};
ghost use Rattle.push_down_base.specs.Arms.{Answers, OverUnion, Rests};

use crate::replaced::changed_predicate;
use crate::subquery_alias::copy_renamed;
use image::copying::Writer;
use image::trees::Subtree;
use push_down_base::predicates::Predicate;
use utils::schema_columns::{no_fields, schema_columns};

// Filter over Union: each input gets the predicate, with the names of its own fields.
pub fn rewrite_union(
    plan: Subtree,
    p: Predicate,
    m: &mut [u8],
    out: &mut Writer,
    level: usize,
) -> bool
    requires over_union { OverUnion plan.image.now plan.number p }
    requires arm { Shallow 6 level }
    requires map_room { map_bytes ≤ length m.old }
    ensures same { out.new.bytes.ghost_name ≡ out.old.bytes.ghost_name }
    ensures answers { (e : Expr) (ps : Plans) → Rests plan.entry.image.now plan.entry.number p e (union ps) →
        Answers out.old.bytes.now out.new.bytes.now out.old.next level (record { next = out.new.next; flag = result })
        (rewrite_filter e (union ps)) }
{
    let from = schema_columns(plan, no_fields());
    let below = changed_predicate(p);
    out.put(plan.label(), level);
    for input in plan.children() {
        copy_renamed(from, below, input, m, out, level + 1);
    }
    true
}
