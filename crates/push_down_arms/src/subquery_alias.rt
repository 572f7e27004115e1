// The arm SubqueryAlias (876 to 893): columns are renamed by place.
ghost use Rattle.std.specs.Prelude.{◌≡◌, List, ◌≤◌, ℕ, length};
ghost use Rattle.image.specs.Limits.{Shallow, map_bytes};
ghost use Rattle.image.specs.Room.{Wrote};
ghost use Rattle.plan.specs.Schema.{schema};
ghost use Rattle.plan.specs.Syntax.{Expr, Name, Plan, alias, filter};
ghost use Rattle.plan.specs.Trees.{plan_tree};
ghost use Rattle.rewrite.specs.PushDownFilter.{renamed, rewrite_filter};
ghost use Rattle.push_down_base.specs.Arms.{Answers, OverAlias, Rests};
ghost use Rattle.push_down_arms.specs.Renaming.{Renamed, Renaming};

use crate::replaced::changed_predicate;
use image::copying::Writer;
use image::trees::Subtree;
use push_down_base::inputs::last_child;
use push_down_base::predicates::Predicate;
use utils::schema_columns::{Fields, no_fields, schema_columns};
use writing::make_filter::make_filter;
use writing::renames::write_renames;

// Writes the input of a plan under a Filter, whose columns get the names of the input's own fields in the places of those of `from`.
pub fn copy_renamed(
    from: Fields,
    p: Predicate,
    input: Subtree,
    m: &mut [u8],
    out: &mut Writer,
    level: usize,
)
    requires renaming { Renaming input.image.now from p input.number }
    requires map_room { map_bytes ≤ length m.old }
    requires shallow { Shallow 4 level }
    ensures same { out.new.bytes.ghost_name ≡ out.old.bytes.ghost_name }
    ensures wrote { (e : Expr) (q : Plan) (ns : List Name) → Renamed input.entry.image.now from p input.entry.number e q ns →
        Wrote out.old.bytes.now out.new.bytes.now out.old.next level out.new.next (plan_tree (filter (renamed ns (schema q) e) q)) }
{
    let to = schema_columns(input, no_fields());
    write_renames(from, to, m);
    let map = Subtree {
        image: m,
        base: 0,
        number: 0,
    };
    let list = p.list;
    make_filter(input.image, map, p.written, list, input, out, level);
}

// Filter over SubqueryAlias: the predicate goes below, with the names of the alias's input.
pub fn rewrite_subquery_alias(
    plan: Subtree,
    p: Predicate,
    m: &mut [u8],
    out: &mut Writer,
    level: usize,
) -> bool
    requires over_alias { OverAlias plan.image.now plan.number p }
    requires arm { Shallow 6 level }
    requires map_room { map_bytes ≤ length m.old }
    ensures same { out.new.bytes.ghost_name ≡ out.old.bytes.ghost_name }
    ensures answers { (e : Expr) (i : ℕ) (q : Plan) → Rests plan.entry.image.now plan.entry.number p e (alias i q) →
        Answers out.old.bytes.now out.new.bytes.now out.old.next level (record { next = out.new.next; flag = result })
        (rewrite_filter e (alias i q)) }
{
    let from = schema_columns(plan, no_fields());
    let below = changed_predicate(p);
    out.put(plan.label(), level);
    let input = last_child(plan).unwrap_or(plan);
    copy_renamed(from, below, input, m, out, level + 1);
    true
}
