// Some conjuncts stay above a plan and some move below its one input: what Projection, Aggregate and Window have in common.
ghost use Rattle.std.specs.Prelude.{◌≡◌, ◌∷◌, List, [], ◌+◌, ◌≤◌, ℕ, ltb, length};
ghost use Rattle.image.specs.Limits.{Shallow, max_list, work_bytes};
ghost use Rattle.plan.specs.Columns.{on_cols};
ghost use Rattle.plan.specs.Syntax.{Expr, Plan};
ghost use Rattle.plan.specs.Trees.{plan_tree};
ghost use Rattle.rewrite.specs.PushDownFilter.{move, stay};
ghost use Rattle.rewrite.specs.Utils.{replace_cols, split_conjunction};
ghost use Rattle.conjuncts.specs.Items.{Item, Known, Lists, Present};
ghost use Rattle.conjuncts.specs.Standing.{StandingP};
ghost use Rattle.writing.specs.Maps.{map_of};
ghost use Rattle.writing.specs.Plans.{ThereP};
ghost use Rattle.push_down_base.specs.Arms.{Answers, Placed, Resting, Rests, Takes};
ghost use Rattle.push_down_arms.specs.Divided.{Counts, Divides, Dividing, Singles, parts, pushed};
ghost use Rattle.push_down_arms.specs.Movable.{may_move};

use crate::contain::movable;
use crate::replaced::changed;
use crate::with_filters::write_over;
use conjuncts::items::item_tree;
use conjuncts::lists::{Conjuncts, add, empty};
use conjuncts::split_conjunction::split_conjunction;
use image::copying::Writer;
use image::limits::NO_ROOM;
use image::trees::Subtree;
use push_down_base::inputs::last_child;
use push_down_base::parting::select_side;
use push_down_base::predicates::Predicate;
use utils::schema_columns::{no_fields, schema_columns};
use writing::replace_cols_by_name::value_for;

// The conjuncts of a Filter that stay above the plan under it, and those that move below it.
#[derive(Clone, Copy)]
pub struct Divided {
    pub kept: Conjuncts,
    pub moved: Conjuncts,
}

// Appends as many items as the conjunct n has once the entries of the plan replace its columns: a column may become an And.
fn add_replaced(plan: Subtree, n: usize, c: Conjuncts) -> Conjuncts
    requires present { Present plan.image.now n × ThereP plan.image.now plan.number }
    requires image_bound { length plan.image.now ≤ work_bytes }
    ensures { (e : Expr) (p : Plan) (k : ℕ) → Item plan.entry.image.now n e → split_conjunction e ≡ e ∷ [] →
        StandingP plan.entry.image.now plan.entry.number p → Counts plan.entry.image.now c k →
        Counts plan.entry.image.now result (k + length (split_conjunction (replace_cols (map_of p) e))) }
{
    let Some(conjunct) = item_tree(plan.image, n) else {
        return add(c, n);
    };
    match value_for(conjunct, plan) {
        Some(value) => split_conjunction(value, c),
        None => add(c, n),
    }
}

// Whether the conjuncts c are too many for a list once the entries of the plan replace their columns.
fn is_over(plan: Subtree, c: Conjuncts) -> bool
    requires known { Known plan.image.now c × ThereP plan.image.now plan.number }
    requires image_bound { length plan.image.now ≤ work_bytes }
    ensures { (es : List Expr) (p : Plan) → Lists plan.entry.image.now c es → Singles es →
        StandingP plan.entry.image.now plan.entry.number p → result ≡ ltb max_list (parts (map_of p) es) }
{
    let mut r = empty();
    for n in c.items() {
        r = add_replaced(plan, usize::from(*n), r);
    }
    r.is_too_long()
}

// Parts the conjuncts of the predicate over the plan by whether they may move below it.
pub fn divide(plan: Subtree, p: Predicate) -> Divided
    requires { Resting plan.image.now plan.number p }
    ensures { (e : Expr) (q : Plan) → Rests plan.entry.image.now plan.entry.number p e q →
        Divides plan.entry.image.now result (stay (on_cols (may_move (plan_tree q))) e)
        (move (on_cols (may_move (plan_tree q))) e) }
{
    let list = p.list;
    let fields = schema_columns(plan, no_fields());
    let side = movable(plan, fields);
    let (moved, kept) = select_side(plan.image, list, fields, side);
    Divided { kept, moved }
}

// A Filter over a plan with one input: what moves goes below, over the expressions that the plan's entries name, and what stays is joined
// anew.
pub fn push_some(plan: Subtree, d: Divided, out: &mut Writer, level: usize) -> bool
    requires dividing { Dividing plan.image.now plan.number d }
    requires arm { Shallow 6 level }
    ensures same { out.new.bytes.ghost_name ≡ out.old.bytes.ghost_name }
    ensures answers { (f : Plan → Plan) (q : Plan) (us ds : List Expr) → Placed plan.entry.image.now plan.entry.number (f q) →
        Takes plan.entry.image.now plan.entry.number f q → Divides plan.entry.image.now d us ds →
        Answers out.old.bytes.now out.new.bytes.now out.old.next level (record { next = out.new.next; flag = result })
        (pushed f q us ds) }
{
    let kept = d.kept;
    let moved = d.moved;
    let flag = moved.len != 0;
    // A list that is too long is refused, and nothing is written for it.
    if is_over(plan, moved) {
        out.next = NO_ROOM;
        return flag;
    }
    let above = Predicate::joined(kept);
    let below = Predicate::joined(changed(moved));
    let input = last_child(plan).unwrap_or(plan);
    write_over(plan, above, below, input, out, level);
    flag
}
