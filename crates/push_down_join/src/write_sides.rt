// What push_down_all_join builds (499 to 525), written: each input under its list, the keys, the filter, and a Filter of what stays above.
ghost use Rattle.std.specs.Prelude.{◌≡◌, Bool, ◌∷◌, List, ◌+◌, ◌-◌, ◌<◌, ◌≤◌, eqb, length, take};
ghost use Rattle.std.proofs.Math.Option.{Option};
ghost use Rattle.image.specs.Limits.{max_fields, no_room};
ghost use Rattle.image.specs.Records.{recs, recs_any};
ghost use Rattle.image.specs.Room.{Low, Wrote};
ghost use Rattle.image.specs.Subtrees.{tree_of};
ghost use Rattle.plan.specs.Kinds.{PairPart, number_q};
ghost use Rattle.plan.specs.Lists.{when};
ghost use Rattle.plan.specs.Schema.{schema};
ghost use Rattle.plan.specs.Syntax.{Expr, Kind, Name, Pair, Plan};
ghost use Rattle.plan.specs.Trees.{expr_tree, filter_kids, plan_tree};
ghost use Rattle.rewrite.specs.PushDownFilter.{keep_predicates};
ghost use Rattle.rewrite.specs.Utils.{conjoin, conjunction, with_filters};
ghost use Rattle.conjuncts.specs.Items.{Known, Lists};
ghost use Rattle.utils.specs.Fields.{Names};
ghost use Rattle.utils.specs.Masks.{Masks};
ghost use Rattle.writing.specs.Maps.{MapsTo, Over};
ghost use Rattle.push_down_base.specs.Around.{WroteAll};
ghost use Rattle.push_down_join.specs.JoinPlans.{Carried, Carries, join_over, pair_recs};
ghost use Rattle.push_down_join.specs.Sides.{OneSided, Side, Sided, Sides, SomeSided};

use crate::column_checker::{Scope, inputs};
use crate::extract_or_clause::copy_or_clause;
use conjuncts::items::CLAUSE;
use conjuncts::lists::{Conjuncts, item_at};
use image::copying::Writer;
use image::trees::{Stretch, Subtree};
use plan::kinds::{BINARY_EXPR, FILTER, PAIR};
use plan::words::AND;
use utils::schema_columns::Fields;
use utils::sets::FieldSet;
use writing::conjunction::{copy_item, copy_joined};

// The lists of a join: what moves to each input, what becomes its filter, and what stays above it; and whether anything moves, which the
// lists do not tell: what its own filter keeps is among the conditions.
#[derive(Clone, Copy)]
pub struct Moves {
    pub left: Conjuncts,
    pub right: Conjuncts,
    pub conditions: Conjuncts,
    pub kept: Conjuncts,
    pub flag: bool,
}

// Writes what the item n of a side's list stands for.
pub fn copy_sided<const M: usize>(
    s: &[u8],
    map: Stretch<'_, M>,
    n: usize,
    fields: &Fields,
    side: FieldSet,
    out: &mut Writer,
    level: usize,
)
    requires one_sided { OneSided s.now n }
    requires len_le_max_fields { fields.now.len ≤ max_fields }
    requires over { Over 1 level map }
    ensures same { out.new.bytes.ghost_name ≡ out.old.bytes.ghost_name }
    ensures counted { out.new.next ≤ no_room }
    ensures wrote { (σ : Name → Expr) → MapsTo map.entry σ → (ns : List Name) (t : Name → Bool) → Names fields.now ns →
        Masks side ns t → (e : Expr) → Sided s.now σ ns t n e →
        Wrote out.old.bytes.now out.new.bytes.now out.old.next level out.new.next (expr_tree e) }
{
    if n < CLAUSE {
        copy_item(s, map, n, out, level);
    } else {
        copy_or_clause(s, n - CLAUSE, fields, side, out, level);
    }
}

// Writes the first k items of a side's list, joined left-deep.
fn copy_sided_first<const M: usize>(
    s: &[u8],
    map: Stretch<'_, M>,
    c: &Conjuncts,
    k: usize,
    fields: &Fields,
    side: FieldSet,
    out: &mut Writer,
    level: usize,
)
    requires some_sided { SomeSided s.now c.now }
    requires len_le_max_fields { fields.now.len ≤ max_fields }
    requires k_nonzero { (0 < k) × (k ≤ c.now.len) }
    requires over { Over 1 (level + k) map }
    ensures same { out.new.bytes.ghost_name ≡ out.old.bytes.ghost_name }
    ensures counted { out.new.next ≤ no_room }
    ensures wrote { (σ : Name → Expr) (ns : List Name) (t : Name → Bool) → Side map.entry fields.now side σ ns t →
        (e : Expr) (es : List Expr) → Sides s.now σ ns t c.now (e ∷ es) →
        Wrote out.old.bytes.now out.new.bytes.now out.old.next level out.new.next (expr_tree (conjoin e (take (k - 1) es))) }
{
    let last = k - 1;
    let item = item_at(*c, last);
    if last == 0 {
        copy_sided(s, map, item, fields, side, out, level);
        return;
    }
    out.put_kind(BINARY_EXPR, AND, level);
    copy_sided_first(s, map, c, last, fields, side, out, level + 1);
    copy_sided(s, map, item, fields, side, out, level + 1);
}

// Writes the items of a side's list, joined left-deep.
fn copy_sided_joined<const M: usize>(
    s: &[u8],
    map: Stretch<'_, M>,
    c: &Conjuncts,
    fields: &Fields,
    side: FieldSet,
    out: &mut Writer,
    level: usize,
)
    requires some_sided { SomeSided s.now c.now }
    requires len_le_max_fields { fields.now.len ≤ max_fields }
    requires len_nonzero { 0 < c.now.len }
    requires over { Over 2 level map }
    ensures same { out.new.bytes.ghost_name ≡ out.old.bytes.ghost_name }
    ensures counted { out.new.next ≤ no_room }
    ensures wrote { (σ : Name → Expr) (ns : List Name) (t : Name → Bool) → Side map.entry fields.now side σ ns t →
        (e : Expr) (es : List Expr) → Sides s.now σ ns t c.now (e ∷ es) →
        Wrote out.old.bytes.now out.new.bytes.now out.old.next level out.new.next (expr_tree (conjoin e es)) }
{
    copy_sided_first(s, map, c, c.len, fields, side, out, level);
}

// Writes a plan under a Filter of a side's list, if it has any items.
pub fn copy_sided_filtered<const N: usize, const M: usize>(
    s: &[u8],
    input: Stretch<'_, N>,
    map: Stretch<'_, M>,
    c: Conjuncts,
    fields: &Fields,
    side: FieldSet,
    out: &mut Writer,
    level: usize,
)
    requires some_sided { SomeSided s.now c }
    requires len_le_max_fields { fields.now.len ≤ max_fields }
    requires low { Low (level + 2) (tree_of input).below }
    requires over { Over 3 level map }
    ensures same { out.new.bytes.ghost_name ≡ out.old.bytes.ghost_name }
    ensures counted { out.new.next ≤ no_room }
    ensures wrote { (σ : Name → Expr) (ns : List Name) (t : Name → Bool) → Side map.entry fields.now side σ ns t →
        (es : List Expr) → Sides s.now σ ns t c es → (p : Plan) → tree_of input.entry ≡ plan_tree p →
        Wrote out.old.bytes.now out.new.bytes.now out.old.next level out.new.next (plan_tree (with_filters es p)) }
{
    if c.len == 0 {
        out.copy_tree(input, level);
        return;
    }
    out.put_kind(FILTER, 0, level);
    copy_sided_joined(s, map, &c, fields, side, out, level + 1);
    out.copy_tree(input, level + 1);
}

// Writes a part of a join, if it is a pair of keys.
fn copy_pair(part: Subtree, out: &mut Writer, level: usize)
    requires { Low (level + 1) (tree_of part).below }
    ensures same { out.new.bytes.ghost_name ≡ out.old.bytes.ghost_name }
    ensures wrote { WroteAll out.old.bytes.now out.new.bytes.now out.old.next out.new.next
        (when (eqb (tree_of part.entry).label.kind (number_q PairPart)) (recs level (tree_of part.entry))) }
{
    if part.kind() == PAIR {
        out.copy_tree(part, level);
    } else {
        out.put_nothing();
    }
}

// Writes the pairs of keys of a join.
fn copy_pairs(plan: Subtree, out: &mut Writer, level: usize)
    requires { Low level (tree_of plan).below }
    ensures same { out.new.bytes.ghost_name ≡ out.old.bytes.ghost_name }
    ensures wrote { WroteAll out.old.bytes.now out.new.bytes.now out.old.next out.new.next (pair_recs level (tree_of plan.entry).below) }
{
    out.put_nothing();
    for child in plan.children() {
        copy_pair(child, out, level);
    }
}

// Writes the conjuncts c, joined left-deep, as a join's filter, if there are any.
fn copy_conditions(s: &[u8], map: Subtree, c: Conjuncts, out: &mut Writer, level: usize)
    requires known { Known s.now c }
    requires over { Over 2 level map }
    ensures same { out.new.bytes.ghost_name ≡ out.old.bytes.ghost_name }
    ensures wrote { (σ : Name → Expr) → MapsTo map.entry σ → (es : List Expr) → Lists s.now c es →
        WroteAll out.old.bytes.now out.new.bytes.now out.old.next out.new.next (recs_any level (filter_kids (conjunction es))) }
{
    if c.len != 0 {
        copy_joined(s, map, c, out, level);
    } else {
        out.put_nothing();
    }
}

// Writes a join over what moves to its inputs.
fn write_join(plan: Subtree, map: Subtree, v: Moves, sc: &Scope, out: &mut Writer, level: usize)
    requires carried { Carried plan map sc.now v }
    requires over { Over 4 level map }
    ensures same { out.new.bytes.ghost_name ≡ out.old.bytes.ghost_name }
    ensures wrote { (k : Kind) (l r : Plan) (on : List Pair) (f : Option Expr) (P G : List Expr) (σ : Name → Expr) →
        Carries plan.entry map.entry sc.now v k l r on f P G σ →
        Wrote out.old.bytes.now out.new.bytes.now out.old.next level out.new.next (plan_tree (join_over k l r on P G)) }
{
    let s = plan.image;
    let (left, right) = inputs(plan);
    let fields = &sc.fields;
    let below = level + 1;
    out.put(plan.label(), level);
    copy_sided_filtered(s, left, map, v.left, fields, sc.left, out, below);
    copy_sided_filtered(s, right, map, v.right, fields, sc.right, out, below);
    copy_pairs(plan, out, below);
    copy_conditions(s, map, v.conditions, out, below);
}

// The same under a Filter of what stays above it, if anything does.
pub fn write_kept(plan: Subtree, map: Subtree, v: Moves, sc: &Scope, out: &mut Writer, level: usize)
    requires carried { Carried plan map sc.now v }
    requires over { Over 5 level map }
    ensures same { out.new.bytes.ghost_name ≡ out.old.bytes.ghost_name }
    ensures wrote { (k : Kind) (l r : Plan) (on : List Pair) (f : Option Expr) (P G : List Expr) (σ : Name → Expr) →
        Carries plan.entry map.entry sc.now v k l r on f P G σ →
        Wrote out.old.bytes.now out.new.bytes.now out.old.next level out.new.next
        (plan_tree (with_filters (keep_predicates k (schema l) (schema r) on P G) (join_over k l r on P G))) }
{
    if v.kept.len == 0 {
        write_join(plan, map, v, sc, out, level);
        return;
    }
    out.put_kind(FILTER, 0, level);
    copy_joined(plan.image, map, v.kept, out, level + 1);
    write_join(plan, map, v, sc, out, level + 1);
}
