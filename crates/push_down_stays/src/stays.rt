// Whether the plan at a record stays as it is: a decision that only reads the image, so that what stays needs no work space.
// The source has no such function: it hands back the plan that it was given.
ghost use Rattle.std.specs.Prelude.{◌≡◌, false, ◌++◌, List, [], ◌≤◌, ℕ, length};
ghost use Rattle.std.proofs.Math.Option.{Option, some};
ghost use Rattle.image.specs.Limits.{work_bytes};
ghost use Rattle.image.specs.Subtrees.{tree_of};
ghost use Rattle.plan.specs.Schema.{schema};
ghost use Rattle.plan.specs.Syntax.{AggEntry, Entry, Expr, Field, Kind, Pair, Plan, WinEntry, aggregate, filter, join, project, scan};
ghost use Rattle.plan.specs.Syntax.{window};
ghost use Rattle.rewrite.specs.PushDownFilter.{nothing_moves, push_down_join, rewrite_filter, simplify_filter};
ghost use Rattle.rewrite.specs.RewriteAt.{Focus};
ghost use Rattle.rewrite.specs.Utils.{conjunction, split_conjunction?};
ghost use Rattle.conjuncts.specs.Says.{LeftDeep, Says};
ghost use Rattle.push_down_base.specs.Arms.{Placed, Rests, Shaped};
ghost use Rattle.push_down_base.specs.Parting.{Reads};
ghost use Rattle.push_down_arms.specs.Divided.{OverAggregate, OverProjection, OverWindow};
ghost use Rattle.push_down_arms.specs.Scans.{OverScan};
ghost use Rattle.push_down_join.specs.JoinPlans.{JoinBetween, JoinHere, OverJoin};
ghost use Rattle.push_down_merge.specs.Found.{Found, OnInput};
ghost use Rattle.push_down_merge.specs.Merging.{FilterInside, Formed, Inside, is_filter};
ghost use Rattle.push_down_stays.specs.Staying.{Kept, Stays, may_stay};

use conjuncts::equality::same_items;
use conjuncts::lists::{Conjuncts, empty};
use conjuncts::split_conjunction::is_left_deep;
use image::trees::Subtree;
use plan::kinds::{
    AGGREGATE, FILTER, JOIN, PROJECTION, PlanKind, TABLE_SCAN, WINDOW, What, what_of,
};
use plan::words::INNER;
use push_down_arms::aggregate::divide_groups;
use push_down_arms::push_some::divide;
use push_down_arms::table_scan::share_of;
use push_down_arms::through::takes_none;
use push_down_base::predicates::Predicate;
use push_down_join::column_checker::join_scope;
use push_down_join::push_down_all_join::{filter_of, join_kind, moves_of, own_filter};
use push_down_merge::filter::{filter_input, predicate_at, predicate_of, simplify_filter};

// Whether the filter of the join is joined left-deep, if it has one.
fn own_left_deep(plan: Subtree) -> bool
    requires { JoinHere plan.image.now plan.number }
    ensures { (k : Kind) (l r : Plan) (on : List Pair) (f : Option Expr) →
        Placed plan.entry.image.now plan.entry.number (join k l r on f) →
        Says result (conjunction (split_conjunction? f) ≡ f) }
{
    match filter_of(plan) {
        Some(filter) => is_left_deep(filter),
        None => true,
    }
}

// Whether nothing of the predicates c above that join, and of those of its own filter, g, moves.
fn nothing_moves(plan: Subtree, c: Conjuncts, g: Conjuncts) -> bool
    requires { JoinBetween plan.image.now plan.number c g }
    ensures { (k : Kind) (l r : Plan) (on : List Pair) (f : Option Expr) (P G : List Expr) →
        Placed plan.entry.image.now plan.entry.number (join k l r on f) →
        Reads plan.entry.image.now (schema l ++ schema r) c P →
        Reads plan.entry.image.now (schema l ++ schema r) g G → result ≡ nothing_moves k (schema l) (schema r) on P G }
{
    let sc = join_scope(plan);
    let kind = join_kind(plan);
    let v = moves_of(plan.image, c, g, &sc, kind);
    !v.flag
}

// That Join: without a filter of its own it always stays.
fn join_stays(plan: Subtree) -> bool
    requires { JoinHere plan.image.now plan.number }
    ensures { (k : Kind) (l r : Plan) (on : List Pair) (f : Option Expr) →
        Placed plan.entry.image.now plan.entry.number (join k l r on f) →
        Kept result (push_down_join k l r on f []) (join k l r on f) }
{
    let g = own_filter(plan);
    if g.len == 0 {
        return true;
    }
    if own_left_deep(plan) {
        return nothing_moves(plan, empty(), g);
    }
    false
}

// Whether the predicate p is joined left-deep: one that is joined anew is.
fn joined_left_deep(image: &[u8], p: Predicate) -> bool
    requires { Formed image.now p × (length image.now ≤ work_bytes) }
    ensures { (e : Expr) → Shaped image.now p e → Says result (LeftDeep e) }
{
    match p.written {
        Some(number) => is_left_deep(Subtree {
            image,
            base: 0,
            number,
        }),
        None => true,
    }
}

// The predicate p over the Join `plan`: what stays above it and in it is joined anew.
fn over_join_stays(plan: Subtree, p: Predicate) -> bool
    requires { OverJoin plan.image.now plan.number p }
    ensures { (e : Expr) (k : Kind) (l r : Plan) (on : List Pair) (f : Option Expr) →
        Rests plan.entry.image.now plan.entry.number p e (join k l r on f) →
        Kept result (rewrite_filter e (join k l r on f)) (filter e (join k l r on f)) }
{
    if !joined_left_deep(plan.image, p) {
        return false;
    }
    if own_left_deep(plan) {
        let list = p.list;
        return nothing_moves(plan, list, own_filter(plan));
    }
    false
}

// .. over the TableScan, which takes nothing of it.
fn over_scan_stays(plan: Subtree, p: Predicate) -> bool
    requires { OverScan plan.image.now plan.number p }
    ensures { (e : Expr) (t : ℕ) (fs : List Field) (es : List Expr) →
        Rests plan.entry.image.now plan.entry.number p e (scan t fs es) →
        Kept result (rewrite_filter e (scan t fs es)) (filter e (scan t fs es)) }
{
    let share = share_of(plan, p);
    let taken = share.taken;
    taken.len == 0
}

// .. over the Projection, below which nothing of it moves.
fn over_projection_stays(plan: Subtree, p: Predicate) -> bool
    requires { OverProjection plan.image.now plan.number p }
    ensures { (e : Expr) (es : List Entry) (q : Plan) → Rests plan.entry.image.now plan.entry.number p e (project es q) →
        Kept result (rewrite_filter e (project es q)) (filter e (project es q)) }
{
    let d = divide(plan, p);
    let moved = d.moved;
    moved.len == 0
}

// .. over the Aggregate: even where nothing moves, what stays is joined anew.
fn over_aggregate_stays(plan: Subtree, p: Predicate) -> bool
    requires { OverAggregate plan.image.now plan.number p }
    ensures { (e : Expr) (gs : List Entry) (ags : List AggEntry) (q : Plan) →
        Rests plan.entry.image.now plan.entry.number p e (aggregate gs ags q) →
        Kept result (rewrite_filter e (aggregate gs ags q)) (filter e (aggregate gs ags q)) }
{
    let d = divide_groups(plan, p);
    let moved = d.moved;
    if moved.len == 0 {
        return joined_left_deep(plan.image, p);
    }
    false
}

// .. over the Window, likewise.
fn over_window_stays(plan: Subtree, p: Predicate) -> bool
    requires { OverWindow plan.image.now plan.number p }
    ensures { (e : Expr) (ws : List WinEntry) (q : Plan) → Rests plan.entry.image.now plan.entry.number p e (window ws q) →
        Kept result (rewrite_filter e (window ws q)) (filter e (window ws q)) }
{
    let d = divide(plan, p);
    let moved = d.moved;
    if moved.len == 0 {
        return joined_left_deep(plan.image, p);
    }
    false
}

// .. over the plan, which is no Filter.
fn over_stays(plan: Subtree, p: Predicate) -> bool
    requires { OnInput plan.image.now plan.number p }
    ensures { (e : Expr) (q : Plan) → Rests plan.entry.image.now plan.entry.number p e q → is_filter q ≡ false →
        Kept result (rewrite_filter e q) (filter e q) }
{
    match what_of(plan.kind()) {
        What::Plan(PlanKind::TableScan) => over_scan_stays(plan, p),
        What::Plan(PlanKind::Projection) => over_projection_stays(plan, p),
        What::Plan(PlanKind::Join) => over_join_stays(plan, p),
        What::Plan(PlanKind::Aggregate) => over_aggregate_stays(plan, p),
        What::Plan(PlanKind::Window) => over_window_stays(plan, p),
        // No Filter comes here.
        What::Plan(
            PlanKind::SubqueryAlias
            | PlanKind::Union
            | PlanKind::Distinct
            | PlanKind::Sort
            | PlanKind::Repartition
            | PlanKind::Limit
            | PlanKind::Filter,
        )
        | What::Expr(_)
        | What::Part(_)
        | What::Unknown => takes_none(plan.label()),
    }
}

// Whether a Filter may stay over the plan; else it merges with it or goes below it, whatever it says.
fn may_stay(plan: Subtree) -> bool
    ensures { result ≡ may_stay (tree_of plan.entry).label }
{
    // Kinds by number, as the definition tests them: a match is no shorter, since a Join depends on its sort.
    let label = plan.label();
    (label.kind == TABLE_SCAN)
        | (label.kind == PROJECTION)
        | ((label.kind == AGGREGATE) | (label.kind == WINDOW))
        | ((label.kind == JOIN) & (label.p != INNER))
        | takes_none(label)
}

// Whether simplifying leaves the predicate p as it is.
fn is_simple(image: &[u8], p: Predicate) -> bool
    requires { Formed image.now p × (length image.now ≤ work_bytes) }
    ensures { (e : Expr) → Shaped image.now p e → Says result (simplify_filter e ≡ some e) }
{
    let simple = simplify_filter(image, p);
    if simple.is_gone() {
        return false;
    }
    if simple.written.is_some() {
        return true;
    }
    // Its conjuncts are joined anew, but they may be the same, in the same order.
    let list = p.list;
    let new = simple.list;
    if same_items(image, new, list) {
        return joined_left_deep(image, p);
    }
    false
}

// The Filter `plan`.
fn filter_stays(plan: Subtree) -> bool
    requires { FilterInside plan.image.now plan.number }
    ensures { (w : Plan) (c : Focus) → Inside plan.entry.image.now plan.entry.number w c → Stays result c.plan }
{
    let input = filter_input(plan);
    if !may_stay(input) {
        return false;
    }
    let p = predicate_at(predicate_of(plan));
    if over_stays(input, p) {
        return is_simple(plan.image, p);
    }
    false
}

// The plan.
pub fn stays(plan: Subtree) -> bool
    requires { Found plan.image.now plan.number }
    ensures { (w : Plan) (c : Focus) → Inside plan.entry.image.now plan.entry.number w c → Stays result c.plan }
{
    // Two kinds of twelve: a match is no shorter.
    let kind = plan.kind();
    if kind == FILTER {
        return filter_stays(plan);
    }
    if kind == JOIN {
        return join_stays(plan);
    }
    true
}
