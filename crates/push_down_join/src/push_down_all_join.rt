// push_down_all_join (401 to 525), push_down_join (527 to 563): a join over what moves to its inputs, and what stays above it.
ghost use Rattle.std.specs.Prelude.{◌≡◌, ◌&&◌, Bool, ◌++◌, List, map, ◌+◌, ◌≤◌, ℕ, leb, length};
ghost use Rattle.std.proofs.Math.Option.{Option};
ghost use Rattle.image.specs.Limits.{Shallow, map_bytes, max_fields, max_list};
ghost use Rattle.plan.specs.Schema.{schema};
ghost use Rattle.plan.specs.Syntax.{Expr, Kind, Name, Pair, Plan, join};
ghost use Rattle.plan.specs.WordValues.{join_of};
ghost use Rattle.rewrite.specs.PushDownFilter.{extract_or_clauses_for_join, if_list, is_inner, push_down_all_join, push_down_join};
ghost use Rattle.rewrite.specs.PushDownFilter.{rewrite_filter};
ghost use Rattle.rewrite.specs.Utils.{replace_cols, split_conjunction?};
ghost use Rattle.conjuncts.specs.Items.{Holds, clause_by};
ghost use Rattle.utils.specs.Fields.{Names};
ghost use Rattle.utils.specs.Masks.{Masks};
ghost use Rattle.push_down_base.specs.Arms.{Answers, Placed, Rests};
ghost use Rattle.push_down_base.specs.Parting.{Reads};
ghost use Rattle.push_down_base.specs.Plain.{Plain};
ghost use Rattle.push_down_join.specs.JoinPlans.{FilterOf, JoinBetween, JoinHere, JoinUnder, Moved, OverJoin};
ghost use Rattle.push_down_join.specs.Parts.{Parted, PartsOf, Wholes};
ghost use Rattle.push_down_join.specs.Scopes.{Asked, Scopes, Swapper};
ghost use Rattle.push_down_join.specs.Sides.{Sides, Smalls};

use crate::column_checker::{Scope, join_scope};
use crate::extract_or_clause::extract_or_clauses_for_join;
use crate::infer_join_predicates::infer_join_predicates;
use crate::lr_is_preserved::{Preserved, is_inner, lr_is_preserved, on_lr_is_preserved};
use crate::write_sides::{Moves, write_kept};
use conjuncts::items::REPLACED;
use conjuncts::lists::{Conjuncts, add, empty};
use conjuncts::split_conjunction::split_conjunction;
use image::copying::Writer;
use image::limits::{MAX_LIST, NO_ROOM};
use image::trees::Subtree;
use plan::kinds::FIRST_PLAN;
use plan::words::JoinKind;
use push_down_base::inputs::last_child;
use push_down_base::parting::{push_to, select_side};
use push_down_base::predicates::Predicate;
use utils::schema_columns::Fields;
use utils::sets::FieldSet;
use writing::renames::write_renames;

// Appends the items of c, each with so much more.
pub fn append(to: Conjuncts, c: Conjuncts, more: usize) -> Conjuncts
    requires { Smalls c × (more ≤ clause_by) }
    ensures { (xs ys : List ℕ) → Holds to xs → Holds c ys → Holds result (xs ++ map (λ y. y + more) ys) }
{
    let mut r = to;
    for n in c.items() {
        r = add(r, usize::from(*n) + more);
    }
    r
}

// What of a list of conjuncts a side gets: those that move there, those of which others are inferred that do, and those that move to no
// side, the clauses of which do.
#[derive(Clone, Copy)]
pub struct Part {
    pub moved: Conjuncts,
    pub keyed: Conjuncts,
    pub rest: Conjuncts,
}

// The list of a side, in the source's order.
pub fn side_push(s: &[u8], above: Part, own: Part, fields: Fields, side: FieldSet) -> Conjuncts
    requires wholes { Wholes s.now above × Wholes s.now own }
    requires len_le_max_fields { fields.len ≤ max_fields }
    ensures { (σ : Name → Expr) (ns : List Name) (t : Name → Bool) (a i u b j v : List Expr) →
        Parted s.now ns above a i u →
        Parted s.now ns own b j v → Names fields ns → Masks side ns t →
        Sides s.now σ ns t result (a ++ (map (replace_cols σ) (i ++ j) ++ (b ++ extract_or_clauses_for_join t (u ++ v)))) }
{
    let moved = append(empty(), above.moved, 0);
    let inferred = append(moved, above.keyed, REPLACED);
    let keyed = append(inferred, own.keyed, REPLACED);
    let all = append(keyed, own.moved, 0);
    let clauses = extract_or_clauses_for_join(s, all, above.rest, fields, side);
    extract_or_clauses_for_join(s, clauses, own.rest, fields, side)
}

// A list, or none of it.
fn if_list(told: bool, c: Conjuncts) -> Conjuncts
    ensures { (s : List ℕ) (ns : List Name) (es : List Expr) → Reads s ns c es → Reads s ns result (if_list told es) }
{
    if told {
        return c;
    }
    empty()
}

// What of a list of conjuncts each input gets, and those that move to neither.
#[derive(Clone, Copy)]
pub struct Parts {
    pub left: Part,
    pub right: Part,
    pub rest: Conjuncts,
}

// The parts of the list c, by the sides that are preserved; others are inferred of it if the join is Inner. What moves to the left input
// does not move to the right one as well.
fn parts_of(s: &[u8], c: Conjuncts, sc: &Scope, sides: Preserved, kind: JoinKind) -> Parts
    requires { Asked s.now sc.now c }
    ensures { (l r : List Name) (on : List Pair) (es : List Expr) → Scopes sc.now l r on → Reads s.now (l ++ r) c es →
        PartsOf s.now sides.left sides.right (is_inner (join_of kind)) l r on es result }
{
    let (to_left, stay) = push_to(s, c, sc.fields, sc.left, sides.left);
    let (to_right, rest) = push_to(s, stay, sc.fields, sc.right, sides.right);
    let keyed = infer_join_predicates(s, c, sc, kind);
    let (keyed_left, keyed_stay) = select_side(s, keyed, sc.fields, sc.leftward);
    let (keyed_right, _) = select_side(s, keyed_stay, sc.fields, sc.rightward);
    let left = Part {
        moved: to_left,
        keyed: keyed_left,
        rest: if_list(sides.left, rest),
    };
    let right = Part {
        moved: to_right,
        keyed: keyed_right,
        rest: if_list(sides.right, rest),
    };
    Parts { left, right, rest }
}

// The lists of a join of this kind, of the predicates p above it and those of its own filter, g. What moves to no input becomes a condition
// of an Inner join, and stays above any other.
pub fn moves_of(s: &[u8], p: Conjuncts, g: Conjuncts, sc: &Scope, kind: JoinKind) -> Moves
    requires { Asked s.now sc.now p × Asked s.now sc.now g }
    ensures { (k : Kind) (l r : List Name) (on : List Pair) (P G : List Expr) (σ : Name → Expr) → join_of kind ≡ k →
        Scopes sc.now l r on → Reads s.now (l ++ r) p P → Reads s.now (l ++ r) g G → Swapper σ (l ++ r) on →
        Moved s.now σ result k l r on P G }
{
    let inner = is_inner(kind);
    let above = parts_of(s, p, sc, lr_is_preserved(kind), kind);
    let own = parts_of(s, g, sc, on_lr_is_preserved(kind), kind);
    let left_push = side_push(s, above.left, own.left, sc.fields, sc.left);
    let right_push = side_push(s, above.right, own.right, sc.fields, sc.right);
    let join_conditions = if_list(inner, above.rest);
    let flag = (join_conditions.len != 0) | (left_push.len != 0) | (right_push.len != 0);
    Moves {
        left: left_push,
        right: right_push,
        conditions: append(join_conditions, own.rest, 0),
        kept: if_list(!inner, above.rest),
        flag,
    }
}

// Whether none of the lists that are written is too long.
fn fits(v: Moves) -> bool
    ensures { result ≡ ((leb v.left.len max_list && leb v.right.len max_list) && leb v.conditions.len max_list) }
{
    let left = v.left;
    let right = v.right;
    let conditions = v.conditions;
    (left.len <= MAX_LIST) & (right.len <= MAX_LIST) & (conditions.len <= MAX_LIST)
}

// The kind of a join.
pub fn join_kind(plan: Subtree) -> JoinKind
    ensures { (k : Kind) (l r : Plan) (on : List Pair) (f : Option Expr) →
        Placed plan.entry.image.now plan.entry.number (join k l r on f) → join_of result ≡ k }
{
    JoinKind::of(plan.label().p)
}

// Its filter, if it has one: it is the last child, and the only one that is an expression.
pub fn filter_of(plan: Subtree) -> Option<Subtree>
    requires { JoinHere plan.image.now plan.number }
    ensures { (k : Kind) (l r : Plan) (on : List Pair) (f : Option Expr) →
        Placed plan.entry.image.now plan.entry.number (join k l r on f) → FilterOf plan.entry.image.now result f }
{
    let last = last_child(plan)?;
    (last.kind() < FIRST_PLAN).then_some(last)
}

// The conjuncts of that filter.
pub fn own_filter(plan: Subtree) -> Conjuncts
    requires { JoinHere plan.image.now plan.number }
    ensures { (k : Kind) (l r : Plan) (on : List Pair) (f : Option Expr) →
        Placed plan.entry.image.now plan.entry.number (join k l r on f) →
        Reads plan.entry.image.now (schema l ++ schema r) result (split_conjunction? f) }
{
    match filter_of(plan) {
        Some(filter) => split_conjunction(filter, empty()),
        None => empty(),
    }
}

// push_down_all_join: c is the predicates above a join, g those of its own filter.
fn push_down_all_join(
    plan: Subtree,
    c: Conjuncts,
    g: Conjuncts,
    m: &mut [u8],
    out: &mut Writer,
    level: usize,
) -> bool
    requires join_between { JoinBetween plan.image.now plan.number c g }
    requires arm { Shallow 6 level }
    requires map_room { map_bytes ≤ length m.old }
    ensures same { out.new.bytes.ghost_name ≡ out.old.bytes.ghost_name }
    ensures answers { (k : Kind) (l r : Plan) (on : List Pair) (f : Option Expr) (P G : List Expr) →
        Placed plan.entry.image.now plan.entry.number (join k l r on f) →
        Reads plan.entry.image.now (schema l ++ schema r) c P →
        Reads plan.entry.image.now (schema l ++ schema r) g G → Plain P → Plain G →
        Answers out.old.bytes.now out.new.bytes.now out.old.next level (record { next = out.new.next; flag = result })
        (push_down_all_join k l r on P G) }
{
    let sc = join_scope(plan);
    let kind = join_kind(plan);
    let v = moves_of(plan.image, c, g, &sc, kind);
    // A list that is too long is written nowhere.
    if !fits(v) {
        out.next = NO_ROOM;
        return v.flag;
    }
    write_renames(sc.fields, sc.to, m);
    let map = Subtree {
        image: m,
        base: 0,
        number: 0,
    };
    write_kept(plan, map, v, &sc, out, level);
    v.flag
}

// push_down_join: c is the predicates above a join, none for the Join node itself.
pub fn push_down_join(
    plan: Subtree,
    c: Conjuncts,
    m: &mut [u8],
    out: &mut Writer,
    level: usize,
) -> bool
    requires join_under { JoinUnder plan.image.now plan.number c }
    requires arm { Shallow 6 level }
    requires map_room { map_bytes ≤ length m.old }
    ensures same { out.new.bytes.ghost_name ≡ out.old.bytes.ghost_name }
    ensures answers { (k : Kind) (l q : Plan) (on : List Pair) (f : Option Expr) (P : List Expr) →
        Placed plan.entry.image.now plan.entry.number (join k l q on f) →
        Reads plan.entry.image.now (schema l ++ schema q) c P → Plain P →
        Answers out.old.bytes.now out.new.bytes.now out.old.next level (record { next = out.new.next; flag = result })
        (push_down_join k l q on f P) }
{
    push_down_all_join(plan, c, own_filter(plan), m, out, level)
}

// Filter over Join: the predicate's conjuncts are the predicates above it.
pub fn rewrite_join(
    plan: Subtree,
    p: Predicate,
    m: &mut [u8],
    out: &mut Writer,
    level: usize,
) -> bool
    requires over_join { OverJoin plan.image.now plan.number p }
    requires arm { Shallow 6 level }
    requires map_room { map_bytes ≤ length m.old }
    ensures same { out.new.bytes.ghost_name ≡ out.old.bytes.ghost_name }
    ensures answers { (e : Expr) (k : Kind) (l q : Plan) (on : List Pair) (f : Option Expr) →
        Rests plan.entry.image.now plan.entry.number p e (join k l q on f) →
        Answers out.old.bytes.now out.new.bytes.now out.old.next level (record { next = out.new.next; flag = result })
        (rewrite_filter e (join k l q on f)) }
{
    push_down_join(plan, p.list, m, out, level)
}
