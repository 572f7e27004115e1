// ColumnChecker (192 to 228): the sets of the fields of a join's inputs, by which is_left_only and is_right_only are asked.
ghost use Rattle.std.specs.Prelude.{◌≡◌, true, ◌++◌, List, ◌≤◌, length};
ghost use Rattle.std.proofs.Math.Option.{Option};
ghost use Rattle.image.specs.Limits.{max_fields};
ghost use Rattle.image.specs.Subtrees.{tree_of};
ghost use Rattle.image.specs.Tree.{Forest};
ghost use Rattle.plan.specs.Schema.{has, nodup, schema};
ghost use Rattle.plan.specs.Syntax.{Expr, Kind, Name, Pair, Plan, join};
ghost use Rattle.plan.specs.Trees.{plan_tree};
ghost use Rattle.acceptance.specs.NamesRule.{ok};
ghost use Rattle.rewrite.specs.PushDownFilter.{partner};
ghost use Rattle.utils.specs.Fields.{Names};
ghost use Rattle.push_down_base.specs.Inputs.{Two};
ghost use Rattle.push_down_join.specs.JoinPlans.{JoinRuled};
ghost use Rattle.push_down_join.specs.Partners.{Swaps, partner_in};
ghost use Rattle.push_down_join.specs.Scopes.{Scopes, swap};

use crate::infer_join_predicates::{Swapped, places_among, swap_keys};
use image::trees::Stretch;
use push_down_base::inputs::first_two;
use utils::schema_columns::{Fields, no_fields, schema_columns};
use utils::sets::FieldSet;

// The fields of both inputs of a join, the left one's first; the same with each key's partner in its place; and sets of them: those of each
// input, those that have no partner by the keys, and those whose partner, or where they have none they themselves, are of each input.
#[derive(Clone, Copy)]
pub struct Scope {
    pub fields: Fields,
    pub to: Fields,
    pub left: FieldSet,
    pub right: FieldSet,
    pub alone: FieldSet,
    pub leftward: FieldSet,
    pub rightward: FieldSet,
}

// The sets of fields of which the first k are the left input's, by the partners of the keys.
pub fn scope_of(fields: Fields, k: usize, swapped: Swapped) -> Scope
    requires { (fields.len ≤ max_fields) × (k ≤ max_fields) × (swapped.to.len ≤ max_fields) }
    ensures { (l r : List Name) (on : List Pair) (f : Forest) → Names fields (l ++ r) → k ≡ length l → nodup (l ++ r) ≡ true →
        Swaps swapped f (l ++ r) → ((x : Name) → partner_in x f ≡ partner on x) →
        ((x : Name) → has (l ++ r) x ≡ true → has (l ++ r) (swap on x) ≡ true) → Scopes result l r on }
{
    let n = fields.len;
    let to = swapped.to;
    let left = FieldSet::low_places(k);
    let leftward = places_among(fields, to, k);
    Scope {
        fields,
        to,
        left,
        right: left.all_but(n),
        alone: swapped.alone,
        leftward,
        rightward: leftward.all_but(n),
    }
}

// The inputs of a join.
pub fn inputs<'a, const N: usize>(plan: Stretch<'a, N>) -> (Stretch<'a, N>, Stretch<'a, N>)
    ensures { (k : Kind) (l r : Plan) (on : List Pair) (f : Option Expr) → tree_of plan.entry ≡ plan_tree (join k l r on f) →
        Two plan.entry result.0 result.1 }
{
    match first_two(plan) {
        Some(two) => two,
        // Each join has two.
        None => (plan, plan),
    }
}

// The fields of a join that keeps the name rules.
pub fn join_scope<const N: usize>(plan: Stretch<'_, N>) -> Scope
    requires { JoinRuled (tree_of plan) }
    ensures { (k : Kind) (l r : Plan) (on : List Pair) (f : Option Expr) →
        tree_of plan.entry ≡ plan_tree (join k l r on f) → ok (join k l r on f) ≡ true →
        Scopes result (schema l) (schema r) on }
{
    let (lhs, rhs) = inputs(plan);
    let left = schema_columns(lhs, no_fields());
    let fields = schema_columns(rhs, left);
    let swapped = swap_keys(plan, fields);
    scope_of(fields, left.len, swapped)
}
