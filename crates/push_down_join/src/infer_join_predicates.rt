// infer_join_predicates and what it calls (574 to 770), for Inner joins (D5): the partner of a column by the keys of a join.
ghost use Rattle.std.specs.Prelude.{◌≡◌, ◌++◌, List, ◌≤◌, ltb};
ghost use Rattle.std.proofs.Math.Option.{none};
ghost use Rattle.image.specs.Limits.{max_fields};
ghost use Rattle.image.specs.Subtrees.{tree_of};
ghost use Rattle.plan.specs.Syntax.{Expr, Name, Pair};
ghost use Rattle.plan.specs.WordValues.{join_of};
ghost use Rattle.rewrite.specs.PushDownFilter.{is_inner, pair_of};
ghost use Rattle.utils.specs.Fields.{Names, named, place_in};
ghost use Rattle.utils.specs.Masks.{Masks};
ghost use Rattle.push_down_base.specs.Parting.{Reads};
ghost use Rattle.push_down_join.specs.Partners.{Swaps, column_of, key_in, name_of, partner_in};
ghost use Rattle.push_down_join.specs.Scopes.{Asked, Scopes, keyed};

use crate::column_checker::Scope;
use crate::lr_is_preserved::is_inner;
use conjuncts::lists::{Conjuncts, empty};
use image::trees::Stretch;
use image::words::wide;
use plan::kinds::{COLUMN, PAIR};
use plan::words::JoinKind;
use push_down_base::inputs::first_two;
use push_down_base::parting::select_side;
use utils::schema_columns::{ColumnReference, Fields, no_fields, place_in};
use utils::sets::FieldSet;

// infer_join_predicates: those that read a key, of an Inner join; with each key's partner in its place they are what is inferred.
pub fn infer_join_predicates(s: &[u8], c: Conjuncts, sc: &Scope, kind: JoinKind) -> Conjuncts
    requires { Asked s.now sc.now c }
    ensures { (l r : List Name) (on : List Pair) (es : List Expr) → Scopes sc.now l r on → Reads s.now (l ++ r) c es →
        Reads s.now (l ++ r) result (keyed (is_inner (join_of kind)) on es) }
{
    if is_inner(kind) {
        let (_, keyed) = select_side(s, c, sc.fields, sc.alone);
        return keyed;
    }
    empty()
}

// The name of an expression, if it is a column.
fn as_column<const N: usize>(tree: Stretch<'_, N>) -> Option<ColumnReference>
    ensures { name_of result ≡ column_of (tree_of tree.entry).label }
{
    let l = tree.label();
    (l.kind == COLUMN).then(|| ColumnReference {
        q: l.p as u32,
        n: l.q as u32,
    })
}

// The partner of the column x in a pair of keys, if both are columns; the left key is tested first.
fn pair_of(
    a: Option<ColumnReference>,
    b: Option<ColumnReference>,
    x: ColumnReference,
) -> Option<ColumnReference>
    ensures { name_of result ≡ pair_of (named x) (name_of a) (name_of b) none }
{
    let (a, b) = (a?, b?);
    if a == x {
        return Some(b);
    }
    if b == x {
        return Some(a);
    }
    None
}

// The partner of the column x in a part of a join, if that is a pair of keys.
fn partner_in<const N: usize>(part: Stretch<'_, N>, x: ColumnReference) -> Option<ColumnReference>
    ensures { name_of result ≡ key_in (named x) (tree_of part.entry).label (tree_of part.entry).below }
{
    if part.kind() != PAIR {
        return None;
    }
    let (left, right) = first_two(part)?;
    pair_of(as_column(left), as_column(right), x)
}

// The partner of the column x in the first pair of keys of a join that holds it.
fn partner<const N: usize>(plan: Stretch<'_, N>, x: ColumnReference) -> Option<ColumnReference>
    ensures { name_of result ≡ partner_in (named x) (tree_of plan.entry).below }
{
    for child in plan.children() {
        let found = partner_in(child, x);
        if found.is_some() {
            return found;
        }
    }
    None
}

// The fields with each key's partner in its place, and the places of those that have none.
#[derive(Clone, Copy)]
pub struct Swapped {
    pub to: Fields,
    pub alone: FieldSet,
}

// The partners of the fields by the keys of a join.
pub fn swap_keys<const N: usize>(plan: Stretch<'_, N>, fields: Fields) -> Swapped
    requires { fields.len ≤ max_fields }
    ensures { (ns : List Name) → Names fields ns → Swaps result (tree_of plan.entry).below ns }
{
    let mut to = no_fields();
    let mut alone = FieldSet::empty();
    for (i, x) in fields.items().iter().enumerate() {
        let found = partner(plan, *x);
        to.push(found.unwrap_or(*x));
        alone = alone.mark(i, found.is_none());
    }
    Swapped { to, alone }
}

// The places of the names of `to` that are among the first k of the fields.
pub fn places_among(fields: Fields, to: Fields, k: usize) -> FieldSet
    requires { (fields.len ≤ max_fields) × (to.len ≤ max_fields) }
    ensures { (ns ms : List Name) → Names fields ns → Names to ms → Masks result ms (λ y. ltb (place_in ns y) k) }
{
    let mut set = FieldSet::empty();
    for (i, x) in to.items().iter().enumerate() {
        let place = place_in(fields, wide(x.q), wide(x.n));
        set = set.mark(i, place < k);
    }
    set
}
