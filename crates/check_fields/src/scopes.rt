// What an expression stands over: the scope is the chain of a plan's children and which of their fields are seen; no schema is stored.
ghost use Rattle.std.specs.Prelude.{◌≡◌};
ghost use Rattle.image.specs.Subtrees.{tree_of};
ghost use Rattle.plan.specs.Kinds.{what_of};
ghost use Rattle.check_fields.specs.Count.{counted, hits};
ghost use Rattle.check_fields.specs.Fields.{type_of};
ghost use Rattle.check_fields.specs.Rules.{hand, seen};
ghost use Rattle.check_fields.specs.Scopes.{first_view, left_of, rest_view, right_of, scope_at, view_w};
ghost use Rattle.check_fields.specs.Seek.{seek};

use crate::fields::{
    ALL, FieldType, Sought, passed, seek_alone, seek_field, source_of, type_found,
};
use crate::questions::Question;
use image::records::Label;
use image::trees::{Stretch, Stretches};
use plan::kinds::{PAIR, PlanKind, What, is_plan, what_of};
use std::ops::ControlFlow::Continue;

// Which fields of a plan's children are seen.
#[derive(Clone, Copy, Debug, PartialEq, Eq, Hash)]
pub enum View {
    Nothing,
    FirstInput,
    SecondInput,
    BothInputs,
    // Those that the parts make, as a scan's.
    Parts,
    // Those of the first input and then those that the parts make.
    FirstInputAndParts,
}

// What an expression stands over: the children of a plan, of whose fields some are seen.
#[derive(Clone, Copy)]
pub struct Scope<'a, const N: usize> {
    pub trees: Stretches<'a, N>,
    pub view: View,
}

// What a record hands down: to its first child, and to the others.
#[derive(Clone, Copy)]
pub struct Handed<'a, const N: usize> {
    pub first: Scope<'a, N>,
    pub rest: Scope<'a, N>,
}

// Of the fields asked for in the scope, the one with the place k.
pub fn seek_seen<const N: usize>(here: Scope<'_, N>, asks: Question, k: usize) -> Sought
    ensures { result ≡ seek (hits asks) k (seen (scope_at here.entry)) }
{
    let trees = here.trees;
    match here.view {
        View::Nothing => Continue(k),
        View::FirstInput => seek_field(trees, 0, asks, k),
        View::SecondInput => seek_field(trees, 1, asks, k),
        View::BothInputs => {
            let left = seek_field(trees, 0, asks, k)?;
            seek_field(trees, 1, asks, left)
        }
        View::Parts => seek_alone(trees, asks, k),
        View::FirstInputAndParts => {
            let left = seek_field(trees, 0, asks, k)?;
            seek_alone(trees, asks, left)
        }
    }
}

// How many fields that the question asks for are in the scope.
pub fn held_in<const N: usize>(here: Scope<'_, N>, asks: Question) -> usize
    ensures { result ≡ counted (hits asks) (seen (scope_at here.entry)) }
{
    passed(seek_seen(here, asks, ALL))
}

// What a plan's children see; nothing of a record that is no plan.
pub fn view_of(kind: usize) -> View
    ensures { result ≡ view_w (what_of kind) }
{
    match what_of(kind) {
        What::Plan(PlanKind::TableScan) => View::Parts,
        What::Plan(PlanKind::Join) => View::BothInputs,
        What::Plan(PlanKind::Union) => View::Nothing,
        What::Plan(_) => View::FirstInput,
        _ => View::Nothing,
    }
}

// The left half of a view.
fn left_of(view: View) -> View
    ensures { result ≡ left_of view }
{
    match view {
        View::BothInputs => View::FirstInput,
        View::FirstInputAndParts => View::FirstInput,
        whole => whole,
    }
}

// The right half of a view.
fn right_of(view: View) -> View
    ensures { result ≡ right_of view }
{
    match view {
        View::BothInputs => View::SecondInput,
        View::FirstInputAndParts => View::Parts,
        _ => View::Nothing,
    }
}

// What the first child of a record that is no plan sees: a key pair's stands over the left input.
pub fn first_view(kind: usize, view: View) -> View
    ensures { result ≡ first_view kind view }
{
    if kind == PAIR {
        return left_of(view);
    }
    view
}

// What its other children see: a key pair's stand over the right input.
pub fn rest_view(kind: usize, view: View) -> View
    ensures { result ≡ rest_view kind view }
{
    if kind == PAIR {
        return right_of(view);
    }
    view
}

// What the tree, which stands over `here`, hands down to its children.
pub fn hand<'a, const N: usize>(here: Scope<'a, N>, tree: Stretch<'a, N>) -> Handed<'a, N>
    ensures { let t = tree_of tree.entry in
        hand (scope_at here.entry) t.label t.below ≡ (scope_at result.first, scope_at result.rest) }
{
    let kind = tree.kind();
    if is_plan(kind) {
        let below = tree.children();
        let own = Scope {
            trees: below,
            view: view_of(kind),
        };
        return Handed {
            first: own,
            rest: own,
        };
    }
    Handed {
        first: Scope {
            trees: here.trees,
            view: first_view(kind, here.view),
        },
        rest: Scope {
            trees: here.trees,
            view: rest_view(kind, here.view),
        },
    }
}

// The type of an expression in the scope.
pub fn type_of<const N: usize>(label: Label, here: Scope<'_, N>) -> usize
    ensures { result ≡ type_of (seen (scope_at here.entry)) label }
{
    match source_of(label) {
        FieldType::Known(t) => t,
        FieldType::Named(q, n) => type_found(seek_seen(here, Question::Exact(q, n), 0)),
    }
}
