// The fields of a plan's schema, asked for by recursion on the plan's records: no schema is stored.
ghost use Rattle.std.specs.Prelude.{◌≡◌, true, []};
ghost use Rattle.image.specs.Subtrees.{forest, tree_of};
ghost use Rattle.plan.specs.Kinds.{what, what_of};
ghost use Rattle.plan.specs.FieldSources.{makes};
ghost use Rattle.check_fields.specs.Count.{below, counted, hit, hits, near, under_alias};
ghost use Rattle.check_fields.specs.Fields.{Schema, input, inputs, made, parts_over, type_of};
ghost use Rattle.check_fields.specs.Seek.{Makers, passed_of, seek, told, told_in, type_found};
ghost use Rattle.check_fields.specs.Typed.{part_type, plain_type};

use crate::questions::Question;
use image::records::Label;
use image::trees::{Stretch, Stretches};
use plan::field_sources::{Role, gives_both, makes_field, own_input, role_of};
use plan::inputs::nth_plan;
use plan::kinds::{COLUMN, ExprKind, PartKind, TABLE_SCAN, What, what_of};
use plan::words::{BOOLEAN, INTEGER, NO_TYPE};
use std::ops::ControlFlow;
use std::ops::ControlFlow::{Break, Continue};

// Whether the qualifiers do not tell two fields of one name apart: they are the same, or one is none.
fn near(q: usize, r: usize) -> bool
    ensures { result ≡ near q r }
{
    (r == q) | (r == 0) | (q == 0)
}

// Whether the question asks for the field with the qualifier r and the name m.
fn is_hit(asks: Question, r: usize, m: usize) -> bool
    ensures { result ≡ hit asks r m }
{
    match asks {
        Question::Exact(q, n) => (r == q) & (m == n),
        Question::ByName(n) => m == n,
        Question::Every => true,
        Question::Clashing(q, n) => near(q, r) & (m == n),
        Question::Nothing => false,
    }
}

// The question that is put to the input of an alias with the qualifier p: all its fields have that.
fn under_alias(p: usize, asks: Question) -> Question
    ensures { result ≡ under_alias p asks }
{
    match asks {
        Question::Exact(q, n) if p == q => Question::ByName(n),
        Question::Clashing(q, n) if near(q, p) => Question::ByName(n),
        Question::Exact(..) | Question::Clashing(..) => Question::Nothing,
        other => other,
    }
}

// The question that is put to the input of a plan of this role.
fn question(role: Role, p: usize, asks: Question) -> Question
    ensures { result ≡ below role p asks }
{
    if role == Role::Renames {
        return under_alias(p, asks);
    }
    asks
}

// The type of a field.
#[derive(Clone, Copy, Debug, PartialEq, Eq, Hash)]
pub enum FieldType {
    Known(usize),
    // That of the input's field with this qualifier and name.
    Named(usize, usize),
}

// A search for a field: it ends with the field's type, or goes on with how many that the question asks for are still to be passed.
pub type Sought = ControlFlow<usize, usize>;

// More than any plan has fields: a search for this place passes them all.
pub const ALL: usize = 18446744073709551615;

// The type of an expression that is no column.
fn plain_type(kind: usize, p: usize, r: usize) -> usize
    ensures { result ≡ plain_type (what_of kind) p r }
{
    match what_of(kind) {
        What::Expr(ExprKind::Column) => NO_TYPE,
        What::Expr(ExprKind::Integer) => INTEGER,
        What::Expr(ExprKind::Null) => p,
        What::Expr(ExprKind::Function) => r,
        What::Expr(_) => BOOLEAN,
        _ => NO_TYPE,
    }
}

// The type of an expression.
pub fn source_of(label: Label) -> FieldType
    ensures { (d : Schema) → told d result ≡ type_of d label }
{
    if label.kind == COLUMN {
        return FieldType::Named(label.p, label.q);
    }
    FieldType::Known(plain_type(label.kind, label.p, label.r))
}

// The type of the field that a part makes.
fn made_by<const N: usize>(part: Stretch<'_, N>) -> FieldType
    ensures { let t = tree_of part.entry in (d : Schema) → makes (what t.label) ≡ true
        → told d result ≡ part_type (what t.label) d t.label t.below }
{
    let label = part.label();
    match what_of(label.kind) {
        What::Part(PartKind::FieldPart) => FieldType::Known(label.r),
        What::Part(PartKind::EntryPart) => match part.children().split_first() {
            Some((value, _)) => source_of(value.label()),
            None => FieldType::Known(NO_TYPE),
        },
        _ => FieldType::Known(INTEGER),
    }
}

// Of the fields asked for that the parts make, the one with the place k.
pub fn seek_made<const N: usize>(
    parts: Stretches<'_, N>,
    asks: Question,
    k: usize,
) -> ControlFlow<FieldType, usize>
    ensures { (d : Schema) → told_in d result ≡ seek (hits asks) k (made d (forest parts.entry)) }
{
    let mut left = k;
    for part in parts {
        let label = part.label();
        if makes_field(label.kind) & is_hit(asks, label.p, label.q) {
            if left == 0 {
                return Break(made_by(part));
            }
            left -= 1;
        }
    }
    Continue(left)
}

// The same where the parts stand over no schema, as a scan's.
pub fn seek_alone<const N: usize>(parts: Stretches<'_, N>, asks: Question, k: usize) -> Sought
    ensures { result ≡ seek (hits asks) k (made [] (forest parts.entry)) }
{
    match seek_made(parts, asks, k) {
        Break(FieldType::Known(t)) => Break(t),
        Break(FieldType::Named(..)) => Break(NO_TYPE),
        Continue(left) => Continue(left),
    }
}

// The plan that is asked for fields, and the question that is put to it.
#[derive(Clone, Copy)]
pub struct Maker<'a, const N: usize> {
    pub plan: Stretch<'a, N>,
    pub asks: Question,
}

// Past the plans that have the fields of one input and no others: the plan to ask for those of the one with the place `skip`.
fn find_maker<'a, const N: usize>(
    trees: Stretches<'a, N>,
    skip: usize,
    asks: Question,
) -> Option<Maker<'a, N>>
    ensures { Makers trees.entry skip asks result }
{
    let mut asked = asks;
    let mut next = nth_plan(trees, skip);
    while let Some(plan) = next {
        let label = plan.label();
        let p = label.p;
        let role = role_of(label.kind);
        if (role == Role::Creates) | (role == Role::Extends) | gives_both(role, p) {
            return Some(Maker {
                plan: plan,
                asks: asked,
            });
        }
        asked = question(role, p, asked);
        next = nth_plan(plan.children(), own_input(role, p));
    }
    None
}

// The type that a search found; no type where it found none.
pub fn type_found(x: Sought) -> usize
    ensures { result ≡ type_found x }
{
    x.break_value().unwrap_or(NO_TYPE)
}

// Of the fields asked for of the plan with the place `skip`, the one with the place k. No plan is gone into twice: where an input has it
// not, the search goes on with what is left to pass.
#[cycle(seek_field_seek_parts)]
pub fn seek_field<const N: usize>(
    trees: Stretches<'_, N>,
    skip: usize,
    asks: Question,
    k: usize,
) -> Sought
    ensures { result ≡ seek (hits asks) k (input skip (inputs (forest trees.entry))) }
{
    let Some(maker) = find_maker(trees, skip, asks) else {
        return Continue(k);
    };
    let asked = maker.asks;
    let below = maker.plan.children();
    let label = maker.plan.label();
    let p = label.p;
    let role = role_of(label.kind);
    if role == Role::Creates {
        return seek_parts(below, label.kind, asked, k);
    }
    let left = seek_field(below, own_input(role, p), question(role, p, asked), k)?;
    if gives_both(role, p) {
        return seek_field(below, 1, asked, left);
    }
    if role == Role::Extends {
        return seek_parts(below, label.kind, asked, left);
    }
    Continue(left)
}

// The same of the fields that the parts of a plan of this kind make: they stand over its input. Inlined, so that a plan on the way down takes
// one frame of the stack and not two.
#[inline(always)]
#[cycle(seek_field_seek_parts)]
fn seek_parts<const N: usize>(
    parts: Stretches<'_, N>,
    kind: usize,
    asks: Question,
    k: usize,
) -> Sought
    ensures { result ≡ seek (hits asks) k (made (parts_over kind (inputs (forest parts.entry))) (forest parts.entry)) }
{
    if kind == TABLE_SCAN {
        return seek_alone(parts, asks, k);
    }
    match seek_made(parts, asks, k) {
        Break(FieldType::Known(t)) => Break(t),
        Break(FieldType::Named(q, n)) => {
            Break(type_found(seek_field(parts, 0, Question::Exact(q, n), 0)))
        }
        Continue(left) => Continue(left),
    }
}

// How many of ALL places a search has passed.
pub fn passed<T: Copy>(x: ControlFlow<T, usize>) -> usize
    ensures { result ≡ passed_of x }
{
    match x {
        Break(_) => 0,
        Continue(left) => ALL - left,
    }
}

// How many fields that the question asks for the parts make.
pub fn made_count<const N: usize>(parts: Stretches<'_, N>, asks: Question) -> usize
    ensures { (d : Schema) → result ≡ counted (hits asks) (made d (forest parts.entry)) }
{
    passed(seek_made(parts, asks, ALL))
}

// How many fields that the question asks for the plan with the place `skip` has.
pub fn holders<const N: usize>(trees: Stretches<'_, N>, skip: usize, asks: Question) -> usize
    ensures { result ≡ counted (hits asks) (input skip (inputs (forest trees.entry))) }
{
    passed(seek_field(trees, skip, asks, ALL))
}
