// Whether a plan's schema is sound: each of its fields clashes with one field, itself, and there are not too many.
ghost use Rattle.std.specs.Prelude.{◌≡◌, true, ℕ};
ghost use Rattle.image.specs.Subtrees.{forest};
ghost use Rattle.plan.specs.FieldSources.{own};
ghost use Rattle.plan.specs.Syntax.{nm};
ghost use Rattle.acceptance.specs.Names.{sound};
ghost use Rattle.check_fields.specs.Count.{counted, hits};
ghost use Rattle.check_fields.specs.Fields.{Schema, input, inputs, made, names_in};
ghost use Rattle.check_fields.specs.Rules.{sound_by};
ghost use Rattle.check_names.specs.Singles.{all_of, lone, own_question, own_view, single, whole_of};

use check_fields::questions::Question;
use check_fields::scopes::{Scope, View, held_in};
use image::limits::MAX_FIELDS;
use image::trees::Stretches;
use plan::field_sources::{Role, gives_both, makes_field, own_input, role_of};
use plan::inputs::nth_plan;

// The schema whose fields are told apart: the children of its plan, and the plan's role.
#[derive(Clone, Copy)]
pub struct Whole<'a, const N: usize> {
    pub trees: Stretches<'a, N>,
    pub role: Role,
}

// How many fields of the schema the question finds.
fn held_by<const N: usize>(w: Whole<'_, N>, asks: Question) -> usize
    ensures { result ≡ counted (hits asks) (whole_of w.entry) }
{
    let seen = Scope {
        trees: w.trees,
        view: own_view(w.role),
    };
    held_in(seen, asks)
}

// Whether the question finds one field.
fn is_single<const N: usize>(w: Whole<'_, N>, q: usize, n: usize) -> bool
    ensures { result ≡ single (whole_of w.entry) (own_question w.entry.role) (nm q n) }
{
    held_by(w, own_question(w.role, q, n)) == 1
}

// Whether each field that the parts make is told apart; its qualifier is `to` where an alias with that stands above.
fn all_made<const N: usize>(w: Whole<'_, N>, parts: Stretches<'_, N>, to: Option<usize>) -> bool
    ensures { (c : Schema) → result ≡ all_of (lone (whole_of w.entry) (own_question w.entry.role) to) (made c (forest parts.entry)) }
{
    for part in parts {
        let label = part.label();
        if makes_field(label.kind) && !is_single(w, to.unwrap_or(label.p), label.q) {
            return false;
        }
    }
    true
}

// Whether each field of the plan with the place `skip` is told apart.
fn all_held<const N: usize>(
    w: Whole<'_, N>,
    trees: Stretches<'_, N>,
    skip: usize,
    to: Option<usize>,
) -> bool
    ensures { result ≡ all_of (lone (whole_of w.entry) (own_question w.entry.role) to) (input skip (inputs (forest trees.entry))) }
{
    let Some(plan) = nth_plan(trees, skip) else {
        return true;
    };
    let below = plan.children();
    let label = plan.label();
    let p = label.p;
    let role = role_of(label.kind);
    if role == Role::Creates {
        return all_made(w, below, to);
    }
    if role == Role::Renames {
        return all_held(w, below, 0, Some(to.unwrap_or(p)));
    }
    if !all_held(w, below, own_input(role, p), to) {
        return false;
    }
    if gives_both(role, p) {
        return all_held(w, below, 1, to);
    }
    if role == Role::Extends {
        return all_made(w, below, to);
    }
    true
}

// Whether each field of the schema is told apart.
fn all_single<const N: usize>(w: Whole<'_, N>) -> bool
    ensures { result ≡ all_of (single (whole_of w.entry) (own_question w.entry.role)) (whole_of w.entry) }
{
    let trees = w.trees;
    match w.role {
        Role::Creates => all_made(w, trees, None),
        Role::Joins => all_held(w, trees, 0, None) && all_held(w, trees, 1, None),
        Role::Extends => all_held(w, trees, 0, None) && all_made(w, trees, None),
        Role::NoPlan | Role::Renames | Role::Passes => all_held(w, trees, 0, None),
    }
}

// Which fields of its children a plan's schema has, by the plan's role; a join's are judged with both inputs together.
fn own_view(role: Role) -> View
    ensures { result ≡ own_view role }
{
    match role {
        Role::Creates => View::Parts,
        Role::Joins => View::BothInputs,
        Role::Extends => View::FirstInputAndParts,
        Role::NoPlan | Role::Renames | Role::Passes => View::FirstInput,
    }
}

// The question that tells its field with the qualifier q and the name n apart: under an alias by the name alone.
fn own_question(role: Role, q: usize, n: usize) -> Question
    ensures { result ≡ own_question role (nm q n) }
{
    if role == Role::Renames {
        return Question::ByName(n);
    }
    Question::Clashing(q, n)
}

// Whether the two inputs of a join of the kind p are sound together, where the one is whose fields a semi or anti join has: those of the
// other are told apart.
pub fn is_sound_beside<const N: usize>(trees: Stretches<'_, N>, p: usize) -> bool
    ensures { (c : Schema) → sound (names_in (input (own Role.Joins p) (inputs (forest trees.entry)))) ≡ true
        → result ≡ sound_by Role.Joins p (made c (forest trees.entry)) (inputs (forest trees.entry)) }
{
    let both = Whole {
        trees: trees,
        role: Role::Joins,
    };
    if MAX_FIELDS < held_by(both, Question::Every) {
        return false;
    }
    all_held(both, trees, 1 - own_input(Role::Joins, p), None)
}

// Whether the schema of a plan of this role is sound, and for a join both inputs together.
pub fn is_sound<const N: usize>(trees: Stretches<'_, N>, role: Role) -> bool
    ensures { (c : Schema) (p : ℕ) → result ≡ sound_by role p (made c (forest trees.entry)) (inputs (forest trees.entry)) }
{
    let whole = Whole {
        trees: trees,
        role: role,
    };
    if MAX_FIELDS < held_by(whole, Question::Every) {
        return false;
    }
    all_single(whole)
}
