// The types of a schema's fields by place, and whether two schemas have the same.
ghost use Rattle.std.specs.Prelude.{◌≡◌};
ghost use Rattle.image.specs.Subtrees.{forest};
ghost use Rattle.plan.specs.Lists.{all};
ghost use Rattle.acceptance.specs.Types.{same_types};
ghost use Rattle.check_fields.specs.Fields.{input, inputs};
ghost use Rattle.check_fields.specs.Rules.{seen, types_in, united};
ghost use Rattle.check_fields.specs.Scopes.{scope_at};
ghost use Rattle.check_types.specs.ByPlace.{ty_at};

use check_fields::fields::type_found;
use check_fields::questions::Question;
use check_fields::scopes::{Scope, View, held_in, seek_seen};
use image::trees::Stretches;
use plan::kinds::is_plan;

// The type of the field with the place k, or no type.
pub fn place_type<const N: usize>(fields: Scope<'_, N>, k: usize) -> usize
    ensures { result ≡ ty_at k (seen (scope_at fields.entry)) }
{
    type_found(seek_seen(fields, Question::Every, k))
}

// Whether two schemas have the same types by place, widths included.
pub fn same_fields<const N: usize, const M: usize>(
    fields: Scope<'_, N>,
    others: Scope<'_, M>,
) -> bool
    ensures { result ≡ same_types (types_in (seen (scope_at fields.entry))) (types_in (seen (scope_at others.entry))) }
{
    let width = held_in(fields, Question::Every);
    if width != held_in(others, Question::Every) {
        return false;
    }
    for k in 0..width {
        if place_type(fields, k) != place_type(others, k) {
            return false;
        }
    }
    true
}

// The fields of the first plan among the trees.
pub fn first_plan<'a, const N: usize>(trees: Stretches<'a, N>) -> Scope<'a, N>
    ensures { seen (scope_at result) ≡ input 0 (inputs (forest trees.entry)) }
{
    Scope {
        trees: trees,
        view: View::FirstInput,
    }
}

// Whether the plans among the trees have the types of the first plan among the others.
pub fn as_first<const N: usize>(trees: Stretches<'_, N>, others: Stretches<'_, N>) -> bool
    ensures { result ≡ all (λ t. same_types (types_in t) (types_in (input 0 (inputs (forest others.entry))))) (inputs (forest trees.entry)) }
{
    let first = first_plan(others);
    let mut left = trees;
    while let Some((tree, after)) = left.split_first() {
        if is_plan(tree.kind()) && !same_fields(first_plan(left), first) {
            return false;
        }
        left = after;
    }
    true
}

// Whether the inputs of a Union have the types of the first, which is not compared with itself.
pub fn united<const N: usize>(trees: Stretches<'_, N>) -> bool
    ensures { result ≡ united (inputs (forest trees.entry)) }
{
    let mut left = trees;
    while let Some((tree, after)) = left.split_first() {
        if is_plan(tree.kind()) {
            return as_first(after, left);
        }
        left = after;
    }
    true
}
