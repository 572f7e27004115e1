// Name (6): the lowest record whose reference does not name one field of what it stands over, or whose schema is not sound.
ghost use Rattle.std.specs.Prelude.{◌≡◌, true, ◌<◌, ℕ};
ghost use Rattle.image.specs.Lowest.{lowest};
ghost use Rattle.image.specs.Subtrees.{forest, tree_of};
ghost use Rattle.image.specs.Tree.{node, none};
ghost use Rattle.acceptance.specs.Names.{sound};
ghost use Rattle.check_fields.specs.Fields.{input, inputs, names_in};
ghost use Rattle.check_fields.specs.Rules.{bad_names, hand, name_ok};
ghost use Rattle.check_fields.specs.Scopes.{scope_at};
ghost use Rattle.check_names.specs.Singles.{known_inputs};

use crate::schemas::{is_sound, is_sound_beside};
use check_fields::questions::Question;
use check_fields::scopes::{Scope, View, hand, held_in};
use image::trees::{Stretch, Stretches, Subtree};
use plan::field_sources::{Role, gives_both, role_of};
use plan::kinds::{COLUMN, is_plan};

// Whether the tree's record, which stands over `here`, keeps the rule. A plan that is known to be sound is not tested again, but of a
// semi or anti join the other input.
fn name_ok<const N: usize>(tree: Stretch<'_, N>, here: Scope<'_, N>, known: bool) -> bool
    ensures { let t = tree_of tree.entry in
        (known ≡ true → sound (names_in (input 0 (inputs (node t.label t.below none)))) ≡ true)
        → result ≡ name_ok (scope_at here.entry) t.label t.below }
{
    let label = tree.label();
    if label.kind == COLUMN {
        return held_in(here, Question::Exact(label.p, label.q)) == 1;
    }
    if !is_plan(label.kind) {
        return true;
    }
    let role = role_of(label.kind);
    if !known {
        return is_sound(tree.children(), role);
    }
    if (role == Role::Joins) & !gives_both(role, label.p) {
        return is_sound_beside(tree.children(), label.p);
    }
    true
}

// How many inputs of a plan of this role are sound where it keeps the rule: both of a join, the first of others that have its fields.
fn known_inputs(role: Role) -> usize
    ensures { result ≡ known_inputs role }
{
    match role {
        Role::NoPlan | Role::Creates => 0,
        Role::Joins => 2,
        Role::Renames | Role::Extends | Role::Passes => 1,
    }
}

// The lowest record that breaks the rule, of the trees: the first stands over `here`, the others over `after`.
// `known`: so many of the first plans among them are sound, since their fields are among those of their parent, which is.
pub fn bad_name<'a, const N: usize>(
    trees: Stretches<'a, N>,
    here: Scope<'a, N>,
    after: Scope<'a, N>,
    known: usize,
) -> Option<usize>
    ensures { ((i : ℕ) → i < known → sound (names_in (input i (inputs (forest trees.entry)))) ≡ true)
        → result ≡ (lowest name_ok hand (scope_at here.entry) (scope_at after.entry) trees.entry.first (forest trees.entry)) }
{
    let mut over = here;
    let mut sound = known;
    for tree in trees {
        if !name_ok(tree, over, 0 < sound) {
            return Some(tree.number);
        }
        let kind = tree.kind();
        let handed = hand(over, tree);
        let below = bad_name(
            tree.children(),
            handed.first,
            handed.rest,
            known_inputs(role_of(kind)),
        );
        if below.is_some() {
            return below;
        }
        if is_plan(kind) {
            sound = sound.saturating_sub(1);
        }
        over = after;
    }
    None
}

// The lowest record of an image that breaks the rule.
pub fn bad_names(root: Subtree) -> Option<usize>
    requires { root.number ≡ 0 }
    ensures { result ≡ bad_names (tree_of root.entry) }
{
    let none = Stretches {
        image: root.image,
        base: root.base,
        first: 0,
    };
    let nothing = Scope {
        trees: none,
        view: View::Nothing,
    };
    if !name_ok(root, nothing, false) {
        return Some(0);
    }
    let handed = hand(nothing, root);
    bad_name(
        root.children(),
        handed.first,
        handed.rest,
        known_inputs(role_of(root.kind())),
    )
}
