// The walk of test 7: the lowest record whose types are wrong, with the scope handed down.
ghost use Rattle.std.specs.Prelude.{◌≡◌};
ghost use Rattle.image.specs.Lowest.{alone, lowest};
ghost use Rattle.image.specs.Subtrees.{forest, tree_of};
ghost use Rattle.plan.specs.Kinds.{what};
ghost use Rattle.check_fields.specs.Rules.{bad_types, hand, type_ok, type_ok_by, types_of};
ghost use Rattle.check_fields.specs.Scopes.{scope_at};
ghost use Rattle.check_types.specs.Standing.{Whole};

use crate::operands::{demand_of, meets};
use crate::places::united;
use crate::scans::as_scanned;
use check_fields::scopes::{Handed, Scope, View, hand};
use image::trees::{Stretch, Stretches, Subtree};
use plan::kinds::{TABLE_SCAN, UNION};

// The rule of the tree's record, which hands this down.
pub fn type_ok<'a, const N: usize>(
    tree: Stretch<'a, N>,
    handed: Handed<'a, N>,
    root: Subtree,
) -> bool
    requires { Whole root }
    ensures { let t = tree_of tree.entry in
        result ≡ type_ok_by (what t.label) (alone (tree_of root.entry)) t.label t.below
        (types_of (scope_at handed.entry.first) (scope_at handed.entry.rest) t.below) }
{
    let label = tree.label();
    let below = tree.children();
    let d = demand_of(label.kind, label.p, label.r);
    if !meets(d, below, handed.first, handed.rest) {
        return false;
    }
    if label.kind == TABLE_SCAN {
        return as_scanned(root, label.p, below);
    }
    if label.kind == UNION {
        return united(below);
    }
    true
}

// The lowest record of the trees whose types are wrong: the first stands over `here`, the others over `after`.
pub fn bad_type<'a, const N: usize>(
    trees: Stretches<'a, N>,
    here: Scope<'a, N>,
    after: Scope<'a, N>,
    root: Subtree,
) -> Option<usize>
    requires { Whole root }
    ensures { result ≡ (lowest (type_ok (alone (tree_of root.entry))) hand (scope_at here.entry) (scope_at after.entry)
        trees.entry.first (forest trees.entry)) }
{
    let mut over = here;
    for tree in trees {
        let handed = hand(over, tree);
        if !type_ok(tree, handed, root) {
            return Some(tree.number);
        }
        let below = bad_type(tree.children(), handed.first, handed.rest, root);
        if below.is_some() {
            return below;
        }
        over = after;
    }
    None
}

// Test 7: the lowest record of an image whose types are wrong.
pub fn bad_types(root: Subtree) -> Option<usize>
    requires { Whole root }
    ensures { result ≡ bad_types (tree_of root.entry) }
{
    let none = Stretches {
        image: root.image,
        base: root.base,
        first: 0,
    };
    let nothing = Scope {
        trees: none,
        view: View::Nothing,
    };
    let handed = hand(nothing, root);
    if !type_ok(root, handed, root) {
        return Some(0);
    }
    bad_type(root.children(), handed.first, handed.rest, root)
}
