// Depth (4): records that are deeper than an image may be.
ghost use Rattle.std.specs.Prelude.{◌≡◌, ◌+◌, ◌≤◌};
ghost use Rattle.image.specs.Limits.{max_depth};
ghost use Rattle.image.specs.Subtrees.{forest, tree_of};
ghost use Rattle.acceptance.specs.Check.{too_deep};
ghost use Rattle.check_form.specs.Deep.{deepest};

use image::limits::MAX_DEPTH;
use image::trees::{Stretches, Subtree};

// The lowest record that is too deep, of the trees, which stand at the depth `level`.
pub fn too_deep<const N: usize>(trees: Stretches<'_, N>, level: usize) -> Option<usize>
    requires { level ≤ max_depth + 1 }
    ensures { result ≡ deepest level trees.entry.first (forest trees.entry) }
{
    for tree in trees {
        if MAX_DEPTH < level {
            return Some(tree.number);
        }
        let below = too_deep(tree.children(), level + 1);
        if below.is_some() {
            return below;
        }
    }
    None
}

// The lowest record of an image that is too deep.
pub fn bad_depth(root: Subtree) -> Option<usize>
    requires { root.number ≡ 0 }
    ensures { result ≡ too_deep (tree_of root.entry) }
{
    too_deep(root.children(), 2)
}
