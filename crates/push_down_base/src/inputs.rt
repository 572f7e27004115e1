// The inputs of a plan: its last child, where it has one input; its first two children, where it has two.
ghost use Rattle.push_down_base.specs.Inputs.{Firsts, LastOf};

use image::trees::{Stretch, Subtree};

// The last child of a plan, if it has any.
pub fn last_child(plan: Subtree) -> Option<Subtree>
    ensures { LastOf plan.entry result }
{
    plan.children().last()
}

// The first two children of a tree, if it has as many.
pub fn first_two<'a, const N: usize>(
    tree: Stretch<'a, N>,
) -> Option<(Stretch<'a, N>, Stretch<'a, N>)>
    ensures { Firsts tree.entry result }
{
    let (first, others) = tree.children().split_first()?;
    let (second, _) = others.split_first()?;
    Some((first, second))
}
