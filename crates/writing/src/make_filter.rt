// make_filter (push_down_filter.rs 1347 to 1349): a plan of the image written again, under a Filter.
ghost use Rattle.std.specs.Prelude.{◌≡◌, ◌+◌, ◌≤◌};
ghost use Rattle.image.specs.Limits.{max_below, no_room};
ghost use Rattle.image.specs.Room.{Wrote};
ghost use Rattle.image.specs.Subtrees.{tree_of};
ghost use Rattle.image.specs.Tree.{Deep};
ghost use Rattle.plan.specs.Syntax.{Expr, Name, Plan, filter};
ghost use Rattle.plan.specs.Trees.{plan_tree};
ghost use Rattle.writing.specs.Maps.{MapsTo, Over};
ghost use Rattle.writing.specs.Pushed.{Predicate, Predicated};

use crate::conjunction::copy_predicate;
use conjuncts::lists::Conjuncts;
use image::copying::Writer;
use image::trees::Stretch;
use plan::kinds::FILTER;

// Writes the plan under a Filter of a predicate.
pub fn make_filter<const N: usize, const M: usize>(
    s: &[u8],
    map: Stretch<'_, M>,
    written: Option<usize>,
    c: Conjuncts,
    input: Stretch<'_, N>,
    out: &mut Writer,
    level: usize,
)
    requires predicated { Predicated s.now written c }
    requires over { Over 3 level map }
    requires deep { Deep (tree_of input).below max_below }
    ensures same { out.new.bytes.ghost_name ≡ out.old.bytes.ghost_name }
    ensures counted { out.new.next ≤ no_room }
    ensures wrote { (σ : Name → Expr) → MapsTo map.entry σ → (e : Expr) → Predicate s.now σ written c e →
        (p : Plan) → tree_of input.entry ≡ plan_tree p →
        Wrote out.old.bytes.now out.new.bytes.now out.old.next level out.new.next (plan_tree (filter e p)) }
{
    out.put_kind(FILTER, 0, level);
    copy_predicate(s, map, written, c, out, level + 1);
    out.copy_tree(input, level + 1);
}
