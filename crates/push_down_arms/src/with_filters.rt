// with_filters (1417 to 1423): a plan under a Filter, if there is a predicate; and a plan written again with such a Filter over its input
// and another above it. The plan's entries replace columns of predicates.
ghost use Rattle.std.specs.Prelude.{◌≡◌, ◌+◌, ◌-◌, ◌≤◌, ℕ, take};
ghost use Rattle.std.proofs.Math.Option.{Option};
ghost use Rattle.image.specs.Limits.{max_below, no_room};
ghost use Rattle.image.specs.Records.{recs};
ghost use Rattle.image.specs.Room.{Low, Wrote};
ghost use Rattle.image.specs.Subtrees.{tree_of};
ghost use Rattle.image.specs.Tree.{Deep};
ghost use Rattle.plan.specs.Syntax.{Expr, Name, Plan};
ghost use Rattle.plan.specs.Trees.{plan_tree};
ghost use Rattle.writing.specs.Maps.{MapsTo, Over};
ghost use Rattle.push_down_base.specs.Around.{WroteAll};
ghost use Rattle.push_down_base.specs.Frames.{Frame};
ghost use Rattle.push_down_base.specs.Predicates.{Perhaps, Writable};
ghost use Rattle.push_down_arms.specs.Over.{under};

use image::copying::Writer;
use image::trees::{Stretch, Subtree};
use plan::kinds::FILTER;
use push_down_base::predicates::Predicate;
use writing::conjunction::copy_predicate;
use writing::make_filter::make_filter;

// Writes flat those records of the tree that have a number before `end`.
pub fn copy_some<const N: usize>(tree: Stretch<'_, N>, end: usize, out: &mut Writer, level: usize)
    requires { Low (level + 1) (tree_of tree).below }
    ensures same { out.new.bytes.ghost_name ≡ out.old.bytes.ghost_name }
    ensures wrote { WroteAll out.old.bytes.now out.new.bytes.now out.old.next out.new.next
        (take (end - tree.entry.number) (recs level (tree_of tree.entry))) }
{
    // No record of the tree stands before its top.
    if end <= tree.number {
        out.put_nothing();
        return;
    }
    out.put(tree.label(), level);
    for child in tree.children() {
        copy_some(child, end, out, level + 1);
    }
}

// Writes the input of the plan under a Filter, if there is a predicate.
fn with_filters(plan: Subtree, p: Predicate, input: Subtree, out: &mut Writer, level: usize)
    requires writable { Writable plan.image.now plan p }
    requires over { Over 3 level plan }
    requires deep { Deep (tree_of input).below max_below }
    ensures same { out.new.bytes.ghost_name ≡ out.old.bytes.ghost_name }
    ensures counted { out.new.next ≤ no_room }
    ensures wrote { (σ : Name → Expr) → MapsTo plan.entry σ → (o : Option Expr) → Perhaps plan.entry.image.now σ p o →
        (q : Plan) → tree_of input.entry ≡ plan_tree q →
        Wrote out.old.bytes.now out.new.bytes.now out.old.next level out.new.next (plan_tree (under o q)) }
{
    if p.is_gone() {
        out.copy_tree(input, level);
        return;
    }
    let list = p.list;
    make_filter(plan.image, plan, p.written, list, input, out, level);
}

// Writes the plan with its input under a Filter, if there is a predicate.
// The input is the plan's last child: what stands before it is the plan's own.
fn write_below(plan: Subtree, p: Predicate, input: Subtree, out: &mut Writer, level: usize)
    requires writable { Writable plan.image.now plan p }
    requires over { Over 4 level plan }
    requires deep { Deep (tree_of input).below max_below }
    ensures same { out.new.bytes.ghost_name ≡ out.old.bytes.ghost_name }
    ensures counted { out.new.next ≤ no_room }
    ensures wrote { (σ : Name → Expr) → MapsTo plan.entry σ → (o : Option Expr) → Perhaps plan.entry.image.now σ p o →
        (f : Plan → Plan) (q : Plan) (k : ℕ) → Frame f k → input.entry.number ≡ plan.entry.number + k →
        tree_of plan.entry ≡ plan_tree (f q) → tree_of input.entry ≡ plan_tree q →
        Wrote out.old.bytes.now out.new.bytes.now out.old.next level out.new.next (plan_tree (f (under o q))) }
{
    copy_some(plan, input.number, out, level);
    with_filters(plan, p, input, out, level + 1);
}

// The same under a Filter of what stays above, if anything does.
pub fn write_over(
    plan: Subtree,
    above: Predicate,
    below: Predicate,
    input: Subtree,
    out: &mut Writer,
    level: usize,
)
    requires writable { Writable plan.image.now plan above × Writable plan.image.now plan below }
    requires over { Over 5 level plan }
    requires deep { Deep (tree_of input).below max_below }
    ensures same { out.new.bytes.ghost_name ≡ out.old.bytes.ghost_name }
    ensures counted { out.new.next ≤ no_room }
    ensures wrote { (σ : Name → Expr) → MapsTo plan.entry σ → (a b : Option Expr) → Perhaps plan.entry.image.now σ above a →
        Perhaps plan.entry.image.now σ below b → (f : Plan → Plan) (q : Plan) (k : ℕ) → Frame f k →
        input.entry.number ≡ plan.entry.number + k →
        tree_of plan.entry ≡ plan_tree (f q) → tree_of input.entry ≡ plan_tree q →
        Wrote out.old.bytes.now out.new.bytes.now out.old.next level out.new.next (plan_tree (under a (f (under b q)))) }
{
    if above.is_gone() {
        write_below(plan, below, input, out, level);
        return;
    }
    let list = above.list;
    out.put_kind(FILTER, 0, level);
    copy_predicate(plan.image, plan, above.written, list, out, level + 1);
    write_below(plan, below, input, out, level + 1);
}
