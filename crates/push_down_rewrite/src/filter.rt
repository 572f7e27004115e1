// PushDownFilter::rewrite (785 to 1264) of a Filter: the arm Filter (835 to 850) calls the rewrite again, of the merged Filter.
ghost use Rattle.std.specs.Prelude.{◌≡◌, []};
ghost use Rattle.std.proofs.Math.Option.{Option, some};
ghost use Rattle.plan.specs.Syntax.{Expr, Plan, filter};
ghost use Rattle.rewrite.specs.PushDownFilter.{merged, merges, merges_under, resume, rewrite, rewrite_filter};
ghost use Rattle.rewrite.specs.RewriteAt.{Focus};
ghost use Rattle.rewrite.specs.Utils.{conjunction};
ghost use Rattle.push_down_base.specs.Arms.{Rests};
ghost use Rattle.push_down_merge.specs.Lent.{SameSpace};
ghost use Rattle.push_down_merge.specs.Merging.{Inside, Made};
ghost use Rattle.push_down_rewrite.specs.Filters.{Left, LeftInside, OnFilter, OnPlan};
ghost use Rattle.push_down_rewrite.specs.Outcomes.{Finishes};

use crate::input::resume;
use crate::node::{Rewritten, finish};
use answers::splicing::write_before;
use image::copying::Writer;
use image::trees::Subtree;
use plan::kinds::FILTER;
use push_down_base::predicates::Predicate;
use push_down_merge::filter::{
    TooLarge, filter_input, merge, merge_fits, predicate_at, predicate_of, simplify_filter,
};
use push_down_merge::scratch::Scratch;

// What is left of a predicate, p, over `input`, written in the place of `plan`.
fn resume_in_place(
    plan: Subtree,
    p: &Predicate,
    input: Subtree,
    scratch: &mut Scratch,
) -> Result<Rewritten, TooLarge>
    requires image { input.image.now ≡ plan.image.now }
    requires left_inside { LeftInside plan.image.now plan.number p.now input.number }
    ensures same { SameSpace scratch.old scratch.new }
    ensures finishes { (w : Plan) (c : Focus) → Inside plan.entry.image.now plan.entry.number w c → (o : Option Expr) (q : Plan) →
        Left plan.entry.image.now input.entry.number p.now o q →
        Finishes scratch.new.work.now result c [] (resume o (λ e. rewrite_filter e q) q) }
{
    let m = &mut *scratch.m;
    let levels = &mut *scratch.levels;
    let work = &mut *scratch.work;
    let mut out = Writer {
        bytes: work,
        next: 0,
    };
    let spot = write_before(plan.image, plan.number, &mut out, levels);
    let flag = resume(input, *p, m, &mut out, spot.level);
    finish(plan.image, spot, levels, flag, &mut out)
}

// A Filter with the predicate p over `input`, in the place of `plan`. The arms are called in two places: what is called in one only is
// compiled into it, and their lists would stand in the frame of every Filter of a stack; predicates are lent for the same reason.
#[cycle(merge_filter_rewrite_filter)]
pub fn rewrite_filter(
    plan: Subtree,
    p: Predicate,
    input: Subtree,
    scratch: &mut Scratch,
) -> Result<Rewritten, TooLarge>
    requires image { input.image.now ≡ plan.image.now }
    requires on_plan { OnPlan plan.image.now plan.number p input.number }
    ensures same { SameSpace scratch.old scratch.new }
    ensures finishes { (w : Plan) (c : Focus) → Inside plan.entry.image.now plan.entry.number w c → (e : Expr) (q : Plan) →
        Rests plan.entry.image.now input.entry.number p e q →
        Finishes scratch.new.work.now result c (merges (filter e q)) (rewrite (filter e q)) }
{
    let left = simplify_filter(plan.image, p);
    if left.is_gone() {
        return resume_in_place(plan, &left, input, scratch);
    }
    if input.kind() == FILTER {
        return merge_filter(plan, &left, input, scratch);
    }
    resume_in_place(plan, &left, input, scratch)
}

// The predicate p joined with that of `child`, a Filter. Never inlined: the frame of every Filter of a stack would have the child's list.
#[inline(never)]
fn merged_predicate(plan: Subtree, p: &Predicate, child: Subtree) -> Predicate
    requires image { child.image.now ≡ plan.image.now }
    requires on_filter { OnFilter plan.image.now plan.number p.now child.number }
    ensures { (e b m : Expr) (q : Plan) → Rests plan.entry.image.now child.entry.number p.now e (filter b q) →
        conjunction (merged e b) ≡ some m → Made plan.entry.image.now result m }
{
    let lower = predicate_at(predicate_of(child));
    merge(plan.image, p, &lower.list)
}

// The predicate p, which is simplified already, over `child`, a Filter: both become one, which is rewritten again.
#[cycle(merge_filter_rewrite_filter)]
fn merge_filter(
    plan: Subtree,
    p: &Predicate,
    child: Subtree,
    scratch: &mut Scratch,
) -> Result<Rewritten, TooLarge>
    requires image { child.image.now ≡ plan.image.now }
    requires on_filter { OnFilter plan.image.now plan.number p.now child.number }
    ensures same { SameSpace scratch.old scratch.new }
    ensures finishes { (w : Plan) (c : Focus) → Inside plan.entry.image.now plan.entry.number w c → (e b : Expr) (q : Plan) →
        Rests plan.entry.image.now child.entry.number p.now e (filter b q) →
        Finishes scratch.new.work.now result c (merges_under e (filter b q)) (rewrite_filter e (filter b q)) }
{
    let input = filter_input(child);
    let merged = merged_predicate(plan, p, child);
    let work = &mut *scratch.work;
    let levels = &mut *scratch.levels;
    merge_fits(plan, &merged, input, work, levels)?;
    rewrite_filter(plan, merged, input, scratch)
}
