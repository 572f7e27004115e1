// PushDownFilter::rewrite (785 to 798) of the plan at one record: a Filter by its input, a Join by its own filter, no other.
ghost use Rattle.std.specs.Prelude.{◌≡◌, [], ◌≤◌, ℕ, IfOk, IfSome, length};
ghost use Rattle.image.specs.Limits.{max_records, no_room};
ghost use Rattle.plan.specs.Syntax.{Plan};
ghost use Rattle.rewrite.specs.PushDownFilter.{Transformed};
ghost use Rattle.rewrite.specs.RewriteAt.{Focus};
ghost use Rattle.push_down_merge.specs.Found.{Found, JoinInside};
ghost use Rattle.push_down_merge.specs.Lent.{SameSpace};
ghost use Rattle.push_down_merge.specs.Merging.{Inside};
ghost use Rattle.push_down_rewrite.specs.Outcomes.{Finishes, Outcomes, Replaced, Replaces, answer};

use crate::filter::rewrite_filter;
use answers::splicing::{Spot, write_before, write_records};
use conjuncts::lists::empty;
use image::copying::Writer;
use image::relink::relink;
use image::trees::Subtree;
use plan::kinds::{FILTER, JOIN};
use push_down_join::push_down_all_join::push_down_join;
use push_down_merge::filter::{TooLarge, filter_input, fits, predicate_at, predicate_of};
use push_down_merge::scratch::Scratch;
use push_down_stays::stays::stays;

// A rewrite that is within the limits: its flag, and how many records the new image has that was written; None: the one that was read is the
// answer.
#[derive(Clone, Copy, Debug, PartialEq, Eq, Hash)]
pub struct Rewritten {
    pub flag: bool,
    pub image: Option<usize>,
}

// A plan that stays as it is.
const UNCHANGED: Rewritten = Rewritten {
    flag: false,
    image: None,
};

// Writes what stands behind the new plan, tests the whole, and links it.
pub fn finish(
    s: &[u8],
    spot: Spot,
    levels: &[u32],
    flag: bool,
    out: &mut Writer,
) -> Result<Rewritten, TooLarge>
    requires replaced { Replaced s.now levels.now out.old.bytes.now spot (record { next = out.old.next; flag = flag }) }
    requires levels_len { length levels.now ≡ max_records }
    ensures same { out.new.bytes.ghost_name ≡ out.old.bytes.ghost_name }
    ensures counted { out.new.next ≤ no_room }
    ensures finishes { (node : ℕ) (w : Plan) (c : Focus) (t : Transformed) →
        Replaces s.now levels.now out.old.bytes.now spot (record { next = out.old.next; flag = flag }) node w c t →
        Finishes out.new.bytes.now result c [] t }
{
    write_records(s, levels, spot.end, spot.records, out);
    if !fits(out) {
        return Err(TooLarge);
    }
    let records = out.next;
    relink(out.bytes, records);
    Ok(Rewritten {
        flag,
        image: Some(records),
    })
}

// The Join `plan`.
fn rewrite_join_node(plan: Subtree, scratch: &mut Scratch) -> Result<Rewritten, TooLarge>
    requires { JoinInside plan.image.now plan.number }
    ensures same { SameSpace scratch.old scratch.new }
    ensures outcomes { (w : Plan) (c : Focus) → Inside plan.entry.image.now plan.entry.number w c →
        Outcomes scratch.new.work.now result w c }
{
    let m = &mut *scratch.m;
    let levels = &mut *scratch.levels;
    let work = &mut *scratch.work;
    let mut out = Writer {
        bytes: work,
        next: 0,
    };
    let spot = write_before(plan.image, plan.number, &mut out, levels);
    let flag = push_down_join(plan, empty(), m, &mut out, spot.level);
    finish(plan.image, spot, levels, flag, &mut out)
}

// The plan, written anew if it is a Filter or a Join.
pub fn rewrite_anew(plan: Subtree, scratch: &mut Scratch) -> Result<Rewritten, TooLarge>
    requires { Found plan.image.now plan.number }
    ensures same { SameSpace scratch.old scratch.new }
    ensures outcomes { (w : Plan) (c : Focus) → Inside plan.entry.image.now plan.entry.number w c →
        Outcomes scratch.new.work.now result w c }
{
    // Two kinds of twelve: a match is no shorter.
    let kind = plan.kind();
    if kind == FILTER {
        let p = predicate_at(predicate_of(plan));
        return rewrite_filter(plan, p, filter_input(plan), scratch);
    }
    if kind == JOIN {
        return rewrite_join_node(plan, scratch);
    }
    Ok(UNCHANGED)
}

// The plan. Nothing is written for one that stays as it is: what is written is another plan.
pub fn rewrite(plan: Subtree, scratch: &mut Scratch) -> Result<Rewritten, TooLarge>
    requires { Found plan.image.now plan.number }
    ensures same { SameSpace scratch.old scratch.new }
    ensures outcomes { (w : Plan) (c : Focus) → Inside plan.entry.image.now plan.entry.number w c →
        Outcomes scratch.new.work.now result w c }
    ensures changes { (w : Plan) (c : Focus) → Inside plan.entry.image.now plan.entry.number w c →
        IfOk result (λ o. IfSome o.image (λ _. answer c ≡ w → ⊥)) }
{
    if stays(plan) {
        return Ok(UNCHANGED);
    }
    rewrite_anew(plan, scratch)
}
