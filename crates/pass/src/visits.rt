// The walk of a pass: from each record that holds a plan to the next one, with the rewrite there, while the budget lasts.
ghost use Rattle.std.specs.Prelude.{◌≡◌, ◌*◌, ◌/◌, ◌<◌, ◌≤◌, IfOk, IsNone, Ok, drop, length};
ghost use Rattle.std.proofs.Math.Option.{some};
ghost use Rattle.image.specs.Limits.{max_records, work_bytes};
ghost use Rattle.image.specs.Tree.{label_at};
ghost use Rattle.plan.specs.Kinds.{is_plan};
ghost use Rattle.plan.specs.Syntax.{Plan};
ghost use Rattle.acceptance.specs.Accepted.{Accepted, WellFormed};
ghost use Rattle.rewrite.specs.Pass.{pass};
ghost use Rattle.rewrite.specs.RewriteAt.{Focus, focus};
ghost use Rattle.push_down_merge.specs.Lent.{SameSpace};
ghost use Rattle.push_down_rewrite.specs.Outcomes.{Image, answer};
ghost use Rattle.pass.specs.Walks.{Begins, Came, Comes, Continues, Counted, Ends, Going, Next, Standing, Stands, Visited, rest};

use answers::handing_out::copy_bytes;
use image::limits::RECORD_BYTES;
use image::records::{KIND, record_at};
use image::refusals::Refusal;
use image::trees::Subtree;
use image::words::word_at;
use plan::kinds::is_plan;
use push_down_merge::scratch::Scratch;
use push_down_rewrite::node::{Rewritten, rewrite};

// Where a pass stands: how many records the image has now, and the one to visit next, if it is one of them; what is left of the budget; the
// visits and the flags raised so far.
#[derive(Clone, Copy, Debug, PartialEq, Eq, Hash)]
pub struct Walk {
    pub records: usize,
    pub next: usize,
    pub left: u64,
    pub visits: u64,
    pub changed: u64,
}

// Whether record n holds a plan.
fn is_plan_at(s: &[u8], n: usize) -> bool
    requires { n < length s.now / 32 }
    ensures { result ≡ is_plan (label_at (drop (32 * n) s.now)) }
{
    is_plan(word_at(record_at(s, n), KIND))
}

// The first record from `from` on that holds a plan, or the number of records.
fn next_plan(s: &[u8], from: usize) -> usize
    ensures { (q : Plan) → Accepted s.now q → Next q from result }
{
    let records = s.len() / RECORD_BYTES;
    (from..records)
        .find(|n| is_plan_at(s, *n))
        .unwrap_or(records)
}

// A visit left so many records, and raised the flag or not: it is counted, and the walk goes on behind it.
fn go_on(w: Walk, records: usize, flag: bool, image: &[u8]) -> Walk
    requires counted { Counted w }
    requires records_in_bounds { (32 * records ≤ length image.now) × (length image.now ≡ work_bytes) × (w.next < max_records) }
    ensures { (result.left < w.left)
        × ((q : Plan) → WellFormed q → Image image.now records q → Continues image.now w flag result q) }
{
    let end = RECORD_BYTES * records;
    let next = next_plan(&image[..end], w.next + 1);
    Walk {
        records,
        next,
        left: w.left - 1,
        visits: w.visits + 1,
        changed: w.changed + u64::from(flag),
    }
}

// What the rewrite at the next plan wrote takes the place of the image, and the walk goes on. Where nothing was written, nothing is copied.
fn take_over(w: Walk, r: Rewritten, work: &[u8], image: &mut [u8]) -> Walk
    requires comes { Comes image.old work.now w r }
    requires work_len { (length work.now ≡ work_bytes) × (length image.old ≡ work_bytes) }
    ensures { (result.left < w.left)
        × ((q : Plan) → Came image.old work.now w (Ok r) q → Going image.new result (rest w q))
        × (IsNone r.image → image.new ≡ image.old) }
{
    match r.image {
        Some(records) => {
            copy_bytes(work, RECORD_BYTES * records, image);
            go_on(w, records, r.flag, image)
        }
        None => go_on(w, w.records, r.flag, image),
    }
}

// Visits the next plan. A visit that changes nothing copies nothing.
fn visit(w: Walk, image: &mut [u8], scratch: &mut Scratch) -> Result<Walk, Refusal>
    requires standing { Standing image.old w }
    requires next_lt_records { (w.next < w.records) × (0 < w.left) }
    requires image_len { length image.old ≡ work_bytes }
    ensures space { SameSpace scratch.old scratch.new }
    ensures less { IfOk result (λ r. r.left < w.left) }
    ensures visited { (q : Plan) → Stands image.old w q → Visited image.new result (rest w q) }
    ensures same { (q : Plan) (c : Focus) → Stands image.old w q → focus w.next q ≡ some c → answer c ≡ q →
        image.new ≡ image.old }
{
    let end = RECORD_BYTES * w.records;
    let plan = Subtree {
        image: &image[..end],
        base: 0,
        number: w.next,
    };
    match rewrite(plan, scratch) {
        Ok(r) => Ok(take_over(w, r, scratch.work, image)),
        Err(_) => Err(Refusal::TooLarge(w.next)),
    }
}

// Visits one plan after the other, from the root on, until none or nothing of the budget is left, or a rewrite is refused.
#[tactic(auto, using(crate::proofs::Walked::through, crate::proofs::Walked::spent))]
pub fn visit_all(
    records: usize,
    budget: u64,
    image: &mut [u8],
    scratch: &mut Scratch,
) -> Result<Walk, Refusal>
    requires begins { Begins image.old records }
    requires image_len { length image.old ≡ work_bytes }
    ensures space { SameSpace scratch.old scratch.new }
    ensures ends { (q : Plan) → WellFormed q → Image image.old records q → Ends image.new result (pass budget q) }
{
    let mut w = Walk {
        records,
        next: 0,
        left: budget,
        visits: 0,
        changed: 0,
    };
    while w.next < w.records && w.left != 0 {
        w = visit(w, image, scratch)?;
    }
    Ok(w)
}
