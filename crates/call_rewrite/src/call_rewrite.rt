// The call `rewrite` on any bytes, for any record and any room: the image is checked, rewritten and handed out, or refused.
ghost use Rattle.std.specs.Prelude.{◌≡◌, ◌*◌, ◌≤◌, length, Ok};
ghost use Rattle.image.specs.Buffers.{ScratchMap};
ghost use Rattle.image.specs.Limits.{map_bytes, max_records, work_bytes};
ghost use Rattle.plan.specs.Syntax.{Plan};
ghost use Rattle.rewrite.specs.OnBytes.{plan_in, rewrite_bytes, rewritten};
ghost use Rattle.rewrite.specs.RewriteAt.{Focus, granted, rewrite_call, with_room};
ghost use Rattle.push_down_merge.specs.Found.{Here, Whole};
ghost use Rattle.push_down_merge.specs.Merging.{Inside};
ghost use Rattle.push_down_rewrite.specs.Outcomes.{Image, Outcomes};
ghost use Rattle.call_rewrite.specs.Answer.{outcome_of, rewritten_of};

use answers::handing_out::{clear, clear_from, hand_out};
use check_image::check;
use image::limits::{MAP_BYTES, MAX_BYTES, MAX_RECORDS, RECORD_BYTES};
use image::records::{KIND, record_at};
use image::refusals::Refusal;
use image::trees::Subtree;
use image::words::word_at;
use plan::kinds::is_plan;
use push_down_merge::filter::TooLarge;
use push_down_merge::scratch::Scratch;
use push_down_rewrite::node::{Rewritten, rewrite_anew};
use push_down_stays::stays::stays;

// Whether the rewrite says that it changed the plan, and how many records the answer has.
#[derive(Clone, Copy, Debug, PartialEq, Eq, Hash)]
pub struct Answer {
    pub flag: bool,
    pub records: usize,
}

// The answer, of so many records, stands in the output: what is behind it is cleared.
fn clear_behind(records: usize, flag: bool, out: &mut [u8]) -> Answer
    requires { 32 * records ≤ length out.old }
    ensures { (q : Plan) → Image out.old records q →
        rewritten_of (Ok result) out.new
        ≡ rewritten (length out.old) (with_room (length out.old) (granted flag q)) }
{
    clear_from(out, RECORD_BYTES * records);
    Answer { flag, records }
}

// Hands out an image of so many records, if it finds room.
fn hand_over(image: &[u8], records: usize, flag: bool, out: &mut [u8]) -> Result<Answer, Refusal>
    requires { 32 * records ≤ length image.now }
    ensures { (q : Plan) → Image image.now records q →
        outcome_of (length out.old) result out.new
        ≡ rewritten (length out.old) (with_room (length out.old) (granted flag q)) }
{
    if out.len() / RECORD_BYTES < records {
        return Err(Refusal::NoRoom);
    }
    hand_out(image, RECORD_BYTES * records, out);
    Ok(Answer { flag, records })
}

// The rewrite of `plan`, of an accepted image, written anew into a buffer of its own.
fn rewrite_apart(plan: Subtree, scratch: &mut Scratch, out: &mut [u8]) -> Result<Answer, Refusal>
    requires { Here plan.image.now plan.number }
    ensures { outcome_of (length out.old) result out.new
        ≡ rewritten (length out.old) (rewrite_call plan.entry.number (length out.old) (plan_in plan.entry.image.now)) }
{
    match rewrite_anew(plan, scratch) {
        Err(_) => Err(Refusal::TooLarge(plan.number)),
        Ok(r) => match r.image {
            Some(records) => hand_over(scratch.work, records, r.flag, out),
            None => hand_over(plan.image, plan.image.len() / RECORD_BYTES, r.flag, out),
        },
    }
}

// Lends that buffer.
fn rewrite_short(
    plan: Subtree,
    m: &mut [u8],
    levels: &mut [u32],
    out: &mut [u8],
) -> Result<Answer, Refusal>
    requires here { Here plan.image.now plan.number }
    requires map_bytes_in_bounds { (map_bytes ≤ length m.old) × (length levels.old ≡ max_records) }
    ensures { outcome_of (length out.old) result out.new
        ≡ rewritten (length out.old) (rewrite_call plan.entry.number (length out.old) (plan_in plan.entry.image.now)) }
{
    let mut work = [0u8; MAX_BYTES];
    let mut scratch = Scratch {
        m,
        work: &mut work,
        levels,
    };
    rewrite_apart(plan, &mut scratch, out)
}

// The rewrite of `plan`, written anew into `work`.
fn rewrite_into(
    plan: Subtree,
    m: &mut [u8],
    work: &mut [u8],
    levels: &mut [u32],
) -> Result<Rewritten, TooLarge>
    requires here { Here plan.image.now plan.number }
    requires scratch_map { ScratchMap m.old work.old levels.old }
    ensures { (w : Plan) (c : Focus) → Inside plan.entry.image.now plan.entry.number w c → Outcomes work.new result w c }
{
    let mut scratch = Scratch { m, work, levels };
    rewrite_anew(plan, &mut scratch)
}

// The same rewrite, written anew into the output itself, which has room for any image.
fn rewrite_in_output(
    plan: Subtree,
    m: &mut [u8],
    levels: &mut [u32],
    out: &mut [u8],
) -> Result<Answer, Refusal>
    requires here { Here plan.image.now plan.number }
    requires map_bytes_in_bounds { (map_bytes ≤ length m.old) × (length levels.old ≡ max_records) × (work_bytes ≤ length out.old) }
    ensures { outcome_of (length out.old) result out.new
        ≡ rewritten (length out.old) (rewrite_call plan.entry.number (length out.old) (plan_in plan.entry.image.now)) }
{
    match rewrite_into(plan, m, &mut out[..MAX_BYTES], levels) {
        Err(_) => Err(Refusal::TooLarge(plan.number)),
        Ok(r) => match r.image {
            Some(records) => Ok(clear_behind(records, r.flag, out)),
            None => hand_over(plan.image, plan.image.len() / RECORD_BYTES, r.flag, out),
        },
    }
}

// Lends the work space; the rewrite is written into the output if that has room for any image.
fn rewrite_here(plan: Subtree, out: &mut [u8]) -> Result<Answer, Refusal>
    requires { Here plan.image.now plan.number }
    ensures { outcome_of (length out.old) result out.new
        ≡ rewritten (length out.old) (rewrite_call plan.entry.number (length out.old) (plan_in plan.entry.image.now)) }
{
    let mut m = [0u8; MAP_BYTES];
    let mut levels = [0u32; MAX_RECORDS];
    if out.len() < MAX_BYTES {
        return rewrite_short(plan, &mut m, &mut levels, out);
    }
    rewrite_in_output(plan, &mut m, &mut levels, out)
}

// The rewrite at record `node` of an accepted image.
fn rewrite_at(image: &[u8], node: usize, out: &mut [u8]) -> Result<Answer, Refusal>
    requires { Whole image.now }
    ensures { outcome_of (length out.old) result out.new
        ≡ rewritten (length out.old) (rewrite_call node (length out.old) (plan_in image.now)) }
{
    if image.len() / RECORD_BYTES <= node {
        return Err(Refusal::Absent(node));
    }
    if !is_plan(word_at(record_at(image, node), KIND)) {
        return Err(Refusal::Absent(node));
    }
    let plan = Subtree {
        image,
        base: 0,
        number: node,
    };
    // A plan that stays as it is needs no work space.
    if stays(plan) {
        return hand_over(image, image.len() / RECORD_BYTES, false, out);
    }
    rewrite_here(plan, out)
}

// The rewrite at record `node` of any bytes; where it is refused, it leaves in the output what it likes.
fn rewrite_or_refuse(image: &[u8], node: usize, out: &mut [u8]) -> Result<Answer, Refusal>
    ensures { outcome_of (length out.old) result out.new ≡ rewrite_bytes image.now node (length out.old) }
{
    check(image)?;
    rewrite_at(image, node, out)
}

// Every slice, node and output get their answer: a refusal, one of docs/FORMAT.md, clears the output.
pub fn rewrite_bytes(image: &[u8], node: u32, out: &mut [u8]) -> Result<Answer, Refusal>
    ensures { rewritten_of result out.new ≡ rewrite_bytes image.now node (length out.old) }
{
    let answer = rewrite_or_refuse(image, node as usize, out);
    if answer.is_err() {
        clear(out);
    }
    answer
}
