// The call `pass` on any bytes, for any budget and any room: the image is checked, the pass made and its plan handed out, or it is refused.
ghost use Rattle.std.specs.Prelude.{◌≡◌, ◌*◌, ◌≤◌, length, Ok};
ghost use Rattle.image.specs.Limits.{max_records, work_bytes};
ghost use Rattle.rewrite.specs.OnBytes.{pass_bytes, plan_in, reported};
ghost use Rattle.rewrite.specs.Pass.{PassAnswer, pass, pass_call, pass_with_room};
ghost use Rattle.push_down_merge.specs.Found.{Whole};
ghost use Rattle.pass.specs.Walks.{Ends, Left};
ghost use Rattle.call_pass.specs.Answer.{Small, outcome_of, passed_of};

use answers::handing_out::{clear, clear_from, copy_bytes};
use check_image::check;
use image::limits::{MAP_BYTES, MAX_BYTES, MAX_RECORDS, RECORD_BYTES};
use image::refusals::Refusal;
use pass::visits::{Walk, visit_all};
use push_down_merge::scratch::Scratch;

// How many plans were visited, how many visits raised the flag, whether no plan is left to visit, and how many records the plan has that is
// handed out.
#[derive(Clone, Copy, Debug, PartialEq, Eq, Hash)]
pub struct Answer {
    pub visits: u64,
    pub changed: u64,
    pub finished: bool,
    pub records: usize,
}

// The walk over an accepted image; `a` holds the image as it stands.
fn walk_in(image: &[u8], budget: u64, a: &mut [u8], scratch: &mut Scratch) -> Result<Walk, Refusal>
    requires whole { Whole image.now }
    requires a_len { length a.old ≡ work_bytes }
    ensures { Ends a.new result (pass budget (plan_in image.now)) }
{
    copy_bytes(image, image.len(), a);
    visit_all(image.len() / RECORD_BYTES, budget, a, scratch)
}

// The image at which the walk ended stands in the output: what is behind it is cleared.
fn clear_behind_walk(w: Walk, out: &mut [u8]) -> Answer
    requires { (32 * w.records ≤ length out.old) × (w.records ≤ max_records) }
    ensures { Small (Ok result) × ((x : PassAnswer) → Left out.old w x →
        passed_of (Ok result) out.new ≡ reported (length out.old) (pass_with_room (length out.old) x)) }
{
    clear_from(out, RECORD_BYTES * w.records);
    Answer {
        visits: w.visits,
        changed: w.changed,
        finished: w.records <= w.next,
        records: w.records,
    }
}

// Hands out the image at which the walk ended, if it finds room.
fn hand_over_walk(image: &[u8], w: Walk, out: &mut [u8]) -> Result<Answer, Refusal>
    requires { (32 * w.records ≤ length image.now) × (length image.now ≡ work_bytes) }
    ensures { Small result × ((x : PassAnswer) → Left image.now w x →
        outcome_of (length out.old) result out.new ≡ reported (length out.old) (pass_with_room (length out.old) x)) }
{
    if out.len() / RECORD_BYTES < w.records {
        return Err(Refusal::NoRoom);
    }
    copy_bytes(image, RECORD_BYTES * w.records, out);
    Ok(clear_behind_walk(w, out))
}

// The pass over an accepted image, in a buffer of its own.
fn pass_apart(
    image: &[u8],
    budget: u64,
    a: &mut [u8],
    scratch: &mut Scratch,
    out: &mut [u8],
) -> Result<Answer, Refusal>
    requires whole { Whole image.now }
    requires a_len { length a.old ≡ work_bytes }
    ensures { Small result × (outcome_of (length out.old) result out.new
        ≡ reported (length out.old) (pass_call budget (length out.old) (plan_in image.now))) }
{
    let w = walk_in(image, budget, a, scratch)?;
    hand_over_walk(a, w, out)
}

// Lends that buffer.
fn pass_short(
    image: &[u8],
    budget: u64,
    scratch: &mut Scratch,
    out: &mut [u8],
) -> Result<Answer, Refusal>
    requires { Whole image.now }
    ensures { Small result × (outcome_of (length out.old) result out.new
        ≡ reported (length out.old) (pass_call budget (length out.old) (plan_in image.now))) }
{
    let mut a = [0u8; MAX_BYTES];
    pass_apart(image, budget, &mut a, scratch, out)
}

// The same pass in the output itself, which has room for any image.
fn pass_in_output(
    image: &[u8],
    budget: u64,
    scratch: &mut Scratch,
    out: &mut [u8],
) -> Result<Answer, Refusal>
    requires whole { Whole image.now }
    requires out_len { work_bytes ≤ length out.old }
    ensures { Small result × (outcome_of (length out.old) result out.new
        ≡ reported (length out.old) (pass_call budget (length out.old) (plan_in image.now))) }
{
    let w = walk_in(image, budget, &mut out[..MAX_BYTES], scratch)?;
    Ok(clear_behind_walk(w, out))
}

// Lends the work space; the pass is made in the output if that has room for any image.
fn pass_on(image: &[u8], budget: u64, out: &mut [u8]) -> Result<Answer, Refusal>
    requires { Whole image.now }
    ensures { Small result × (outcome_of (length out.old) result out.new
        ≡ reported (length out.old) (pass_call budget (length out.old) (plan_in image.now))) }
{
    let mut m = [0u8; MAP_BYTES];
    let mut work = [0u8; MAX_BYTES];
    let mut levels = [0u32; MAX_RECORDS];
    let mut scratch = Scratch {
        m: &mut m,
        work: &mut work,
        levels: &mut levels,
    };
    if out.len() < MAX_BYTES {
        return pass_short(image, budget, &mut scratch, out);
    }
    pass_in_output(image, budget, &mut scratch, out)
}

// The pass over any bytes; where it is refused, it leaves in the output what it likes.
fn pass_or_refuse(image: &[u8], budget: u64, out: &mut [u8]) -> Result<Answer, Refusal>
    ensures { Small result × (outcome_of (length out.old) result out.new ≡ pass_bytes image.now budget (length out.old)) }
{
    check(image)?;
    pass_on(image, budget, out)
}

// Every slice, budget and output get their answer: a refusal, one of docs/FORMAT.md, clears the output.
pub fn pass_bytes(image: &[u8], budget: u64, out: &mut [u8]) -> Result<Answer, Refusal>
    ensures { Small result × (passed_of result out.new ≡ pass_bytes image.now budget (length out.old)) }
{
    let answer = pass_or_refuse(image, budget, out);
    if answer.is_err() {
        clear(out);
    }
    answer
}
