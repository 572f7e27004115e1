// What the lister prints: the text of the plan that a pass leaves, or of its refusal, for any bytes.
#![tactic(auto)]

ghost use Rattle.std.specs.Prelude.{◌≡◌, ◌*◌, ◌+◌, ◌≤◌, length, take};
ghost use Rattle.image.specs.Limits.{max_records, work_bytes};
ghost use Rattle.image.specs.Room.{Wrote};
ghost use Rattle.plan.specs.Syntax.{Plan};
ghost use Rattle.plan.specs.Trees.{plan_tree};
ghost use Rattle.conjuncts.specs.Standing.{StandingP};
ghost use Rattle.text.specs.Written.{Puts};
ghost use Rattle.listing.specs.Listing.{listing};

use image::copying::Writer;
use image::limits::{MAX_BYTES, MAX_RECORDS};
use image::trees::Subtree;
use push_down_filter::push_down_filter_pass;
use text::numbers::Text;

// The pass may make so many visits.
const BUDGET: u64 = 10000;

// A line for each record, at most 77 bytes long: seven words of ten digits, each with a byte behind it; and 87 bytes for the counts, three
// numbers of twenty digits behind their names.
pub const TEXT_BYTES: usize = 77 * MAX_RECORDS + 87;

// Writes the plan with its depths, and returns how many records it has.
fn write_flat(plan: Subtree, flat: &mut [u8]) -> usize
    requires standing { (q : Plan) × StandingP plan.image.now plan.number q }
    requires flat_len { length flat.old ≡ work_bytes }
    ensures { (q : Plan) → StandingP plan.entry.image.now plan.entry.number q → Wrote flat.old flat.new 0 1 result (plan_tree q) }
{
    let mut out = Writer {
        bytes: flat,
        next: 0,
    };
    out.copy_tree(plan, 1);
    out.next
}

// Passes over the image and writes what it leaves, with space lent for the plan, and for the plan with its depths.
fn list_within(image: &[u8], out: &mut [u8], flat: &mut [u8], text: &mut Text<'_>)
    requires { (length out.old ≡ work_bytes) × (length flat.old ≡ work_bytes)
        × (text.old.at + (77 * max_records + 87) ≤ length text.old.space.now) }
    ensures { Puts text.old text.new (listing image.now) }
{
    let passed = push_down_filter_pass(image, BUDGET, out);
    // A refused pass leaves no records.
    if passed.records == 0 {
        text.put_refusal(passed.number, passed.record);
        return;
    }
    let plan = Subtree {
        image: out,
        base: 0,
        number: 0,
    };
    let n = write_flat(plan, flat);
    text.put_lines(flat, n);
    text.put_counts(passed.visits, passed.changed, passed.finished);
}

// Writes the text of any bytes, and returns how long it is.
pub fn list(image: &[u8], text: &mut [u8; TEXT_BYTES]) -> usize
    ensures { (result ≤ length text.new) × (take result text.new ≡ listing image.now) }
{
    let mut out = [0u8; MAX_BYTES];
    let mut flat = [0u8; MAX_BYTES];
    let mut written = Text::new(text);
    list_within(image, &mut out, &mut flat, &mut written);
    written.len()
}
