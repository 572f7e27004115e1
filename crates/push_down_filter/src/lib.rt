// What C and Rust call, as Rattle calls it: functions on byte slices and numbers. crates/push_down_filter_c exports them.
#![tactic(auto)]

ghost use Rattle.std.specs.Prelude.{◌≡◌, length};
ghost use Rattle.rewrite.specs.OnBytes.{pass_bytes, rewrite_bytes};
ghost use Rattle.rewrite.specs.RowTest.{row_test_bytes};
ghost use Rattle.push_down_filter.specs.Boundary.{passed_is, rewritten_is, tested_is, verdict_is, version};
ghost use Rattle.acceptance.specs.Check as Check;

use call_pass::call_pass::pass_bytes;
use call_rewrite::call_rewrite::rewrite_bytes;
use call_row_test::testing::{row_test, truth_number};
use check_image::check;
use image::refusals::GRANTED;

// The version is that of include/push_down_filter.h; harness/tests/header.rs compares them.
const MAJOR: u32 = 0;

const MINOR: u32 = 1;

const PATCH: u32 = 0;

const VERSION: u32 = 1000000 * MAJOR + 1000 * MINOR + PATCH;

// The version of the library that a caller linked.
pub fn push_down_filter_version() -> u32
    ensures { result ≡ version }
{
    VERSION
}

// Number and record of a refusal; 0 and 0 for an accepted image.
#[repr(C)]
#[derive(Clone, Copy)]
pub struct Verdict {
    pub number: u32,
    pub record: u32,
}

// The tests 1 to 7 on any bytes.
pub fn push_down_filter_check(image: &[u8]) -> Verdict
    ensures { verdict_is result ≡ Check.check image.now }
{
    match check(image) {
        Ok(()) => Verdict {
            number: GRANTED,
            record: 0,
        },
        Err(refusal) => Verdict {
            number: refusal.number(),
            record: refusal.record() as u32,
        },
    }
}

// Number and record of a refusal, or 0, 0, the flag and how many records the answer has.
#[repr(C)]
#[derive(Clone, Copy)]
pub struct Rewritten {
    pub number: u32,
    pub record: u32,
    pub flag: u32,
    pub records: u32,
}

// PushDownFilter::rewrite of the plan at record `node`; the answer's image goes to `out`, zeros after it, or zeros alone where it is
// refused.
pub fn push_down_filter_rewrite(image: &[u8], node: u32, out: &mut [u8]) -> Rewritten
    ensures { rewritten_is result out.new ≡ rewrite_bytes image.now node (length out.old) }
{
    match rewrite_bytes(image, node, out) {
        Ok(answer) => Rewritten {
            number: GRANTED,
            record: 0,
            flag: u32::from(answer.flag),
            records: answer.records as u32,
        },
        Err(no_rewrite) => Rewritten {
            number: no_rewrite.number(),
            record: no_rewrite.record() as u32,
            flag: 0,
            records: 0,
        },
    }
}

// Number and record of a refusal, or 0, 0, the visits, the flags raised, whether no plan was left to visit, and how many records there are.
#[repr(C)]
#[derive(Clone, Copy)]
pub struct Passed {
    pub number: u32,
    pub record: u32,
    pub visits: u64,
    pub changed: u64,
    pub finished: u32,
    pub records: u32,
}

// A pass from the root on, of at most `budget` visits; the image that it leaves goes to `out`, zeros after it, or zeros alone where it is
// refused.
pub fn push_down_filter_pass(image: &[u8], budget: u64, out: &mut [u8]) -> Passed
    ensures { passed_is result out.new ≡ pass_bytes image.now budget (length out.old) }
{
    match pass_bytes(image, budget, out) {
        Ok(walk) => Passed {
            number: GRANTED,
            record: 0,
            visits: walk.visits,
            changed: walk.changed,
            finished: u32::from(walk.finished),
            records: walk.records as u32,
        },
        Err(no_pass) => Passed {
            number: no_pass.number(),
            record: no_pass.record() as u32,
            visits: 0,
            changed: 0,
            finished: 0,
            records: 0,
        },
    }
}

// Number and record of a refusal, or 0, 0 and the truth: 0 FALSE, 1 TRUE, 2 UNKNOWN.
#[repr(C)]
#[derive(Clone, Copy)]
pub struct Tested {
    pub number: u32,
    pub record: u32,
    pub truth: u32,
}

// The predicate of the Filter at record `node`, on the row of the values, of which those with the mark 1 are NULL.
pub fn push_down_filter_row_test(image: &[u8], node: u32, values: &[i64], marks: &[u8]) -> Tested
    ensures { tested_is result ≡ row_test_bytes image.now node values.now marks.now }
{
    let answer = row_test(image, node, values, marks);
    let (number, record) = match answer {
        Ok(_) => (GRANTED, 0),
        Err(no_test) => (no_test.number(), no_test.record() as u32),
    };
    Tested {
        number,
        record,
        truth: truth_number(answer),
    }
}
