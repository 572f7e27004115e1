// The static library: the functions of push_down_filter under the names that include/push_down_filter.h declares, with their contracts.
#![tactic(auto)]

ghost use Rattle.std.specs.Prelude.{◌≡◌, length};
ghost use Rattle.rewrite.specs.OnBytes.{pass_bytes, rewrite_bytes};
ghost use Rattle.rewrite.specs.RowTest.{row_test_bytes};
ghost use Rattle.push_down_filter.specs.Boundary.{passed_is, rewritten_is, tested_is, verdict_is, version};
ghost use Rattle.acceptance.specs.Check as Check;

use push_down_filter::{Passed, Rewritten, Tested, Verdict};

// The version of the library that a caller linked.
#[unsafe(no_mangle)]
pub extern "C" fn push_down_filter_version() -> u32
    ensures { result ≡ version }
{
    push_down_filter::push_down_filter_version()
}

// The tests 1 to 7 on any bytes.
#[unsafe(no_mangle)]
pub extern "C" fn push_down_filter_check(image: &[u8]) -> Verdict
    ensures { verdict_is result ≡ Check.check image.now }
{
    push_down_filter::push_down_filter_check(image)
}

// PushDownFilter::rewrite of the plan at record `node`; the answer's image goes to `out`, zeros after it, or zeros alone where it is
// refused.
#[unsafe(no_mangle)]
pub extern "C" fn push_down_filter_rewrite(image: &[u8], node: u32, out: &mut [u8]) -> Rewritten
    ensures { rewritten_is result out.new ≡ rewrite_bytes image.now node (length out.old) }
{
    push_down_filter::push_down_filter_rewrite(image, node, out)
}

// A pass from the root on, of at most `budget` visits; the image that it leaves goes to `out`, zeros after it, or zeros alone where it is
// refused.
#[unsafe(no_mangle)]
pub extern "C" fn push_down_filter_pass(image: &[u8], budget: u64, out: &mut [u8]) -> Passed
    ensures { passed_is result out.new ≡ pass_bytes image.now budget (length out.old) }
{
    push_down_filter::push_down_filter_pass(image, budget, out)
}

// The predicate of the Filter at record `node`, on the row of the values, of which those with the mark 1 are NULL.
#[unsafe(no_mangle)]
pub extern "C" fn push_down_filter_row_test(
    image: &[u8],
    node: u32,
    values: &[i64],
    marks: &[u8],
) -> Tested
    ensures { tested_is result ≡ row_test_bytes image.now node values.now marks.now }
{
    push_down_filter::push_down_filter_row_test(image, node, values, marks)
}
