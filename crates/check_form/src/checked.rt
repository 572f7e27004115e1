// The check of an image up to its form: the tests 1 to 5, in their order.
ghost use Rattle.check_form.specs.Formed.{Checked};

use crate::buffer::buffer_ok;
use crate::depth::bad_depth;
use crate::form::bad_root_form;
use crate::linking::read;
use crate::words::bad_words;
use image::limits::RECORD_BYTES;
use image::refusals::Refusal;
use image::trees::Subtree;

// The first test that an image meets; where it meets none the tree of its records, which is one of a plan, whose names and types are
// still to be tested.
pub fn checked_form(s: &[u8]) -> Result<Subtree<'_>, Refusal>
    ensures { Checked s.now result }
{
    if !buffer_ok(s) {
        return Err(Refusal::Buffer);
    }
    let n = s.len() / RECORD_BYTES;
    if let Some(r) = bad_words(s, n) {
        return Err(Refusal::Record(r));
    }
    let root = read(s, n)?;
    if let Some(r) = bad_depth(root) {
        return Err(Refusal::Depth(r));
    }
    if let Some(r) = bad_root_form(root) {
        return Err(Refusal::Form(r));
    }
    Ok(root)
}
