// The check of an image: the tests 1 to 7, in their order.
#![tactic(auto)]

ghost use Rattle.std.specs.Prelude.{◌≡◌, ◌/◌, length};
ghost use Rattle.acceptance.specs.Check.{linked};
ghost use Rattle.check_form.specs.Formed.{later};
ghost use Rattle.check_form.specs.Sound.{Sound};
ghost use Rattle.check_image.specs.Answer.{verdict_of};
ghost use Rattle.acceptance.specs.Check as Check;

use check_form::checked::checked_form;
use check_names::naming::bad_names;
use check_types::walk::bad_types;
use image::refusals::Refusal;
use image::trees::Subtree;

// Names and types of an image that meets none of the tests 1 to 5, by the tree of its records.
fn checked_plan(root: Subtree) -> Result<(), Refusal>
    requires { Sound root }
    ensures { verdict_of result ≡ later (linked root.entry.image.now (length root.entry.image.now / 32)) }
{
    if let Some(r) = bad_names(root) {
        return Err(Refusal::Names(r));
    }
    if let Some(r) = bad_types(root) {
        return Err(Refusal::Types(r));
    }
    Ok(())
}

// The first test that an image meets, with the record at which it does: every byte slice gets its number and its record.
pub fn check(s: &[u8]) -> Result<(), Refusal>
    ensures { verdict_of result ≡ Check.check s.now }
{
    let root = checked_form(s)?;
    checked_plan(root)
}
