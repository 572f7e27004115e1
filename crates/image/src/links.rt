// Links: where the records that a link leads to end, or which record has a bad one.
ghost use Rattle.std.specs.Prelude.{◌≡◌, ◌*◌, ◌-◌, ◌<◌, ◌≤◌, ℕ, length};
ghost use Rattle.image.specs.Limits.{max_records};
ghost use Rattle.image.specs.Links.{outcome, parse};

use crate::limits::RECORD_BYTES;
use crate::records::{FIRST_LINK, NEXT_LINK};
use crate::words::word_at;
use std::error::Error;
use std::fmt;

// The record that has a bad link.
#[derive(Clone, Copy, Debug, PartialEq, Eq, Hash)]
pub struct BadLink(pub usize);

impl fmt::Display for BadLink {
    fn fmt<W: fmt::Write>(&self, f: &mut fmt::Formatter<W>) -> fmt::Result {
        write!(f, "record {} has a bad link", self.0)
    }
}

impl Error for BadLink {}

// Reads the records from i on that `link`, a link of `owner`, leads to: all is read before the record that it hands back.
pub fn links(s: &[u8], n: usize, i: usize, link: usize, owner: usize) -> Result<usize, BadLink>
    requires { (32 * n ≤ length s.now) × (n ≤ max_records) × (i ≤ n) }
    ensures { (k : ℕ) → n - i < k → result ≡ outcome (parse k s.now n i link owner) }
{
    if link == 0 {
        return Ok(i);
    }
    if link != i {
        return Err(BadLink(owner));
    }
    if n <= i {
        return Err(BadLink(owner));
    }
    let next = links(s, n, i + 1, word_at(s, RECORD_BYTES * i + FIRST_LINK), i)?;
    links(s, n, next, word_at(s, RECORD_BYTES * i + NEXT_LINK), i)
}
