// Buffer (1): whole records, at least one, and no more than an image has.
ghost use Rattle.std.specs.Prelude.{◌≡◌};
ghost use Rattle.acceptance.specs.Check.{buffer_ok};

use image::limits::{MAX_RECORDS, RECORD_BYTES};

// Whether s is as long as an image can be.
pub fn buffer_ok(s: &[u8]) -> bool
    ensures { result ≡ buffer_ok s.now }
{
    let n = s.len();
    (n != 0) & ((n % RECORD_BYTES == 0) & (n / RECORD_BYTES <= MAX_RECORDS))
}
