// Handing out: the depth of what was written is tested, and the answer's bytes go to the caller's buffer.
ghost use Rattle.std.specs.Prelude.{◌+◌, ◌+◌, ◌≡◌, ◌++◌, List, ◌*◌, ◌-◌, ◌≤◌, ℕ, leb, length, take};
ghost use Rattle.std.specs.List.{list_all, range_with_len};
ghost use Rattle.image.specs.Flat.{flat, size_t};
ghost use Rattle.image.specs.Limits.{max_depth, max_records};
ghost use Rattle.image.specs.Tree.{Tree};
ghost use Rattle.image.specs.Word.{word};
ghost use Rattle.plan.specs.Measure.{depth_t};
ghost use Rattle.rewrite.specs.OnBytes.{filled, zeros};

use image::limits::{MAX_DEPTH, RECORD_BYTES};
use image::records::FIRST_LINK;
use image::words::word_at;

// Whether no depth that stands in the first n records is more than MAX_DEPTH.
fn are_shallow(work: &[u8], n: usize) -> bool
    requires { (n ≤ max_records) × (32 * n ≤ length work.now) }
    ensures { result ≡ list_all (λ i. leb (word work.now (32 * i + 24)) max_depth) (range_with_len 0 n) }
{
    (0..n).all(|i| word_at(work, RECORD_BYTES * i + FIRST_LINK) <= MAX_DEPTH)
}

// Whether no record of the flat tree of n records at the start of `work` is deeper than MAX_DEPTH.
pub fn is_shallow(work: &[u8], n: usize) -> bool
    requires { (n ≤ max_records) × (32 * n ≤ length work.now) }
    ensures { (t : Tree) (rest : List ℕ) → n ≡ size_t t → work.now ≡ flat 1 t ++ rest → result ≡ leb (depth_t t) max_depth }
{
    are_shallow(work, n)
}

// Zeros from byte m on.
pub fn clear_from(out: &mut [u8], m: usize)
    requires { m ≤ length out.old }
    ensures { out.new ≡ take m out.old ++ zeros (length out.old - m) }
{
    out[m..].fill(0);
}

// All zeros: what a refused call hands out.
pub fn clear(out: &mut [u8])
    ensures { out.new ≡ zeros (length out.old) }
{
    clear_from(out, 0);
}

// Copies the first m bytes.
pub fn copy_bytes(from: &[u8], m: usize, to: &mut [u8])
    requires { (m ≤ length from.now) × (m ≤ length to.old) }
    ensures { take m to.new ≡ take m from.now }
{
    to[..m].copy_from_slice(&from[..m]);
}

// Hands out the first m bytes of `work`, and then zeros.
pub fn hand_out(work: &[u8], m: usize, out: &mut [u8])
    requires { (m ≤ length work.now) × (m ≤ length out.old) }
    ensures { out.new ≡ filled (length out.old) (take m work.now) }
{
    copy_bytes(work, m, out);
    clear_from(out, m);
}
