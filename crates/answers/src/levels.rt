// Levels: the depth of each record of an image, read off its links.
ghost use Rattle.std.specs.Prelude.{◌≡◌, length};
ghost use Rattle.image.specs.Flat.{size_t};
ghost use Rattle.image.specs.Limits.{max_records};
ghost use Rattle.image.specs.Tree.{At, Tree};
ghost use Rattle.answers.specs.Splicing.{Levels, Sized};

use image::limits::RECORD_BYTES;
use image::records::{FIRST_LINK, NEXT_LINK};
use image::trees::Subtree;
use image::words::word_at;

// The depth of each record: a first child is one deeper than its parent, a sibling is as deep. Returns how many records there are.
pub fn note_levels(s: &[u8], levels: &mut [u32]) -> usize
    requires sized { Sized s.now }
    requires levels_len { length levels.old ≡ max_records }
    ensures { (t : Tree) → At t s.now 0 → (result ≡ size_t t) × Levels levels.new t }
{
    let n = Subtree::at(s, 0).end();
    levels[1] = 2;
    for i in 1..n {
        let level = levels[i];
        let first = word_at(s, RECORD_BYTES * i + FIRST_LINK);
        let next = word_at(s, RECORD_BYTES * i + NEXT_LINK);
        levels[first] = level + 1;
        levels[next] = level;
    }
    // A link that leads nowhere is 0: what the loop left there is no depth.
    levels[0] = 1;
    n
}
