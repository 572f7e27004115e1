// Predicates that agree, found by comparing 32-bit words.
ghost use Rattle.std.specs.Prelude.{◌≡◌, ◌+◌, ◌*◌, ◌≤◌, drop, length};
ghost use Rattle.image.specs.Flat.{size_t};
ghost use Rattle.image.specs.Limits.{work_bytes};
ghost use Rattle.image.specs.Places.{ending};
ghost use Rattle.image.specs.Subtrees.{part_of, tree_of};
ghost use Rattle.conjuncts.specs.Equality.{same};
ghost use Rattle.by_word.specs.Equality.{agree, alike, counted, same_link};

use image::records::{FIRST_LINK, NEXT_LINK, label_at, record_at};
use image::trees::Stretch;
use image::words::word_at;

// How many records a tree has.
pub fn record_count<const N: usize>(tree: Stretch<'_, N>) -> usize
    requires { ending N tree.base (length tree.image.now) ≤ work_bytes }
    ensures { result ≡ size_t (tree_of tree.entry) }
{
    tree.end() - tree.number
}

// A link counted from the top of its predicate: 0 if it is 0, since every other leads behind the top.
fn counted(top: usize, link: usize) -> usize
    ensures { result ≡ counted top link }
{
    if link < top {
        return 0;
    }
    link - top
}

// Whether the links at byte `at` of the records i of a and of b, each counted from its own top, are the same.
fn same_link(a: &[u8], top: usize, b: &[u8], of: usize, i: usize, at: usize) -> bool
    requires first { 32 * i + at + 4 ≤ length a.now }
    requires second { 32 * i + at + 4 ≤ length b.now }
    ensures { result ≡ same_link at top (drop (32 * i) a.now) of (drop (32 * i) b.now) }
{
    let link = word_at(record_at(a, i), at);
    let other = word_at(record_at(b, i), at);
    counted(top, link) == counted(of, other)
}

// Whether these records agree in all words but next.
fn alike(a: &[u8], top: usize, b: &[u8], of: usize, i: usize) -> bool
    requires first { 32 * i + 32 ≤ length a.now }
    requires second { 32 * i + 32 ≤ length b.now }
    ensures { result ≡ alike top (drop (32 * i) a.now) of (drop (32 * i) b.now) }
{
    let label = label_at(record_at(a, i));
    let other = label_at(record_at(b, i));
    (label == other) & same_link(a, top, b, of, i, FIRST_LINK)
}

// Whether two predicates are the same, wherever they stand: one word after another.
pub fn agree<const N: usize>(a: Stretch<'_, N>, b: Stretch<'_, N>) -> bool
    requires image_bound { ending N a.base (length a.image.now) ≤ work_bytes }
    requires image_bound_2 { ending N b.base (length b.image.now) ≤ work_bytes }
    ensures { (result ≡ agree (size_t (tree_of a.entry)) a.entry.number (part_of a.entry) (size_t (tree_of b.entry)) b.entry.number (part_of b.entry))
        × (result ≡ same (tree_of a.entry) (tree_of b.entry)) }
{
    let size = record_count(a);
    if record_count(b) != size {
        return false;
    }
    let s = a.part();
    let t = b.part();
    // The next of a top leads out of its predicate.
    if !alike(s, a.number, t, b.number, 0) {
        return false;
    }
    for i in 1..size {
        if !(alike(s, a.number, t, b.number, i)
            & same_link(s, a.number, t, b.number, i, NEXT_LINK))
        {
            return false;
        }
    }
    true
}
