// Linking again: the depths of a flat tree give way to links.
ghost use Rattle.std.specs.Prelude.{◌≡◌, ◌++◌, List, ◌*◌, ◌+◌, ◌<◌, ◌≤◌, ℕ, get_or, length, set};
ghost use Rattle.std.proofs.lemmas.List.Edits.{sets};
ghost use Rattle.image.specs.Flat.{enc, flat, size_t};
ghost use Rattle.image.specs.Flattened.{Flattened};
ghost use Rattle.image.specs.Limits.{max_below};
ghost use Rattle.image.specs.Tree.{Deep, Tree};
ghost use Rattle.image.specs.Word.{le, word};

use crate::limits::{MAX_DEPTH, RECORD_BYTES};
use crate::records::FIRST_LINK;
use crate::words::{put_word, word_at};

// Record i's depth gives way to its links.
// The table has for each depth the last record met there, from the end, below the same parent.
fn link_one(out: &mut [u8], table: &mut [usize], i: usize)
    requires i_in_bounds { 32 * (i + 1) ≤ length out.old }
    requires i_in_bounds_2 { word out.old (32 * i + 24) + 1 < length table.old }
    ensures out_after { out.new ≡ sets out.old (32 * i + 24)
        (le (get_or table.old (word out.old (32 * i + 24) + 1) 0)
        ++ le (get_or table.old (word out.old (32 * i + 24)) 0)) }
    ensures table_after { table.new ≡
        set (set table.old (word out.old (32 * i + 24)) i) (word out.old (32 * i + 24) + 1) 0 }
{
    let at = RECORD_BYTES * i + FIRST_LINK;
    let d = word_at(out, at);
    put_word(out, at, table[d + 1]);
    put_word(out, at + 4, table[d]);
    table[d] = i;
    table[d + 1] = 0;
}

// Turns a flat tree of n records at the start of `out` into its image.
pub fn relink(out: &mut [u8], n: usize)
    requires { Flattened out.old n }
    ensures { (t : Tree) (rest : List ℕ) → Deep t.below max_below → n ≡ size_t t
        → out.old ≡ flat 1 t ++ rest → out.new ≡ enc 0 t ++ rest }
{
    let mut table = [0usize; MAX_DEPTH + 2];
    for i in (0..n).rev() {
        link_one(out, &mut table, i);
    }
}
