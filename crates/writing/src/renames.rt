// Renames: names by place for other names, written as an image whose first record has an entry for each, with a column below it.
// `replace_cols_by_name` takes it as it takes a Projection.
ghost use Rattle.std.specs.Prelude.{◌≡◌, List, ◌*◌, ◌+◌, ◌<◌, ◌≤◌, length};
ghost use Rattle.std.proofs.lemmas.List.Edits.{sets};
ghost use Rattle.image.specs.Flat.{bytes_of};
ghost use Rattle.image.specs.Limits.{max_fields};
ghost use Rattle.image.specs.Tree.{Readable};
ghost use Rattle.image.specs.Subtrees.{Subtree};
ghost use Rattle.plan.specs.Syntax.{Name, col};
ghost use Rattle.rewrite.specs.PushDownFilter.{ren};
ghost use Rattle.utils.specs.Fields.{Names, named};
ghost use Rattle.writing.specs.Maps.{MapsTo};
ghost use Rattle.writing.specs.Renames.{SmallName, link_to, named_label, rename_bytes};

use image::records::{Label, put_record};
use image::words::wide;
use plan::kinds::{COLUMN, ENTRY, PROJECTION};
use utils::schema_columns::{ColumnReference, Fields};

// The link to a record that has this many before the end: 0 where there is none.
fn link_to(at: usize, left: usize) -> usize
    ensures { result ≡ link_to at left }
{
    if left == 0 {
        return 0;
    }
    at
}

// Stores record `at`: this kind, with the name of a field.
fn put_named(m: &mut [u8], at: usize, kind: usize, x: ColumnReference, first: usize, next: usize)
    requires { 32 * (at + 1) ≤ length m.old }
    ensures m_after { m.new ≡ sets m.old (32 * at) (bytes_of (named_label kind (named x)) first next) }
    ensures small_name { SmallName (named x) }
{
    let label = Label {
        kind,
        p: wide(x.q),
        q: wide(x.n),
        r: 0,
        lo: 0,
        hi: 0,
    };
    put_record(m, at, label, first, next);
}

// Stores the rename of a field: the entry at record `at`, with `next` after it, and the column.
fn put_rename(from: ColumnReference, to: ColumnReference, m: &mut [u8], at: usize, next: usize)
    requires { 32 * (at + 2) ≤ length m.old }
    ensures m_after { m.new ≡ sets m.old (32 * at) (rename_bytes (named from) (named to) (at + 1) next) }
    ensures small_name { SmallName (named from) × SmallName (named to) }
{
    put_named(m, at, ENTRY, from, at + 1, next);
    put_named(m, at + 1, COLUMN, to, 0, 0);
}

// Writes the renames of the fields of `from` to those of `to`, by place.
pub fn write_renames(from: Fields, to: Fields, m: &mut [u8])
    requires { (from.len ≤ max_fields) × (32 * (1 + 2 * from.len) ≤ length m.old) }
    ensures stood { Readable 3 m.new 0 }
    ensures maps { (s t : List Name) → Names from s → Names to t → length s ≡ length t →
        (map : Subtree) → map.image.now ≡ m.new → map.number ≡ 0 → MapsTo map (λ x. col (ren s t x)) }
{
    let n = from.len;
    let top = Label {
        kind: PROJECTION,
        p: 0,
        q: 0,
        r: 0,
        lo: 0,
        hi: 0,
    };
    put_record(m, 0, top, link_to(1, n), 0);
    for i in 0..n {
        let after = link_to(2 * i + 3, n - i - 1);
        put_rename(from.at[i], to.at[i], m, 2 * i + 1, after);
    }
}
