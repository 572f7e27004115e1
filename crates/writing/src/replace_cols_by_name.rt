// replace_cols_by_name (push_down_filter.rs 1375 to 1389): a copy in which columns give way to the expressions that entries name.
// The entries are children of one record: a Projection, an Aggregate, or renames written as such. The source makes a map first.
ghost use Rattle.std.specs.Prelude.{◌≡◌, ◌+◌};
ghost use Rattle.image.specs.Room.{Wrote};
ghost use Rattle.image.specs.Subtrees.{tree_of};
ghost use Rattle.writing.specs.Replaced.{Finds, LowOver, is_entry, lookup, replaced, value_for};

use image::copying::Writer;
use image::limits::{MAX_RECORDS, NO_ROOM};
use image::trees::Stretch;
use plan::kinds::{COLUMN, ENTRY};

// Whether the tree is an entry of this name.
pub fn is_entry<const N: usize>(tree: Stretch<'_, N>, p: usize, q: usize) -> bool
    ensures { result ≡ is_entry (tree_of tree.entry).label p q }
{
    let l = tree.label();
    (l.kind == ENTRY) & (l.p == p) & (l.q == q)
}

// The expression that an entry of the map gives this name.
pub fn find<'a, const M: usize>(map: Stretch<'a, M>, p: usize, q: usize) -> Option<Stretch<'a, M>>
    ensures { Finds (lookup (tree_of map.entry).below p q) map.entry result }
{
    for entry in map.children() {
        if is_entry(entry, p, q) {
            return entry.children().next();
        }
    }
    None
}

// The same for the name of the tree, if it is a column.
pub fn value_for<'a, const N: usize, const M: usize>(
    tree: Stretch<'_, N>,
    map: Stretch<'a, M>,
) -> Option<Stretch<'a, M>>
    ensures { Finds (value_for (tree_of map.entry) (tree_of tree.entry).label) map.entry result }
{
    let l = tree.label();
    if l.kind != COLUMN {
        return None;
    }
    find(map, l.p, l.q)
}

// Writes the tree with each column that an entry of the map names replaced by its expression.
pub fn replace_cols_by_name<const N: usize, const M: usize>(
    tree: Stretch<'_, N>,
    map: Stretch<'_, M>,
    out: &mut Writer,
    level: usize,
)
    requires { LowOver (level + 1) (tree_of map).below (tree_of tree).below }
    ensures same { out.new.bytes.ghost_name ≡ out.old.bytes.ghost_name }
    ensures wrote { Wrote out.old.bytes.now out.new.bytes.now out.old.next level out.new.next
        (replaced (tree_of map.entry) (tree_of tree.entry)) }
{
    // Past the buffer's end nothing is written, and no record need be looked at.
    if MAX_RECORDS <= out.next {
        out.next = NO_ROOM;
        return;
    }
    if let Some(value) = value_for(tree, map) {
        out.copy_tree(value, level);
        return;
    }
    out.put(tree.label(), level);
    for child in tree.children() {
        replace_cols_by_name(child, map, out, level + 1);
    }
}
