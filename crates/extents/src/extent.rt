// How large a merged predicate is: its records and its levels, read off its conjuncts. Nothing is written for it.
ghost use Rattle.std.specs.Prelude.{◌∷◌, List, ◌<◌, ◌≤◌, max, length};
ghost use Rattle.image.specs.Limits.{work_bytes};
ghost use Rattle.image.specs.Subtrees.{tree_of};
ghost use Rattle.plan.specs.Syntax.{Expr};
ghost use Rattle.plan.specs.Trees.{expr_tree};
ghost use Rattle.rewrite.specs.Utils.{conjoin};
ghost use Rattle.conjuncts.specs.Items.{Item, Known, Lists, Present};
ghost use Rattle.extents.specs.Extents.{Bounded, Measures};

use conjuncts::items::item_tree;
use conjuncts::lists::Conjuncts;
use image::trees::Stretch;

// How many records a tree has, and how many levels.
#[derive(Clone, Copy, Debug, PartialEq, Eq)]
pub struct Extent {
    pub records: usize,
    pub depth: usize,
}

// The extent of a tree.
pub fn tree_extent<const N: usize>(tree: Stretch<'_, N>) -> Extent
    ensures { Measures result (tree_of tree.entry) }
{
    let mut records = 1;
    let mut below = 0;
    for child in tree.children() {
        let e = tree_extent(child);
        records += e.records;
        below = below.max(e.depth);
    }
    Extent {
        records,
        depth: below + 1,
    }
}

// The extent of what the item n stands for.
fn item_extent(s: &[u8], n: usize) -> Extent
    requires { Present s.now n }
    ensures { (e : Expr) → Item s.now n e → Measures result (expr_tree e) }
{
    match item_tree(s, n) {
        Some(tree) => tree_extent(tree),
        None => Extent {
            records: 1,
            depth: 1,
        },
    }
}

// The extent of the items of a list, joined left-deep.
pub fn conjunction_extent(s: &[u8], c: Conjuncts) -> Extent
    requires known { Known s.now c }
    requires len_nonzero { 0 < c.len }
    requires s_len_bound { length s.now ≤ work_bytes }
    ensures measures { (e : Expr) (es : List Expr) → Lists s.now c (e ∷ es) → Measures result (expr_tree (conjoin e es)) }
    ensures bounded { Bounded result }
{
    let items = c.items();
    let mut r = item_extent(s, usize::from(items[0]));
    for n in &items[1..] {
        let e = item_extent(s, usize::from(*n));
        r = Extent {
            records: 1 + r.records + e.records,
            depth: 1 + r.depth.max(e.depth),
        };
    }
    r
}
