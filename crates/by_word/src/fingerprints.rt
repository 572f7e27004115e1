// Fingerprints: a number for each expression, the same for equal ones, so that most that differ are told apart by one comparison.
ghost use Rattle.std.specs.Prelude.{◌≡◌, ◌<◌, ◌≤◌, length};
ghost use Rattle.image.specs.Limits.{work_bytes};
ghost use Rattle.image.specs.Subtrees.{tree_of};
ghost use Rattle.image.specs.Tree.{Fits32, label_at};
ghost use Rattle.image.specs.Word.{word};
ghost use Rattle.plan.specs.Syntax.{Expr};
ghost use Rattle.plan.specs.Trees.{expr_tree};
ghost use Rattle.by_word.specs.Fingerprints.{fingerprint, leads, mixed, shape};
ghost use Rattle.conjuncts.specs.Items.{Item, Present};

use crate::equality::record_count;
use conjuncts::items::item_tree;
use image::records::{FIRST_LINK, Label, NEXT_LINK, label_at, record_at};
use image::trees::Subtree;
use image::words::word_at;
use plan::kinds::BOOLEAN_LITERAL;

// A fingerprint with one record more.
fn mixed(h: usize, l: Label, shape: usize) -> usize
    requires { (h < 4294967296) × Fits32 l × (shape < 4) }
    ensures { (result ≡ mixed h l shape) × (result < 4294967296) }
{
    (16777619 * h
        + shape
        + 101 * l.kind
        + 10007 * l.p
        + 100003 * l.q
        + 1000003 * l.r
        + 10000019 * l.lo
        + 100000007 * l.hi)
        % 4294967296
}

// Whether a link leads somewhere: 1 or 0.
fn leads(link: usize) -> usize
    ensures { (result ≡ leads link) × (result < 2) }
{
    usize::from(link != 0)
}

// The shape of a record with these links: whether it has a child, and whether a sibling follows.
fn shape(first: usize, next: usize) -> usize
    ensures { (result ≡ shape first next) × (result < 4) }
{
    leads(first) + 2 * leads(next)
}

// A fingerprint with the record at the start of `part`, any but a top.
fn mixed_at(h: usize, part: &[u8]) -> usize
    requires { (h < 4294967296) × (32 ≤ length part.now) }
    ensures { (result ≡ mixed h (label_at part.now) (shape (word part.now 24) (word part.now 28)))
        × (result < 4294967296) }
{
    let label = label_at(part);
    mixed(
        h,
        label,
        shape(word_at(part, FIRST_LINK), word_at(part, NEXT_LINK)),
    )
}

// The fingerprint of an expression.
fn fingerprint_of(tree: Subtree) -> usize
    requires { length tree.image.now ≤ work_bytes }
    ensures { (e : Expr) → tree_of tree.entry ≡ expr_tree e → result ≡ fingerprint e }
{
    // The next of the top leads out of the expression.
    let mut h = mixed(0, tree.label(), shape(tree.children().first, 0));
    for i in 1..record_count(tree) {
        h = mixed_at(h, record_at(tree.image, tree.number + i));
    }
    h
}

// The fingerprint of the item n.
pub fn fingerprint(s: &[u8], n: usize) -> usize
    requires present { Present s.now n }
    requires s_len_bound { length s.now ≤ work_bytes }
    ensures { (e : Expr) → Item s.now n e → result ≡ fingerprint e }
{
    let Some(tree) = item_tree(s, n) else {
        let label = Label {
            kind: BOOLEAN_LITERAL,
            p: 0,
            q: 0,
            r: 0,
            lo: 0,
            hi: 0,
        };
        return mixed(0, label, 0);
    };
    fingerprint_of(tree)
}
