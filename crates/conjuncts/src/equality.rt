// Equal expressions: `==` of the source's Expr, record by record.
ghost use Rattle.std.specs.Prelude.{◌≡◌, List};
ghost use Rattle.image.specs.Subtrees.{tree_of};
ghost use Rattle.plan.specs.Syntax.{Expr};
ghost use Rattle.rewrite.specs.Utils.{same_e};
ghost use Rattle.conjuncts.specs.Equality.{same};
ghost use Rattle.conjuncts.specs.Items.{FALSE, Item, Known, Lists, Present};
ghost use Rattle.conjuncts.specs.Says.{Says};

use crate::items::item_tree;
use crate::lists::Conjuncts;
use image::trees::Stretch;
use plan::kinds::BOOLEAN_LITERAL;
use plan::words::TRUE;

// Whether two trees are the same, wherever they stand.
pub fn same_tree<const N: usize>(a: Stretch<'_, N>, b: Stretch<'_, N>) -> bool
    ensures { result ≡ same (tree_of a.entry) (tree_of b.entry) }
{
    if a.label() != b.label() {
        return false;
    }
    let mut others = b.children();
    for left in a.children() {
        let Some(right) = others.next() else {
            return false;
        };
        if !same_tree(left, right) {
            return false;
        }
    }
    others.next().is_none()
}

// Whether the item n is FALSE: its own number, or the record of that literal.
fn is_false_item(s: &[u8], n: usize) -> bool
    requires { Present s.now n }
    ensures { (e : Expr) → Item s.now n e → result ≡ same_e FALSE e }
{
    match item_tree(s, n) {
        Some(tree) => {
            let label = tree.label();
            (label.kind == BOOLEAN_LITERAL) & (label.p != TRUE)
        }
        None => true,
    }
}

// Whether the items n and m are equal expressions.
pub fn same_item(s: &[u8], n: usize, m: usize) -> bool
    requires present { Present s.now n }
    requires present_2 { Present s.now m }
    ensures { (a b : Expr) → Item s.now n a → Item s.now m b → result ≡ same_e a b }
{
    let Some(a) = item_tree(s, n) else {
        return is_false_item(s, m);
    };
    match item_tree(s, m) {
        Some(b) => same_tree(a, b),
        None => is_false_item(s, n),
    }
}

// Whether the lists a and b have equal items, in the same order.
pub fn same_items(s: &[u8], a: Conjuncts, b: Conjuncts) -> bool
    requires known { Known s.now a }
    requires known_2 { Known s.now b }
    ensures { (xs ys : List Expr) → Lists s.now a xs → Lists s.now b ys → Says result (xs ≡ ys) }
{
    if a.len != b.len {
        return false;
    }
    for (x, y) in a.items().iter().zip(b.items()) {
        if !same_item(s, usize::from(*x), usize::from(*y)) {
            return false;
        }
    }
    true
}
