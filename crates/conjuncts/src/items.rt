// What an item of a list says: FALSE; an expression, by its record's number; and, so much above that, what is made of that expression
// when the item is written. Those of specs/Items.antt.
ghost use Rattle.plan.specs.Syntax.{Expr};
ghost use Rattle.conjuncts.specs.Items.{Item, ItemTree, Present};

use image::limits::MAX_RECORDS;
use image::trees::Subtree;

// The literal FALSE, which needs no record: record 0 is a plan, and no expression.
pub const FALSE_ITEM: usize = 0;

// An item with so much more is the expression with its columns replaced.
pub const REPLACED: usize = MAX_RECORDS;

// An item with so much more is the clause out of an OR.
pub const CLAUSE: usize = 2 * MAX_RECORDS;

// The tree of the item n, unless it is FALSE.
pub fn item_tree(s: &[u8], n: usize) -> Option<Subtree>
    requires { Present s.now n }
    ensures { (e : Expr) → Item s.now n e → ItemTree s.now n result e }
{
    if n == FALSE_ITEM {
        return None;
    }
    Some(Subtree::at(s, n))
}
