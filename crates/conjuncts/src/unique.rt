// Lists without repeats, as the source's IndexSet has them: of equal conjuncts the first stays.
ghost use Rattle.std.specs.Prelude.{◌≡◌, not, ◌++◌, List, []};
ghost use Rattle.plan.specs.Lists.{put};
ghost use Rattle.plan.specs.Syntax.{Expr};
ghost use Rattle.rewrite.specs.Utils.{unique};
ghost use Rattle.conjuncts.specs.Items.{Item, Known, Lists, Present, Some};
ghost use Rattle.conjuncts.specs.Onto.{is_in, onto};

use crate::equality::same_item;
use crate::lists::{Conjuncts, add_if, empty};

// Whether an item of c equals the item x.
fn contains(s: &[u8], c: Conjuncts, x: usize) -> bool
    requires known { Known s.now c }
    requires present { Present s.now x }
    ensures { (es : List Expr) (e : Expr) → Lists s.now c es → Item s.now x e → result ≡ is_in es e }
{
    for y in c.items() {
        if same_item(s, usize::from(*y), x) {
            return true;
        }
    }
    false
}

// Appends the item x, unless an equal one is there.
fn add_new(s: &[u8], c: Conjuncts, x: usize) -> Conjuncts
    requires some { Some s.now c }
    requires present { Present s.now x }
    ensures { (es : List Expr) (e : Expr) → Lists s.now c es → Item s.now x e →
        Lists s.now result (es ++ put (not (is_in es e)) e []) }
{
    if c.is_too_long() {
        return c;
    }
    add_if(c, x, !contains(s, c, x))
}

// Appends to `into` the items of c that equal none before them.
fn unique_onto(s: &[u8], into: Conjuncts, c: Conjuncts) -> Conjuncts
    requires some { Some s.now into }
    requires known { Known s.now c }
    ensures { (fs es : List Expr) → Lists s.now into fs → Lists s.now c es →
        Lists s.now result (onto fs es) }
{
    let mut r = into;
    for x in c.items() {
        r = add_new(s, r, usize::from(*x));
    }
    r
}

// The items of two lists without repeats.
pub fn unique(s: &[u8], first: Conjuncts, second: Conjuncts) -> Conjuncts
    requires known { Known s.now first }
    requires known_2 { Known s.now second }
    ensures { (xs ys : List Expr) → Lists s.now first xs → Lists s.now second ys →
        Lists s.now result (unique (xs ++ ys)) }
{
    let once = unique_onto(s, empty(), first);
    unique_onto(s, once, second)
}
