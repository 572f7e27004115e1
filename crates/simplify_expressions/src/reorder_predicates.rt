// reorder_predicates.rs: reorder_predicates (42 to 73); is_cheap_predicate (76 to 80) is a predicate without functions.
ghost use Rattle.std.specs.Prelude.{◌≡◌, ◌++◌, Bool, List, ℕ, ◌<◌, get_or};
ghost use Rattle.plan.specs.Lists.{any, keep};
ghost use Rattle.plan.specs.Syntax.{Expr};
ghost use Rattle.rewrite.specs.ReorderPredicates.{needs_reorder, reorder_predicates};
ghost use Rattle.rewrite.specs.Utils.{is_volatile_expr};
ghost use Rattle.conjuncts.specs.Items.{FALSE, Known, Lists};
ghost use Rattle.simplify_expressions.specs.Cost.{Reorders};

use conjuncts::lists::{Conjuncts, add_if, empty, item_at};
use conjuncts::volatility::{Functions, function_at};

// Whether a predicate of c is volatile.
fn any_volatile(s: &[u8], c: Conjuncts) -> bool
    requires { Known s.now c }
    ensures { (es : List Expr) → Lists s.now c es → result ≡ any is_volatile_expr es }
{
    (0..c.len).any(|i| function_at(s, c, i, Functions::Volatile))
}

// Whether an expensive predicate of c stands right before a cheap one.
fn needs_reorder(s: &[u8], c: Conjuncts) -> bool
    requires { Known s.now c }
    ensures { (es : List Expr) → Lists s.now c es → result ≡ needs_reorder es }
{
    let mut costly = false;
    for i in 0..c.len {
        let now = function_at(s, c, i, Functions::All);
        if costly & !now {
            return true;
        }
        costly = now;
    }
    false
}

// Appends to `into` the predicates of c whose indices pass a test.
pub fn pick<F: Fn(usize) -> bool>(c: Conjuncts, into: Conjuncts, test: F) -> Conjuncts
    requires known { (s : List ℕ) × Known s c }
    requires callable { (i : ℕ) → i < c.len → F.pre test i }
    ensures { (s : List ℕ) (es fs : List Expr) (p : Expr → Bool) → Lists s c es → Lists s into fs
        → ((i : ℕ) (yes : Bool) → i < c.len → F.post test i yes → p (get_or es i FALSE) ≡ yes) → Lists s result (fs ++ keep p es) }
{
    let mut r = into;
    for i in 0..c.len {
        r = add_if(r, item_at(c, i), test(i));
    }
    r
}

// Cheap predicates before expensive ones, each sort in its order: None where all stay; so they do where one is volatile.
pub fn reorder_predicates(s: &[u8], c: Conjuncts) -> Option<Conjuncts>
    requires { Known s.now c }
    ensures { (es : List Expr) → Lists s.now c es → Reorders s.now result es (reorder_predicates es) }
{
    if any_volatile(s, c) {
        return None;
    }
    if !needs_reorder(s, c) {
        return None;
    }
    let cheap = pick(c, empty(), |i| !function_at(s, c, i, Functions::All));
    Some(pick(c, cheap, |i| function_at(s, c, i, Functions::All)))
}
