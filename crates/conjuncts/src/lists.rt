// Lists of at most MAX_LIST conjuncts, each an item of items.rt.
ghost use Rattle.std.specs.Prelude.{◌≡◌, ◌++◌, ◌∷◌, List, [], ◌<◌, ℕ, get_or, length};
ghost use Rattle.image.specs.Limits.{max_records};
ghost use Rattle.plan.specs.Lists.{put};
ghost use Rattle.plan.specs.Syntax.{Expr};
ghost use Rattle.conjuncts.specs.Items.{Holds, Item, Lists, listed};

use bounded::Bounded;
use image::limits::MAX_LIST;

pub type Conjuncts = Bounded<u16, MAX_LIST>;

pub fn empty() -> Conjuncts
    ensures { (listed result ≡ []) × (result.len ≡ 0) }
{
    Bounded::new()
}

// Appends x, where there is room; past the end the list is counted as too long.
pub fn add(c: Conjuncts, x: usize) -> Conjuncts
    requires { x < 65536 }
    ensures { (xs : List ℕ) → Holds c xs → Holds result (xs ++ (x ∷ [])) }
{
    let mut r = c;
    r.push(x as u16);
    r
}

// Appends x, if told: a loop that picks items needs no branch.
pub fn add_if(c: Conjuncts, x: usize, yes: bool) -> Conjuncts
    requires { x < max_records }
    ensures { (s : List ℕ) (es : List Expr) (e : Expr) → Lists s c es → Item s x e → Lists s result (es ++ put yes e []) }
{
    let mut r = c;
    r.push_if(x as u16, yes);
    r
}

// The item i of a list.
pub fn item_at(c: Conjuncts, i: usize) -> usize
    requires { i < length (listed c) }
    ensures { result ≡ get_or (listed c) i 0 }
{
    let items = c.at;
    usize::from(items[i])
}
