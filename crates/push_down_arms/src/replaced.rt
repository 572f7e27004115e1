// Predicates whose columns are to be replaced when they are written: each item says so.
ghost use Rattle.std.specs.Prelude.{List, map, ◌≤◌, ℕ};
ghost use Rattle.std.proofs.Math.Option.{some};
ghost use Rattle.image.specs.Limits.{max_list};
ghost use Rattle.plan.specs.Syntax.{Expr, Name};
ghost use Rattle.rewrite.specs.Utils.{replace_cols};
ghost use Rattle.conjuncts.specs.Items.{Lists};
ghost use Rattle.writing.specs.Pushed.{Pushes};
ghost use Rattle.push_down_base.specs.Arms.{Shaped, Shapely};
ghost use Rattle.push_down_base.specs.Predicates.{Listing, Perhaps};

use conjuncts::items::REPLACED;
use conjuncts::lists::{Conjuncts, add, empty};
use push_down_base::predicates::Predicate;

// The items of a list, their columns to be replaced.
pub fn changed(c: Conjuncts) -> Conjuncts
    requires { Listing c }
    ensures { (s : List ℕ) (σ : Name → Expr) (es : List Expr) → Lists s c es → Pushes s σ result (map (replace_cols σ) es) }
{
    let mut r = empty();
    for n in c.items() {
        r = add(r, usize::from(*n) + REPLACED);
    }
    r
}

// A predicate, its columns to be replaced.
pub fn changed_predicate(p: Predicate) -> Predicate
    requires { Shapely p }
    ensures { (result.list.len ≤ max_list) × ((s : List ℕ) (σ : Name → Expr) (e : Expr) → Shaped s p e →
        Perhaps s σ result (some (replace_cols σ e))) }
{
    let list = p.list;
    match p.written {
        Some(n) => Predicate {
            written: Some(n + REPLACED),
            list,
        },
        None => Predicate::joined(changed(list)),
    }
}
