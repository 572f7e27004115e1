// Lists of conjuncts parted: by a test, and by the fields that they refer to, those that read fields of one set alone and the others.
ghost use Rattle.std.specs.Prelude.{◌≡◌, Bool, true, not, List, ◌≤◌, ℕ};
ghost use Rattle.image.specs.Limits.{max_fields};
ghost use Rattle.plan.specs.Columns.{on_cols};
ghost use Rattle.plan.specs.Lists.{All, keep};
ghost use Rattle.plan.specs.Schema.{has};
ghost use Rattle.plan.specs.Syntax.{Expr, Name};
ghost use Rattle.rewrite.specs.PushDownFilter.{push_not, push_to};
ghost use Rattle.conjuncts.specs.Items.{Item, Known, Lists, Present};
ghost use Rattle.utils.specs.Fields.{Names};
ghost use Rattle.utils.specs.Masks.{Masks};
ghost use Rattle.push_down_base.specs.Parting.{Reads, Tells, Tested};

use conjuncts::lists::{Conjuncts, add_if, empty};
use utils::has_all_column_refs::columns_at;
use utils::schema_columns::Fields;
use utils::sets::FieldSet;

// Whether the item n refers to fields of the side alone.
fn is_inside(s: &[u8], n: usize, fields: Fields, side: FieldSet) -> bool
    requires present { Present s.now n }
    requires len_le_max_fields { fields.len ≤ max_fields }
    ensures { (e : Expr) (ns : List Name) (t : Name → Bool) → Item s.now n e → Names fields ns →
        on_cols (has ns) e ≡ true →
        Masks side ns t → result ≡ on_cols t e }
{
    columns_at(s, n, fields).is_within(side)
}

// The conjuncts of c that pass the test, and those that do not.
pub fn partition<F: Fn(usize) -> bool>(c: Conjuncts, test: F) -> (Conjuncts, Conjuncts)
    requires { Tested (F.pre test) c }
    ensures { (s : List ℕ) (es : List Expr) (t : Expr → Bool) → Lists s c es → Tells s (F.post test) t es →
        Lists s result.0 (keep t es) × Lists s result.1 (keep (λ e. not (t e)) es) }
{
    let mut passed = empty();
    let mut others = empty();
    for item in c.items() {
        let n = usize::from(*item);
        let yes = test(n);
        passed = add_if(passed, n, yes);
        others = add_if(others, n, !yes);
    }
    (passed, others)
}

// The conjuncts of c that refer to fields of the side alone, and those that do not.
pub fn select_side(s: &[u8], c: Conjuncts, fields: Fields, side: FieldSet) -> (Conjuncts, Conjuncts)
    requires known { Known s.now c }
    requires len_le_max_fields { fields.len ≤ max_fields }
    ensures { (es : List Expr) (ns : List Name) (t : Name → Bool) → Lists s.now c es → Names fields ns →
        All (λ e. on_cols (has ns) e ≡ true) es → Masks side ns t →
        Lists s.now result.0 (keep (on_cols t) es) × Lists s.now result.1 (keep (λ e. not (on_cols t e)) es) }
{
    partition(c, |n| is_inside(s, n, fields, side))
}

// Of the conjuncts c those that move to a side, if it is preserved, and those that do not.
pub fn push_to(
    s: &[u8],
    c: Conjuncts,
    fields: Fields,
    side: FieldSet,
    preserved: bool,
) -> (Conjuncts, Conjuncts)
    requires known { Known s.now c }
    requires len_le_max_fields { fields.len ≤ max_fields }
    ensures { (es : List Expr) (ns names : List Name) → Reads s.now ns c es → Names fields ns →
        Masks side ns (has names) →
        Reads s.now ns result.0 (push_to preserved names es) × Reads s.now ns result.1 (push_not preserved names es) }
{
    if preserved {
        return select_side(s, c, fields, side);
    }
    (empty(), c)
}
