// extract_or_clauses_for_join (313 to 335), extract_or_clause (348 to 398): of an OR, the clause that reads columns of one side only.
ghost use Rattle.std.specs.Prelude.{◌≡◌, Bool, true, ◌++◌, List, ◌+◌, ◌<◌, ◌≤◌, length};
ghost use Rattle.std.proofs.Math.Option.{some};
ghost use Rattle.image.specs.Limits.{Shallow, max_fields, no_room};
ghost use Rattle.image.specs.Room.{Low, Wrote};
ghost use Rattle.image.specs.Subtrees.{tree_of};
ghost use Rattle.plan.specs.Columns.{on_cols};
ghost use Rattle.plan.specs.Lists.{All};
ghost use Rattle.plan.specs.Schema.{has};
ghost use Rattle.plan.specs.Syntax.{Expr, Name};
ghost use Rattle.plan.specs.Trees.{expr_tree};
ghost use Rattle.rewrite.specs.PushDownFilter.{extract_or_clause, extract_or_clauses_for_join, listed};
ghost use Rattle.conjuncts.specs.Items.{Item, Known, Lists, Present};
ghost use Rattle.conjuncts.specs.Standing.{Standing, There};
ghost use Rattle.utils.specs.Fields.{Names};
ghost use Rattle.utils.specs.Masks.{Masks};
ghost use Rattle.push_down_join.specs.Clauses.{Operands, kept, operator_of, or_clause, yields};
ghost use Rattle.push_down_join.specs.Sides.{Sides};

use conjuncts::items::{CLAUSE, item_tree};
use conjuncts::lists::{Conjuncts, add};
use image::copying::Writer;
use image::limits::{MAX_RECORDS, NO_ROOM};
use image::records::Label;
use image::trees::{Stretch, Subtree};
use plan::kinds::BINARY_EXPR;
use plan::words::{AND, OR};
use push_down_base::inputs::first_two;
use utils::has_all_column_refs::has_all_column_refs;
use utils::schema_columns::Fields;
use utils::sets::FieldSet;

// Appends the clause of the conjunct n for a side, if it yields one.
fn add_clause(s: &[u8], to: Conjuncts, n: usize, fields: Fields, side: FieldSet) -> Conjuncts
    requires present { Present s.now n }
    requires len_le_max_fields { fields.len ≤ max_fields }
    ensures { (σ : Name → Expr) (ns : List Name) (t : Name → Bool) (es : List Expr) (e : Expr) →
        Sides s.now σ ns t to es →
        Item s.now n e → Names fields ns → on_cols (has ns) e ≡ true → Masks side ns t →
        Sides s.now σ ns t result (es ++ listed (or_clause t e)) }
{
    if or_clause_at(s, n, fields, side) {
        return add(to, n + CLAUSE);
    }
    to
}

// extract_or_clauses_for_join: appends the clauses that the ORs among the conjuncts c yield for a side.
pub fn extract_or_clauses_for_join(
    s: &[u8],
    to: Conjuncts,
    c: Conjuncts,
    fields: Fields,
    side: FieldSet,
) -> Conjuncts
    requires known { Known s.now c }
    requires len_le_max_fields { fields.len ≤ max_fields }
    ensures { (σ : Name → Expr) (ns : List Name) (t : Name → Bool) (es fs : List Expr) → Sides s.now σ ns t to es →
        Lists s.now c fs → Names fields ns → All (λ e. on_cols (has ns) e ≡ true) fs → Masks side ns t →
        Sides s.now σ ns t result (es ++ extract_or_clauses_for_join t fs) }
{
    let mut r = to;
    for n in c.items() {
        r = add_clause(s, r, usize::from(*n), fields, side);
    }
    r
}

// The operators by which a clause is put together.
#[derive(Clone, Copy, Debug, PartialEq, Eq)]
pub enum Connective {
    And,
    Or,
}

// The operator of the expression with this label, if it is And or Or.
#[tactic(auto, unfolding(crate::specs::Clauses::operator_of))]
pub fn operator(label: Label) -> Option<Connective>
    ensures { result ≡ operator_of label }
{
    if label.kind != BINARY_EXPR {
        return None;
    }
    match label.p {
        AND => Some(Connective::And),
        OR => Some(Connective::Or),
        _ => None,
    }
}

// An And or an Or, taken apart.
fn operands<'a, const N: usize>(
    tree: Stretch<'a, N>,
) -> Option<(Connective, Stretch<'a, N>, Stretch<'a, N>)>
    ensures { Operands tree.entry result }
{
    let op = operator(tree.label())?;
    let (left, right) = first_two(tree)?;
    Some((op, left, right))
}

// Whether an expression yields a clause that reads fields of the side only; `copy_clause` writes it.
// An AND keeps each operand that yields, an OR yields only if both its operands do.
pub fn extract_or_clause<const N: usize>(tree: Stretch<'_, N>, f: &Fields, side: FieldSet) -> bool
    requires { f.now.len ≤ max_fields }
    ensures { (e : Expr) (ns : List Name) (c : Name → Bool) → tree_of tree.entry ≡ expr_tree e → Names f.now ns
        → on_cols (has ns) e ≡ true → Masks side ns c → result ≡ yields (extract_or_clause c e) }
{
    let Some((op, left, right)) = operands(tree) else {
        return has_all_column_refs(tree, *f, side);
    };
    match op {
        Connective::And => { extract_or_clause(left, f, side) || extract_or_clause(right, f, side) }
        Connective::Or => { extract_or_clause(left, f, side) && extract_or_clause(right, f, side) }
    }
}

// Whether an operand is part of the clause of an AND or OR that yields one: of an OR each is, of an AND each that yields.
fn is_kept<const N: usize>(op: Connective, tree: Stretch<'_, N>, f: &Fields, side: FieldSet) -> bool
    requires { f.now.len ≤ max_fields }
    ensures { (e : Expr) (ns : List Name) (c : Name → Bool) → tree_of tree.entry ≡ expr_tree e → Names f.now ns
        → on_cols (has ns) e ≡ true → Masks side ns c → result ≡ kept op (extract_or_clause c e) }
{
    match op {
        Connective::And => extract_or_clause(tree, f, side),
        Connective::Or => true,
    }
}

// Writes that clause. There must be one.
pub fn copy_clause<const N: usize>(
    tree: Stretch<'_, N>,
    f: &Fields,
    side: FieldSet,
    out: &mut Writer,
    level: usize,
)
    requires len_le_max_fields { f.now.len ≤ max_fields }
    requires low { Low (level + 1) (tree_of tree).below }
    ensures same { out.new.bytes.ghost_name ≡ out.old.bytes.ghost_name }
    ensures counted { out.new.next ≤ no_room }
    ensures wrote { (e clause : Expr) (ns : List Name) (c : Name → Bool) → tree_of tree.entry ≡ expr_tree e → Names f.now ns
        → on_cols (has ns) e ≡ true → Masks side ns c → extract_or_clause c e ≡ some clause
        → Wrote out.old.bytes.now out.new.bytes.now out.old.next level out.new.next (expr_tree clause) }
{
    // Past the buffer's end nothing is written, and no record need be looked at.
    if MAX_RECORDS <= out.next {
        out.next = NO_ROOM;
        return;
    }
    let Some((op, left, right)) = operands(tree) else {
        out.copy_tree(tree, level);
        return;
    };
    if !is_kept(op, left, f, side) {
        copy_clause(right, f, side, out, level);
        return;
    }
    if !is_kept(op, right, f, side) {
        copy_clause(left, f, side, out, level);
        return;
    }
    out.put(tree.label(), level);
    copy_clause(left, f, side, out, level + 1);
    copy_clause(right, f, side, out, level + 1);
}

// Whether the item n, if it is an OR at its top, yields one.
pub fn or_clause_at(s: &[u8], n: usize, f: Fields, side: FieldSet) -> bool
    requires present { Present s.now n }
    requires len_le_max_fields { f.len ≤ max_fields }
    ensures { (e : Expr) (ns : List Name) (c : Name → Bool) → Item s.now n e → Names f ns
        → on_cols (has ns) e ≡ true → Masks side ns c → result ≡ yields (or_clause c e) }
{
    let Some(tree) = item_tree(s, n) else {
        return false;
    };
    match operator(tree.label()) {
        Some(Connective::Or) => extract_or_clause(tree, &f, side),
        _ => false,
    }
}

// Writes the clause of the conjunct at record n. There must be one.
pub fn copy_or_clause(
    s: &[u8],
    n: usize,
    f: &Fields,
    side: FieldSet,
    out: &mut Writer,
    level: usize,
)
    requires there { There s.now n }
    requires len_le_max_fields { f.now.len ≤ max_fields }
    requires shallow { Shallow 1 level }
    ensures same { out.new.bytes.ghost_name ≡ out.old.bytes.ghost_name }
    ensures counted { out.new.next ≤ no_room }
    ensures wrote { (e clause : Expr) (ns : List Name) (c : Name → Bool) → Standing s.now n e → Names f.now ns
        → on_cols (has ns) e ≡ true → Masks side ns c → or_clause c e ≡ some clause
        → Wrote out.old.bytes.now out.new.bytes.now out.old.next level out.new.next (expr_tree clause) }
{
    let tree = Subtree {
        image: s,
        base: 0,
        number: n,
    };
    copy_clause(tree, f, side, out, level);
}
