// simplify_predicates.rs, in its order: simplify_predicates (44 to 90), simplify_column_predicates (105 to 172),
// find_most_restrictive_predicate (187 to 233), extract_column_from_expr (245 to 250); with the differences D1, D2 and D3.
// The source's map from columns to predicates is a search for the next column.
ghost use Rattle.std.specs.Prelude.{◌≡◌, ◌++◌, List, map, ◌<◌, ℕ, drop, get_or};
ghost use Rattle.image.specs.Subtrees.{tree_of};
ghost use Rattle.image.specs.Tree.{Fits32};
ghost use Rattle.plan.specs.Integers.{FitsE};
ghost use Rattle.plan.specs.Lists.{all, keep};
ghost use Rattle.plan.specs.Syntax.{Expr};
ghost use Rattle.plan.specs.Trees.{expr_tree};
ghost use Rattle.plan.specs.Values.{Right};
ghost use Rattle.plan.specs.WordValues.{cmp_of};
ghost use Rattle.meaning.specs.Meaning.{same_v};
ghost use Rattle.rewrite.specs.SimplifyPredicates.{Side, eq_expr, eq_part, find_most_restrictive_predicate, first_kind, is_better};
ghost use Rattle.rewrite.specs.SimplifyPredicates.{lit_val, make, most_restrictive, of_kind, rel_of, simplify_column_predicates};
ghost use Rattle.rewrite.specs.SimplifyPredicates.{simplify_predicates, sort_out, val, view};
ghost use Rattle.conjuncts.specs.Items.{FALSE, Known, Lists};
ghost use Rattle.simplify_expressions.specs.Classes.{after, group_of, in_class, is_of, key_of, least, lesser, of_class, precedes};
ghost use Rattle.simplify_expressions.specs.Seen.{Spelled, column_of, comparison_of, compares, matched_in};
ghost use Rattle.simplify_expressions.specs.Seen.{named, past_of, relation_in, relation_of, seen};
ghost use Rattle.simplify_expressions.specs.Seen.{side_in, side_of, strict_r, value_in};
ghost use Rattle.plan.specs.Syntax as S;

use crate::reorder_predicates::pick;
use conjuncts::items::{FALSE_ITEM, item_tree};
use conjuncts::lists::{Conjuncts, add_if, empty, item_at};
use image::records::Label;
use image::trees::Subtree;
use plan::kinds::{ExprKind, What, what_of};
use plan::values::{Value, literal_of};
use plan::words::{Comparison, NO_TYPE, Operator};

// Which predicates: the equalities, the lower bounds or the upper bounds of a column; or what is no comparison of a column with a literal.
#[derive(Clone, Copy, Debug, PartialEq, Eq, Hash)]
pub enum Class {
    Equality,
    Lower,
    Upper,
    Other,
}

// Of which end of a column's range bounds are.
#[derive(Clone, Copy, Debug, PartialEq, Eq, Hash)]
pub enum End {
    Lower,
    Upper,
}

// What a comparison says of its column: that it is the literal, lies above it or below it; strictly, or not.
#[derive(Clone, Copy, Debug, PartialEq, Eq, Hash)]
pub enum Relation {
    SameAs,
    Above(bool),
    Below(bool),
}

// The name of a column: in order, by its qualifier, then by its own.
#[derive(Clone, Copy, Debug, PartialEq, Eq, PartialOrd, Ord, Hash)]
pub struct Name {
    pub q: usize,
    pub n: usize,
}

// A comparison: its column, what it says of it, and its literal, which stands on the right or, flipped, on the left.
#[derive(Clone, Copy, Debug, PartialEq, Eq, Hash)]
pub struct Bound {
    pub column: Name,
    pub relation: Relation,
    pub flipped: bool,
    pub value: Value,
}

impl Class {
    // Whether comparisons of the class say this of their column.
    fn says(self, relation: Relation) -> bool
        ensures { result ≡ is_of self (relation_in relation) }
    {
        matches!(
            (self, relation),
            (Class::Equality, Relation::SameAs)
                | (Class::Lower, Relation::Above(_))
                | (Class::Upper, Relation::Below(_))
        )
    }
}

impl End {
    // Whether the literal b lies further than a.
    fn lies_past(self, a: i64, b: i64) -> bool
        ensures { result ≡ past_of self a b }
    {
        match self {
            End::Lower => a < b,
            End::Upper => b < a,
        }
    }
}

impl Relation {
    fn is_strict(self) -> bool
        ensures { result ≡ strict_r (relation_in self) }
    {
        matches!(self, Relation::Above(true) | Relation::Below(true))
    }
}

// All other predicates first, in order; then the columns' in the order of the columns.
pub fn simplify_predicates(s: &[u8], c: Conjuncts) -> Conjuncts
    requires { Known s.now c }
    ensures { (es : List Expr) → Lists s.now c es → Lists s.now result (simplify_predicates es) }
{
    // Early return for simple cases.
    if c.len <= 1 {
        return c;
    }
    let mut r = other_predicates(s, c);
    let mut key = next_column(s, c, None);
    // There are no more columns than predicates.
    for _left in 0..c.len {
        let Some(column) = key else {
            return r;
        };
        r = simplify_column_predicates(s, c, r, column);
        key = next_column(s, c, key);
    }
    r
}

// The predicates that are no comparisons of a column with a literal.
fn other_predicates(s: &[u8], c: Conjuncts) -> Conjuncts
    requires { Known s.now c }
    ensures { (es : List Expr) → Lists s.now c es → Lists s.now result (sort_out es).others }
{
    select_class(s, c, empty(), Class::Other, Name { q: 0, n: 0 })
}

// Whether x is of class k; if it is a comparison, of this column.
#[tactic(auto, unfolding(crate::specs::Classes::in_class))]
fn belongs(x: Option<Bound>, k: Class, column: Name) -> bool
    ensures { result ≡ in_class k column.q column.n (seen x) }
{
    match x {
        Some(b) => k.says(b.relation) & (b.column == column),
        None => matches!(k, Class::Other),
    }
}

// Appends to `into` the predicates of c that are of class k; if they are comparisons, of this column.
pub fn select_class(s: &[u8], c: Conjuncts, into: Conjuncts, k: Class, column: Name) -> Conjuncts
    requires { Known s.now c }
    ensures { (es fs : List Expr) → Lists s.now c es → Lists s.now into fs →
        Lists s.now result (fs ++ keep (of_class k column.q column.n) es) }
{
    pick(c, into, |i| belongs(compared_at(s, c, i), k, column))
}

// Whether the column x comes after `last`, as every one does where `last` is none.
fn comes_after(last: Option<Name>, x: Name) -> bool
    ensures { result ≡ after (key_of last) (named x) }
{
    last.is_none_or(|l| l < x)
}

// Whether `best` comes before the column x, as none does.
fn comes_before(best: Option<Name>, x: Name) -> bool
    ensures { result ≡ precedes (key_of best) (named x) }
{
    best.is_some_and(|b| b < x)
}

// The first of `best` and the column of x, if that comes after `last`.
fn first_of(x: Option<Bound>, last: Option<Name>, best: Option<Name>) -> Option<Name>
    ensures { key_of result ≡ lesser (key_of last) (seen x) (key_of best) }
{
    let Some(b) = x else {
        return best;
    };
    let column = b.column;
    if !comes_after(last, column) {
        return best;
    }
    if comes_before(best, column) {
        return best;
    }
    Some(column)
}

// The first column of the predicates of c that comes after `last`.
pub fn next_column(s: &[u8], c: Conjuncts, last: Option<Name>) -> Option<Name>
    requires { Known s.now c }
    ensures { (es : List Expr) → Lists s.now c es → key_of result ≡ least (key_of last) es }
{
    let mut best = None;
    for i in (0..c.len).rev() {
        best = first_of(compared_at(s, c, i), last, best);
    }
    best
}

// Appends what the predicates of the column come to: its equality, its lower bound, its upper bound.
fn simplify_column_predicates(s: &[u8], c: Conjuncts, into: Conjuncts, column: Name) -> Conjuncts
    requires { Known s.now c }
    ensures { (es fs : List Expr) → Lists s.now c es → Lists s.now into fs →
        Lists s.now result (fs ++ simplify_column_predicates (group_of column.q column.n es)) }
{
    let eq_predicates = select_class(s, c, empty(), Class::Equality, column);
    let greater_predicates = select_class(s, c, empty(), Class::Lower, column);
    let less_predicates = select_class(s, c, empty(), Class::Upper, column);
    let equal = equal_part(s, eq_predicates, into);
    let greater = most_restrictive(s, greater_predicates, equal, End::Lower);
    most_restrictive(s, less_predicates, greater, End::Upper)
}

// Appends the last of the equalities c, if they agree, and else FALSE.
fn equal_part(s: &[u8], c: Conjuncts, into: Conjuncts) -> Conjuncts
    requires { Known s.now c }
    ensures { (es fs : List Expr) (x : S.Name) → Lists s.now c es → Lists s.now into fs →
        Spelled (eq_expr x) es → Lists s.now result (fs ++ eq_part x (map side_in es)) }
{
    let n = c.len;
    if n == 0 {
        return into;
    }
    if all_agree(s, c) {
        return add_if(into, item_at(c, n - 1), true);
    }
    add_if(into, FALSE_ITEM, true)
}

// Whether the literals of the equalities c agree with the first.
fn all_agree(s: &[u8], c: Conjuncts) -> bool
    requires known { Known s.now c }
    requires len_nonzero { 0 < c.len }
    ensures { (es : List Expr) → Lists s.now c es →
        result ≡ all (λ d. same_v (val (side_in (get_or es 0 FALSE))) (val d)) (map side_in (drop 1 es)) }
{
    let first = side_at(s, c, 0);
    (1..c.len).all(|i| same_value(first.value, side_at(s, c, i).value))
}

fn same_value(a: Value, b: Value) -> bool
    ensures { result ≡ same_v (lit_val a) (lit_val b) }
{
    let x = a.code_of();
    let y = b.code_of();
    (a.kind_of() == b.kind_of()) & ((x <= y) & (y <= x))
}

// The index of the most restrictive of the bounds c.
fn find_most_restrictive_predicate(s: &[u8], c: Conjuncts, end: End) -> usize
    requires known { Known s.now c }
    requires len_nonzero { 0 < c.len }
    ensures { (result < c.len) × ((es : List Expr) → Lists s.now c es →
        side_in (get_or es result FALSE) ≡ find_most_restrictive_predicate (past_of end) (side_in (get_or es 0 FALSE)) (map side_in (drop 1 es))) }
{
    let mut best = 0;
    for i in 1..c.len {
        if is_better(side_at(s, c, best), side_at(s, c, i), end) {
            best = i;
        }
    }
    best
}

// Appends the most restrictive of the bounds c; all of them, where their literals are not of one kind.
pub fn most_restrictive(s: &[u8], c: Conjuncts, into: Conjuncts, end: End) -> Conjuncts
    requires { Known s.now c }
    ensures { (es fs : List Expr) (spell : Side → Expr) → Lists s.now c es → Lists s.now into fs →
        Spelled spell es → Lists s.now result (fs ++ map spell (most_restrictive (past_of end) (map side_in es))) }
{
    if c.len == 0 {
        return into;
    }
    if all_of_kind(s, c, first_kind(s, c)) {
        let best = find_most_restrictive_predicate(s, c, end);
        return add_if(into, item_at(c, best), true);
    }
    pick(c, into, |_| true)
}

// Whether d replaces the bound held.
fn is_better(held: Bound, d: Bound, end: End) -> bool
    ensures { result ≡ is_better (past_of end) (side_of held) (side_of d) }
{
    let at_equal = d.relation.is_strict() & (!d.flipped | !held.relation.is_strict());
    let none = d.value.is_null();
    if held.value.is_null() {
        return none & at_equal;
    }
    if none {
        return true;
    }
    let a = held.value.code_of();
    let b = d.value.code_of();
    end.lies_past(a, b) | (!end.lies_past(b, a) & at_equal)
}

// The kind of the first literal that is not NULL.
fn first_kind(s: &[u8], c: Conjuncts) -> usize
    requires { Known s.now c }
    ensures { (es : List Expr) → Lists s.now c es → result ≡ first_kind (map side_in es) }
{
    for i in 0..c.len {
        let v = side_at(s, c, i).value;
        if !v.is_null() {
            return v.kind_of();
        }
    }
    NO_TYPE
}

// Whether every literal is NULL or of the kind.
fn all_of_kind(s: &[u8], c: Conjuncts, kind: usize) -> bool
    requires { Known s.now c }
    ensures { (es : List Expr) → Lists s.now c es → result ≡ all (of_kind kind) (map side_in es) }
{
    (0..c.len).all(|i| is_of_kind(side_at(s, c, i), kind))
}

fn is_of_kind(d: Bound, kind: usize) -> bool
    ensures { result ≡ of_kind kind (side_of d) }
{
    d.value.is_null() | (d.value.kind_of() == kind)
}

// The column that a record is, if it is one.
#[tactic(auto, unfolding(crate::specs::Seen::column_of))]
fn extract_column_from_expr(l: Label) -> Option<Name>
    ensures { key_of result ≡ column_of l }
{
    match what_of(l.kind) {
        What::Expr(ExprKind::Column) => Some(Name { q: l.p, n: l.q }),
        _ => None,
    }
}

// What a comparison says of its column; nothing, if it is NotEq.
#[tactic(auto, unfolding(rewrite::specs::SimplifyPredicates::rel_of))]
fn relation_by(op: Comparison, flipped: bool) -> Option<Relation>
    ensures { relation_of result ≡ rel_of flipped (cmp_of op) }
{
    match (op, flipped) {
        (Comparison::Eq, _) => Some(Relation::SameAs),
        (Comparison::NotEq, _) => None,
        (Comparison::Gt, false) | (Comparison::Lt, true) => Some(Relation::Above(true)),
        (Comparison::GtEq, false) | (Comparison::LtEq, true) => Some(Relation::Above(false)),
        (Comparison::Lt, false) | (Comparison::Gt, true) => Some(Relation::Below(true)),
        (Comparison::LtEq, false) | (Comparison::GtEq, true) => Some(Relation::Below(false)),
    }
}

// The comparison of a column with a literal, by its operator; nothing, if the records are not both.
fn bound_by(op: Comparison, column: Label, literal: Label, flipped: bool) -> Option<Bound>
    requires { Fits32 literal }
    ensures { seen result ≡ make flipped (rel_of flipped (cmp_of op)) (column_of column) (value_in literal) }
{
    let relation = relation_by(op, flipped)?;
    let column = extract_column_from_expr(column)?;
    let value = literal_of(literal)?;
    Some(Bound {
        column,
        relation,
        flipped,
        value,
    })
}

// The comparison of two records: the column on the left, or else on the right.
fn matched(op: Comparison, a: Label, b: Label) -> Option<Bound>
    requires left { Fits32 a }
    requires right { Fits32 b }
    ensures { seen result ≡ matched_in (cmp_of op) a b }
{
    bound_by(op, a, b, false).or_else(|| bound_by(op, b, a, true))
}

// The operator of a record, if it compares.
#[tactic(auto, unfolding(crate::specs::Seen::comparison_of))]
fn comparison_in(l: Label) -> Option<Comparison>
    ensures { compares result ≡ comparison_of l }
{
    match (what_of(l.kind), Operator::of(l.p)) {
        (What::Expr(ExprKind::Binary), Operator::Compare(op)) => Some(op),
        _ => None,
    }
}

// The expression as a comparison of a column with a literal.
fn compared_in(tree: Subtree) -> Option<Bound>
    ensures { (e : Expr) → tree_of tree.entry ≡ expr_tree e → FitsE e → seen result ≡ view e }
{
    let op = comparison_in(tree.label())?;
    let (left, others) = tree.children().split_first()?;
    let (right, _) = others.split_first()?;
    matched(op, left.label(), right.label())
}

// The predicate i of c as a comparison.
pub fn compared_at(s: &[u8], c: Conjuncts, i: usize) -> Option<Bound>
    requires known { Known s.now c }
    requires i_lt_len { i < c.len }
    ensures { (es : List Expr) → Lists s.now c es → seen result ≡ view (get_or es i FALSE) }
{
    compared_in(item_tree(s, item_at(c, i))?)
}

// The same; a bound by NULL where it is none.
pub fn side_at(s: &[u8], c: Conjuncts, i: usize) -> Bound
    requires known { Known s.now c }
    requires i_lt_len { i < c.len }
    ensures right { Right result.value }
    ensures is { (es : List Expr) → Lists s.now c es → side_of result ≡ side_in (get_or es i FALSE) }
{
    compared_at(s, c, i).unwrap_or(Bound {
        column: Name { q: 0, n: 0 },
        relation: Relation::SameAs,
        flipped: false,
        value: Value::null_of(NO_TYPE),
    })
}
