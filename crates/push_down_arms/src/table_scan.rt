// The arm TableScan (1118 to 1195): the conjuncts that the scan takes join its filters, the rest stays above, volatile ones last.
ghost use Rattle.std.specs.Prelude.{◌≡◌, Bool, true, not, ◌++◌, List, ◌<◌, ◌≤◌, ℕ, length};
ghost use Rattle.image.specs.Limits.{Shallow, max_fields, max_records};
ghost use Rattle.image.specs.Records.{recs_any};
ghost use Rattle.image.specs.Room.{Wrote};
ghost use Rattle.image.specs.Subtrees.{tree_of};
ghost use Rattle.image.specs.Tree.{none};
ghost use Rattle.plan.specs.Columns.{on_cols};
ghost use Rattle.plan.specs.Lists.{All, keep};
ghost use Rattle.plan.specs.Schema.{has, schema};
ghost use Rattle.plan.specs.Syntax.{Expr, Field, Name, scan};
ghost use Rattle.plan.specs.Trees.{each, kids_e, label_e, plan_tree};
ghost use Rattle.rewrite.specs.PushDownFilter.{marked, rewrite_filter};
ghost use Rattle.rewrite.specs.Utils.{is_volatile_expr, with_filters};
ghost use Rattle.conjuncts.specs.Items.{Item, Known, Lists, Present};
ghost use Rattle.utils.specs.Fields.{Names};
ghost use Rattle.utils.specs.Masks.{Masks};
ghost use Rattle.writing.specs.Plans.{ThereP};
ghost use Rattle.push_down_base.specs.Arms.{Answers, Placed, Rests};
ghost use Rattle.push_down_base.specs.Around.{WroteAll};
ghost use Rattle.push_down_base.specs.Predicates.{Listing};
ghost use Rattle.push_down_arms.specs.Scans.{Adds, OverScan, Shares, SomeScan, supports};

use crate::through::keep_filter;
use crate::with_filters::copy_some;
use conjuncts::lists::{Conjuncts, add, empty};
use conjuncts::unique::unique;
use conjuncts::volatility::is_volatile;
use image::copying::Writer;
use image::limits::{MAX_LIST, NO_ROOM};
use image::trees::Subtree;
use plan::kinds::{FIELD, FILTER};
use plan::words::MARKED;
use push_down_base::parting::partition;
use push_down_base::predicates::Predicate;
use utils::has_all_column_refs::columns_at;
use utils::schema_columns::{Fields, no_fields, schema_columns};
use utils::sets::FieldSet;
use writing::conjunction::{copy_item, copy_joined};

// The scan's answer to the conjunct n: it takes one that has a column if all its columns are marked.
pub fn supports_filters_pushdown(s: &[u8], n: usize, fields: Fields, marked: FieldSet) -> bool
    requires present { Present s.now n }
    requires len_le_max_fields { fields.len ≤ max_fields }
    ensures { (e : Expr) (ns : List Name) (t : Name → Bool) → Item s.now n e → Names fields ns →
        on_cols (has ns) e ≡ true →
        Masks marked ns t → result ≡ supports t e }
{
    let columns = columns_at(s, n, fields);
    if columns.is_within(FieldSet::empty()) {
        return false;
    }
    columns.is_within(marked)
}

// The conjuncts of c that are volatile, and those that are not.
fn part_volatile(s: &[u8], c: Conjuncts) -> (Conjuncts, Conjuncts)
    requires { Known s.now c }
    ensures { (es : List Expr) → Lists s.now c es →
        Lists s.now result.0 (keep is_volatile_expr es) × Lists s.now result.1 (keep (λ e. not (is_volatile_expr e)) es) }
{
    partition(c, |n| is_volatile(s, n))
}

// The conjuncts of c that the scan takes, and those that it leaves.
fn part_supported(
    s: &[u8],
    c: Conjuncts,
    fields: Fields,
    marked: FieldSet,
) -> (Conjuncts, Conjuncts)
    requires known { Known s.now c }
    requires len_le_max_fields { fields.len ≤ max_fields }
    ensures { (es : List Expr) (ns : List Name) (t : Name → Bool) → Lists s.now c es → Names fields ns →
        All (λ e. on_cols (has ns) e ≡ true) es → Masks marked ns t →
        Lists s.now result.0 (keep (supports t) es) × Lists s.now result.1 (keep (λ e. not (supports t e)) es) }
{
    partition(c, |n| supports_filters_pushdown(s, n, fields, marked))
}

// Appends the conjuncts of c.
fn extend(into: Conjuncts, c: Conjuncts) -> Conjuncts
    requires { Listing c }
    ensures { (s : List ℕ) (ds es : List Expr) → Lists s into ds → Lists s c es → Lists s result (ds ++ es) }
{
    let mut r = into;
    for n in c.items() {
        r = add(r, usize::from(*n));
    }
    r
}

// The marked fields of the scan, which has k: they come first.
fn marked_fields(plan: Subtree, k: usize) -> FieldSet
    requires { SomeScan plan.image.now plan.number k }
    ensures { (t : ℕ) (fs : List Field) (es : List Expr) → Placed plan.entry.image.now plan.entry.number (scan t fs es) →
        k ≡ length fs → Masks result (schema (scan t fs es)) (marked fs) }
{
    let mut set = FieldSet::empty();
    let mut fields = plan.children();
    for i in 0..k {
        let Some(field) = fields.next() else {
            return set;
        };
        set = set.mark(i, field.label().lo == MARKED);
    }
    set
}

// What a scan takes of a predicate's conjuncts, and what stays above it; and how many fields it has.
#[derive(Clone, Copy)]
pub struct Share {
    pub fields: usize,
    pub taken: Conjuncts,
    pub left: Conjuncts,
}

// The share of the scan in the predicate p: of what is left the volatile conjuncts come last.
pub fn share_of(plan: Subtree, p: Predicate) -> Share
    requires { OverScan plan.image.now plan.number p }
    ensures { (e : Expr) (t : ℕ) (fs : List Field) (es : List Expr) →
        Rests plan.entry.image.now plan.entry.number p e (scan t fs es) →
        Shares plan.entry.image.now result.fields result.taken result.left fs e }
{
    let list = p.list;
    let fields = schema_columns(plan, no_fields());
    let k = fields.len;
    let marked = marked_fields(plan, k);
    let (volatile, lasting) = part_volatile(plan.image, list);
    let (taken, rest) = part_supported(plan.image, lasting, fields, marked);
    Share {
        fields: k,
        taken,
        left: extend(rest, volatile),
    }
}

// Appends a child of the scan, unless it is a field.
fn add_filter(c: Conjuncts, child: Subtree) -> Conjuncts
    requires { child.number < max_records }
    ensures { (s : List ℕ) (ds : List Expr) → Lists s c ds → Adds s (tree_of child.entry).label child.entry.number result ds }
{
    if child.kind() == FIELD {
        return c;
    }
    add(c, child.number)
}

// The filters of the scan: its children that are no fields.
fn scan_filters(plan: Subtree) -> Conjuncts
    requires { (k : ℕ) × SomeScan plan.image.now plan.number k }
    ensures { (t : ℕ) (fs : List Field) (es : List Expr) → Placed plan.entry.image.now plan.entry.number (scan t fs es) →
        Lists plan.entry.image.now result es }
{
    let mut r = empty();
    for child in plan.children() {
        r = add_filter(r, child);
    }
    r
}

// Writes the items of a list, one after another. None has its columns replaced: the scan serves as the map.
fn copy_items(plan: Subtree, c: Conjuncts, out: &mut Writer, level: usize)
    requires known { Known plan.image.now c × ThereP plan.image.now plan.number }
    requires shallow { Shallow 2 level }
    ensures same { out.new.bytes.ghost_name ≡ out.old.bytes.ghost_name }
    ensures wrote { (es : List Expr) → Lists plan.entry.image.now c es →
        WroteAll out.old.bytes.now out.new.bytes.now out.old.next out.new.next (recs_any level (each label_e kids_e es none)) }
{
    out.put_nothing();
    for n in c.items() {
        copy_item(plan.image, plan, usize::from(*n), out, level);
    }
}

// Writes the scan, which has k fields, with the filters of the list in the place of its own.
fn write_scan(plan: Subtree, k: usize, filters: Conjuncts, out: &mut Writer, level: usize)
    requires some_scan { SomeScan plan.image.now plan.number k × Known plan.image.now filters }
    requires shallow { Shallow 3 level }
    ensures same { out.new.bytes.ghost_name ≡ out.old.bytes.ghost_name }
    ensures wrote { (t : ℕ) (fs : List Field) (es ys : List Expr) →
        Placed plan.entry.image.now plan.entry.number (scan t fs es) → k ≡ length fs → Lists plan.entry.image.now filters ys →
        Wrote out.old.bytes.now out.new.bytes.now out.old.next level out.new.next (plan_tree (scan t fs ys)) }
{
    copy_some(plan, plan.number + 1 + k, out, level);
    copy_items(plan, filters, out, level + 1);
}

// The same under a Filter of what stays above, if anything does.
fn write_filtered(
    plan: Subtree,
    k: usize,
    above: Conjuncts,
    filters: Conjuncts,
    out: &mut Writer,
    level: usize,
)
    requires some_scan { SomeScan plan.image.now plan.number k × Known plan.image.now above × Known plan.image.now filters }
    requires shallow { Shallow 4 level }
    ensures same { out.new.bytes.ghost_name ≡ out.old.bytes.ghost_name }
    ensures wrote { (t : ℕ) (fs : List Field) (es xs ys : List Expr) →
        Placed plan.entry.image.now plan.entry.number (scan t fs es) → k ≡ length fs → Lists plan.entry.image.now above xs →
        Lists plan.entry.image.now filters ys →
        Wrote out.old.bytes.now out.new.bytes.now out.old.next level out.new.next (plan_tree (with_filters xs (scan t fs ys))) }
{
    if above.len == 0 {
        write_scan(plan, k, filters, out, level);
        return;
    }
    out.put_kind(FILTER, 0, level);
    copy_joined(plan.image, plan, above, out, level + 1);
    write_scan(plan, k, filters, out, level + 1);
}

// Filter over TableScan.
pub fn rewrite_table_scan(plan: Subtree, p: Predicate, out: &mut Writer, level: usize) -> bool
    requires over_scan { OverScan plan.image.now plan.number p }
    requires arm { Shallow 6 level }
    ensures same { out.new.bytes.ghost_name ≡ out.old.bytes.ghost_name }
    ensures answers { (e : Expr) (t : ℕ) (fs : List Field) (es : List Expr) →
        Rests plan.entry.image.now plan.entry.number p e (scan t fs es) →
        Answers out.old.bytes.now out.new.bytes.now out.old.next level (record { next = out.new.next; flag = result })
        (rewrite_filter e (scan t fs es)) }
{
    let share = share_of(plan, p);
    let taken = share.taken;
    if taken.len == 0 {
        return keep_filter(plan, p, out, level);
    }
    let filters = unique(plan.image, scan_filters(plan), taken);
    if MAX_LIST < filters.len {
        out.next = NO_ROOM;
        return true;
    }
    write_filtered(plan, share.fields, share.left, filters, out, level);
    true
}
