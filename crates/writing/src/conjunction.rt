// conjunction (datafusion-expr utils): the items of a list written as one predicate, left-deep.
// An item is 0 for FALSE, or the record of an expression; MAX_RECORDS more for the same with its columns replaced.
ghost use Rattle.std.specs.Prelude.{◌≡◌, ◌∷◌, List, ◌+◌, ◌-◌, ◌<◌, ◌≤◌, take};
ghost use Rattle.image.specs.Limits.{Shallow, no_room};
ghost use Rattle.image.specs.Room.{Wrote};
ghost use Rattle.plan.specs.Syntax.{Expr, Name};
ghost use Rattle.plan.specs.Trees.{expr_tree};
ghost use Rattle.rewrite.specs.Utils.{conjoin, replace_cols};
ghost use Rattle.conjuncts.specs.Items.{Item, Present};
ghost use Rattle.writing.specs.Maps.{MapsTo, Over};
ghost use Rattle.writing.specs.Pushed.{One, Predicate, Predicated, Pushed, Pushes, Some};

use crate::replace_cols_by_name::replace_cols_by_name;
use conjuncts::items::{REPLACED, item_tree};
use conjuncts::lists::{Conjuncts, item_at};
use image::copying::Writer;
use image::trees::Stretch;
use plan::kinds::{BINARY_EXPR, BOOLEAN_LITERAL};
use plan::words::AND;

// Writes what the item n stands for, which is an expression or FALSE.
fn copy_plain(s: &[u8], n: usize, out: &mut Writer, level: usize)
    requires present { Present s.now n }
    requires shallow { Shallow 1 level }
    ensures same { out.new.bytes.ghost_name ≡ out.old.bytes.ghost_name }
    ensures counted { out.new.next ≤ no_room }
    ensures wrote { (e : Expr) → Item s.now n e →
        Wrote out.old.bytes.now out.new.bytes.now out.old.next level out.new.next (expr_tree e) }
{
    match item_tree(s, n) {
        Some(tree) => out.copy_tree(tree, level),
        None => out.put_kind(BOOLEAN_LITERAL, 0, level),
    }
}

// The same with the columns replaced.
fn copy_changed<const M: usize>(
    s: &[u8],
    map: Stretch<'_, M>,
    n: usize,
    out: &mut Writer,
    level: usize,
)
    requires present { Present s.now n }
    requires over { Over 1 level map }
    ensures same { out.new.bytes.ghost_name ≡ out.old.bytes.ghost_name }
    ensures counted { out.new.next ≤ no_room }
    ensures wrote { (σ : Name → Expr) → MapsTo map.entry σ → (e : Expr) → Item s.now n e →
        Wrote out.old.bytes.now out.new.bytes.now out.old.next level out.new.next (expr_tree (replace_cols σ e)) }
{
    match item_tree(s, n) {
        Some(tree) => replace_cols_by_name(tree, map, out, level),
        None => out.put_kind(BOOLEAN_LITERAL, 0, level),
    }
}

// Writes what the item n stands for.
pub fn copy_item<const M: usize>(
    s: &[u8],
    map: Stretch<'_, M>,
    n: usize,
    out: &mut Writer,
    level: usize,
)
    requires one { One s.now n }
    requires over { Over 1 level map }
    ensures same { out.new.bytes.ghost_name ≡ out.old.bytes.ghost_name }
    ensures counted { out.new.next ≤ no_room }
    ensures wrote { (σ : Name → Expr) → MapsTo map.entry σ → (e : Expr) → Pushed s.now σ n e →
        Wrote out.old.bytes.now out.new.bytes.now out.old.next level out.new.next (expr_tree e) }
{
    if n < REPLACED {
        copy_plain(s, n, out, level);
    } else {
        copy_changed(s, map, n - REPLACED, out, level);
    }
}

// Writes the first k items of a list, joined left-deep.
fn copy_first<const M: usize>(
    s: &[u8],
    map: Stretch<'_, M>,
    c: &Conjuncts,
    k: usize,
    out: &mut Writer,
    level: usize,
)
    requires some { Some s.now c.now }
    requires k_nonzero { (0 < k) × (k ≤ c.now.len) }
    requires over { Over 1 (level + k) map }
    ensures same { out.new.bytes.ghost_name ≡ out.old.bytes.ghost_name }
    ensures counted { out.new.next ≤ no_room }
    ensures wrote { (σ : Name → Expr) → MapsTo map.entry σ → (e : Expr) (es : List Expr) →
        Pushes s.now σ c.now (e ∷ es) →
        Wrote out.old.bytes.now out.new.bytes.now out.old.next level out.new.next (expr_tree (conjoin e (take (k - 1) es))) }
{
    let last = k - 1;
    let item = item_at(*c, last);
    if last == 0 {
        copy_item(s, map, item, out, level);
        return;
    }
    out.put_kind(BINARY_EXPR, AND, level);
    copy_first(s, map, c, last, out, level + 1);
    copy_item(s, map, item, out, level + 1);
}

// Writes the items of a list, joined left-deep.
pub fn copy_joined<const M: usize>(
    s: &[u8],
    map: Stretch<'_, M>,
    c: Conjuncts,
    out: &mut Writer,
    level: usize,
)
    requires some { Some s.now c }
    requires len_nonzero { 0 < c.len }
    requires over { Over 2 level map }
    ensures same { out.new.bytes.ghost_name ≡ out.old.bytes.ghost_name }
    ensures counted { out.new.next ≤ no_room }
    ensures wrote { (σ : Name → Expr) → MapsTo map.entry σ → (e : Expr) (es : List Expr) →
        Pushes s.now σ c (e ∷ es) →
        Wrote out.old.bytes.now out.new.bytes.now out.old.next level out.new.next (expr_tree (conjoin e es)) }
{
    copy_first(s, map, &c, c.len, out, level);
}

// Writes a predicate: the item `written` as it is, or where there is none the items of a list, joined left-deep.
pub fn copy_predicate<const M: usize>(
    s: &[u8],
    map: Stretch<'_, M>,
    written: Option<usize>,
    c: Conjuncts,
    out: &mut Writer,
    level: usize,
)
    requires predicated { Predicated s.now written c }
    requires over { Over 2 level map }
    ensures same { out.new.bytes.ghost_name ≡ out.old.bytes.ghost_name }
    ensures counted { out.new.next ≤ no_room }
    ensures wrote { (σ : Name → Expr) → MapsTo map.entry σ → (e : Expr) → Predicate s.now σ written c e →
        Wrote out.old.bytes.now out.new.bytes.now out.old.next level out.new.next (expr_tree e) }
{
    match written {
        Some(n) => copy_item(s, map, n, out, level),
        None => copy_joined(s, map, c, out, level),
    }
}
