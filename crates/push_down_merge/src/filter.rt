// What PushDownFilter::rewrite does of a Filter before the match (799 to 832), and the arm Filter (835 to 850) up to where it calls the
// rewrite again: a predicate is simplified, and merged with that of the Filter below.
ghost use Rattle.std.specs.Prelude.{◌≡◌, true, is_some, List, ◌+◌, ◌*◌, ◌<◌, ◌≤◌, ℕ, is_ok, drop, length};
ghost use Rattle.std.proofs.Math.Option.{some};
ghost use Rattle.image.specs.Buffers.{Scratch};
ghost use Rattle.image.specs.Limits.{max_list, work_bytes};
ghost use Rattle.image.specs.Places.{start};
ghost use Rattle.image.specs.Subtrees.{part_of};
ghost use Rattle.plan.specs.Syntax.{Expr, Plan, filter};
ghost use Rattle.rewrite.specs.Limits.{list_p, within_limits};
ghost use Rattle.rewrite.specs.PushDownFilter.{merged, simplify_filter};
ghost use Rattle.rewrite.specs.RewriteAt.{Focus};
ghost use Rattle.rewrite.specs.Utils.{conjunction, split_conjunction};
ghost use Rattle.conjuncts.specs.Items.{Known, Lists};
ghost use Rattle.conjuncts.specs.Standing.{Standing, StandingP, There};
ghost use Rattle.push_down_base.specs.Arms.{Shaped};
ghost use Rattle.push_down_merge.specs.Merging.{FilterAt, FilterIn, FilterInput, Fitting, Formed, Inside, Made, Mergeable, Remains};

use answers::handing_out::is_shallow;
use answers::splicing::{write_before, write_records};
use conjuncts::lists::{Conjuncts, empty};
use conjuncts::split_conjunction::split_conjunction;
use conjuncts::unique::unique;
use image::copying::Writer;
use image::limits::{MAX_LIST, MAX_RECORDS, RECORD_BYTES};
use image::records::NEXT_LINK;
use image::trees::{Stretch, Subtree};
use image::words::word_at;
use push_down_base::predicates::Predicate;
use simplify_expressions::reorder_predicates::reorder_predicates;
use simplify_expressions::simplify_predicates::simplify_predicates;
use std::error::Error;
use std::fmt;
use writing::make_filter::make_filter;

// Test 11: an answer, or a plan on the way to it, is too large for an image.
#[derive(Clone, Copy, Debug, PartialEq, Eq, Hash)]
pub struct TooLarge;

impl fmt::Display for TooLarge {
    fn fmt<W: fmt::Write>(&self, f: &mut fmt::Formatter<W>) -> fmt::Result {
        write!(f, "the answer is too large for an image")
    }
}

impl Error for TooLarge {}

// An expression as the predicate that is written there, with its conjuncts. It isn't at the root.
// Never inlined, like merge_fits: their lists would stand in the frame of every Filter of a stack.
#[inline(never)]
pub fn predicate_at(predicate: Subtree) -> Predicate
    requires there { There predicate.image.now predicate.number }
    requires number_nonzero { 0 < predicate.number }
    requires short { length predicate.image.now ≤ work_bytes }
    ensures { (e : Expr) → Standing predicate.entry.image.now predicate.entry.number e →
        length (split_conjunction e) ≤ max_list → Shaped predicate.entry.image.now result e }
{
    Predicate {
        written: Some(predicate.number),
        list: split_conjunction(predicate, empty()),
    }
}

// A Filter's predicate, simplified and reordered; as it is written where neither the count nor the order asks for a new one.
pub fn simplify_filter(s: &[u8], p: Predicate) -> Predicate
    requires { Formed s.now p }
    ensures remains { (e : Expr) → Shaped s.now p e → Remains s.now result (simplify_filter e) }
    ensures value { is_some result.written ≡ true → result ≡ p }
{
    let old = p.list;
    let simplified = simplify_predicates(s, old);
    if let Some(list) = reorder_predicates(s, simplified) {
        return Predicate::joined(list);
    }
    if old.len != simplified.len {
        return Predicate::joined(simplified);
    }
    p
}

// The predicate of a Filter over a Filter: the child's conjuncts first, later equal ones dropped.
pub fn merge(s: &[u8], upper: &Predicate, lower: &Conjuncts) -> Predicate
    requires formed { Formed s.now upper.now }
    requires known { Known s.now lower.now }
    ensures { (e b m : Expr) → Shaped s.now upper.now e → Lists s.now lower.now (split_conjunction b) →
        conjunction (merged e b) ≡ some m → Made s.now result m }
{
    let list = upper.list;
    Predicate::joined(unique(s, *lower, list))
}

// The predicate of the Filter `plan`, which is right behind it.
pub fn predicate_of(plan: Subtree) -> Subtree
    requires here { FilterAt plan.image.now plan.number }
    requires short { length plan.image.now ≤ work_bytes }
    ensures same { result.image.now ≡ plan.entry.image.now }
    ensures number { result.number ≡ plan.entry.number + 1 }
{
    Subtree {
        image: plan.image,
        base: 0,
        number: plan.number + 1,
    }
}

// The input of the Filter `plan`: what follows its predicate, which is right behind it.
pub fn filter_input<'a, const N: usize>(plan: Stretch<'a, N>) -> Stretch<'a, N>
    requires { FilterIn (part_of plan) plan.number }
    ensures same { result.image.now ≡ plan.entry.image.now }
    ensures same_base { start N result.base ≡ start N plan.entry.base }
    ensures input { (s : List ℕ) (e : Expr) (q : Plan) → part_of plan.entry ≡ drop (32 * plan.entry.number) s → length s ≤ work_bytes →
        StandingP s plan.entry.number (filter e q) → FilterInput s plan.entry.number result.number q }
{
    Stretch {
        image: plan.image,
        base: plan.base,
        number: word_at(plan.part(), RECORD_BYTES + NEXT_LINK),
    }
}

// Whether the plan that was written fits: there was room for its records, and none is too deep.
pub fn fits(out: &Writer) -> bool
    ensures { Fitting result out.now.bytes.now out.now.next }
{
    let records = out.next;
    if MAX_RECORDS < records {
        return false;
    }
    is_shallow(out.bytes, records)
}

// Test 11 on the plan after a merge: the whole, with the Filter p over `input` in the place of `plan`.
#[inline(never)]
pub fn merge_fits(
    plan: Subtree,
    p: &Predicate,
    input: Subtree,
    work: &mut [u8],
    levels: &mut [u32],
) -> Result<(), TooLarge>
    requires image { input.image.now ≡ plan.image.now }
    requires mergeable { Mergeable plan.image.now plan.number p.now input.number }
    requires scratch { Scratch work.old levels.old }
    ensures { (w : Plan) (c : Focus) → Inside plan.entry.image.now plan.entry.number w c → (e : Expr) (q : Plan) →
        Made plan.entry.image.now p.now e → StandingP plan.entry.image.now input.entry.number q → list_p q ≤ max_list →
        is_ok result ≡ within_limits (c.back (filter e q)) }
{
    let list = p.list;
    if MAX_LIST < list.len {
        return Err(TooLarge);
    }
    let s = plan.image;
    let mut out = Writer {
        bytes: work,
        next: 0,
    };
    let spot = write_before(s, plan.number, &mut out, levels);
    // No item of a merged list has its columns replaced: any plan of the image serves as the map.
    make_filter(s, input, p.written, list, input, &mut out, spot.level);
    write_records(s, levels, spot.end, spot.records, &mut out);
    if !fits(&out) {
        return Err(TooLarge);
    }
    Ok(())
}
