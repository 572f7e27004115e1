// The arms Repartition (851), Distinct (856) and Sort (871), which take the predicate in its shape; Limit, and a Sort with a fetch, which
// leave it where it is, as the source's test of fetch and skip does (827 to 832).
ghost use Rattle.std.specs.Prelude.{◌≡◌, true};
ghost use Rattle.image.specs.Limits.{Shallow};
ghost use Rattle.plan.specs.Syntax.{Expr, Plan, filter};
ghost use Rattle.rewrite.specs.PushDownFilter.{transformed_no, transformed_yes, rewrite_filter};
ghost use Rattle.push_down_base.specs.Arms.{Answers, Resting, Rests, Taken, Takes};
ghost use Rattle.push_down_arms.specs.Through.{OverThrough, takes_none, through};

use crate::with_filters::write_over;
use conjuncts::lists::empty;
use image::copying::Writer;
use image::records::Label;
use image::trees::Subtree;
use plan::kinds::{LIMIT, SORT};
use plan::words::FETCHES;
use push_down_base::inputs::last_child;
use push_down_base::predicates::Predicate;
use writing::make_filter::make_filter;

// Filter over a plan that takes nothing: both stay as they are.
pub fn keep_filter(plan: Subtree, p: Predicate, out: &mut Writer, level: usize) -> bool
    requires resting { Resting plan.image.now plan.number p }
    requires arm { Shallow 6 level }
    ensures same { out.new.bytes.ghost_name ≡ out.old.bytes.ghost_name }
    ensures answers { (e : Expr) (q : Plan) → Rests plan.entry.image.now plan.entry.number p e q →
        Answers out.old.bytes.now out.new.bytes.now out.old.next level (record { next = out.new.next; flag = result })
        (transformed_no (filter e q)) }
{
    let list = p.list;
    make_filter(plan.image, plan, p.written, list, plan, out, level);
    false
}

// Filter over a plan that takes it whole: the predicate goes below, in its shape, over the plan's input.
pub fn push_filter(plan: Subtree, p: Predicate, out: &mut Writer, level: usize) -> bool
    requires taken { Taken plan.image.now plan.number p }
    requires arm { Shallow 6 level }
    ensures same { out.new.bytes.ghost_name ≡ out.old.bytes.ghost_name }
    ensures answers { (e : Expr) (q : Plan) (f : Plan → Plan) → Rests plan.entry.image.now plan.entry.number p e (f q) →
        Takes plan.entry.image.now plan.entry.number f q →
        Answers out.old.bytes.now out.new.bytes.now out.old.next level (record { next = out.new.next; flag = result })
        (transformed_yes (f (filter e q))) }
{
    let nothing = Predicate::joined(empty());
    let input = last_child(plan).unwrap_or(plan);
    write_over(plan, nothing, p, input, out, level);
    true
}

// Whether the plan with this label, a Distinct, a Sort, a Repartition or a Limit, takes no Filter: it counts rows.
pub fn takes_none(label: Label) -> bool
    ensures { result ≡ takes_none label }
{
    (label.kind == LIMIT) | ((label.kind == SORT) & (label.p == FETCHES))
}

// Filter over Distinct, Sort, Repartition or Limit.
pub fn rewrite_through(plan: Subtree, p: Predicate, out: &mut Writer, level: usize) -> bool
    requires over_through { OverThrough plan.image.now plan.number p }
    requires arm { Shallow 6 level }
    ensures same { out.new.bytes.ghost_name ≡ out.old.bytes.ghost_name }
    ensures answers { (e : Expr) (q : Plan) → Rests plan.entry.image.now plan.entry.number p e q → through q ≡ true →
        Answers out.old.bytes.now out.new.bytes.now out.old.next level (record { next = out.new.next; flag = result })
        (rewrite_filter e q) }
{
    if takes_none(plan.label()) {
        return keep_filter(plan, p, out, level);
    }
    push_filter(plan, p, out, level)
}
