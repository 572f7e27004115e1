// The arm Window (1045 to 1116).
ghost use Rattle.std.specs.Prelude.{◌≡◌, List};
ghost use Rattle.image.specs.Limits.{Shallow};
ghost use Rattle.plan.specs.Syntax.{Expr, Plan, WinEntry, window};
ghost use Rattle.rewrite.specs.PushDownFilter.{rewrite_filter};
ghost use Rattle.push_down_base.specs.Arms.{Answers, Rests};
ghost use Rattle.push_down_arms.specs.Divided.{OverWindow};

use crate::push_some::{divide, push_some};
use image::copying::Writer;
use image::trees::Subtree;
use push_down_base::predicates::Predicate;

// Filter over Window: what reads partition columns of every entry moves.
pub fn rewrite_window(plan: Subtree, p: Predicate, out: &mut Writer, level: usize) -> bool
    requires over_window { OverWindow plan.image.now plan.number p }
    requires arm { Shallow 6 level }
    ensures same { out.new.bytes.ghost_name ≡ out.old.bytes.ghost_name }
    ensures answers { (e : Expr) (ws : List WinEntry) (q : Plan) →
        Rests plan.entry.image.now plan.entry.number p e (window ws q) →
        Answers out.old.bytes.now out.new.bytes.now out.old.next level (record { next = out.new.next; flag = result })
        (rewrite_filter e (window ws q)) }
{
    push_some(plan, divide(plan, p), out, level)
}
