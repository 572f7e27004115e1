// rewrite_projection (1295 to 1341), and the arm that calls it (894 to 906).
ghost use Rattle.std.specs.Prelude.{◌≡◌, List};
ghost use Rattle.image.specs.Limits.{Shallow};
ghost use Rattle.plan.specs.Syntax.{Entry, Expr, Plan, project};
ghost use Rattle.rewrite.specs.PushDownFilter.{rewrite_filter};
ghost use Rattle.push_down_base.specs.Arms.{Answers, Rests};
ghost use Rattle.push_down_arms.specs.Divided.{OverProjection};

use crate::push_some::{divide, push_some};
use crate::through::keep_filter;
use image::copying::Writer;
use image::trees::Subtree;
use push_down_base::predicates::Predicate;

// Filter over Projection: what reads no volatile or leafward entry moves; if nothing does, the Filter stays as it is.
pub fn rewrite_projection(plan: Subtree, p: Predicate, out: &mut Writer, level: usize) -> bool
    requires over_projection { OverProjection plan.image.now plan.number p }
    requires arm { Shallow 6 level }
    ensures same { out.new.bytes.ghost_name ≡ out.old.bytes.ghost_name }
    ensures answers { (e : Expr) (es : List Entry) (q : Plan) → Rests plan.entry.image.now plan.entry.number p e (project es q) →
        Answers out.old.bytes.now out.new.bytes.now out.old.next level (record { next = out.new.next; flag = result })
        (rewrite_filter e (project es q)) }
{
    let d = divide(plan, p);
    let moved = d.moved;
    if moved.len == 0 {
        return keep_filter(plan, p, out, level);
    }
    push_some(plan, d, out, level)
}
