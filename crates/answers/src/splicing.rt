// Splicing: the whole image written flat, with another tree in the place of one plan's.
//     write_before writes what stands before the old tree, and says where the new tree goes;
//     the caller writes the new tree there;
//     write_records writes what stands behind the old tree, behind the new one.
ghost use Rattle.std.specs.Prelude.{◌≡◌, ◌+◌, ◌*◌, ◌-◌, ◌≤◌, length};
ghost use Rattle.std.proofs.Math.Option.{some};
ghost use Rattle.std.proofs.Math.Seq.{slice};
ghost use Rattle.image.specs.Flat.{flat, size_t};
ghost use Rattle.image.specs.Limits.{max_records};
ghost use Rattle.image.specs.Room.{cap};
ghost use Rattle.image.specs.Tree.{At, Tree};
ghost use Rattle.plan.specs.Syntax.{Plan};
ghost use Rattle.rewrite.specs.RewriteAt.{Focus, focus};
ghost use Rattle.conjuncts.specs.Standing.{StandingP};
ghost use Rattle.writing.specs.Plans.{ThereP};
ghost use Rattle.answers.specs.Splicing.{Before, Levels, Ran, Sized};

use crate::levels::note_levels;
use image::copying::Writer;
use image::records::{label_at, record_at};
use image::trees::Subtree;
use image::words::wide;

// Where a new tree goes: at what depth, and what record stands behind the old one; and how many records there are.
#[derive(Clone, Copy)]
pub struct Spot {
    pub level: usize,
    pub end: usize,
    pub records: usize,
}

// Writes the records from `from` up to n, with their depths.
pub fn write_records(s: &[u8], levels: &[u32], from: usize, n: usize, out: &mut Writer)
    requires n_le_max_records { (n ≤ max_records) × (32 * n ≤ length s.now) × (length levels.now ≡ max_records) }
    requires from_le_n { from ≤ n }
    ensures same { out.new.bytes.ghost_name ≡ out.old.bytes.ghost_name }
    ensures next { out.new.next ≡ cap (out.old.next + (n - from)) }
    ensures ran { (t : Tree) → At t s.now 0 → size_t t ≤ max_records → n ≤ size_t t → Levels levels.now t →
        Ran out.old.bytes.now out.new.bytes.now out.old.next (n - from) out.new.next (slice (32 * from) (32 * n) (flat 1 t)) }
{
    out.put_nothing();
    for number in from..n {
        out.put(label_at(record_at(s, number)), wide(levels[number]));
    }
}

// Writes what stands before the record `node`; the new tree goes there, at the depth that is returned.
pub fn write_before(s: &[u8], node: usize, out: &mut Writer, levels: &mut [u32]) -> Spot
    requires sized { Sized s.now }
    requires there_p { ThereP s.now node }
    requires start { (out.old.next ≡ 0) × (length levels.old ≡ max_records) }
    ensures same { out.new.bytes.ghost_name ≡ out.old.bytes.ghost_name }
    ensures next { out.new.next ≡ node }
    ensures before { (p : Plan) (c : Focus) → StandingP s.now 0 p → focus node p ≡ some c →
        StandingP s.now node c.plan →
        Before out.new.bytes.now levels.new p node c.plan result }
{
    let records = note_levels(s, levels);
    write_records(s, levels, 0, node, out);
    Spot {
        level: wide(levels[node]),
        end: Subtree::at(s, node).end(),
        records,
    }
}
