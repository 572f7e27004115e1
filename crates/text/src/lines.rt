// The lines of a text: of a record, of the counts, of a refusal.
ghost use Rattle.std.specs.Prelude.{◌*◌, ◌+◌, ◌<◌, ◌≤◌, length};

use crate::numbers::Text;
use image::records::{FIRST_LINK, Label, label_at, record_at};
use image::words::word_at;

impl Text<'_> {
    ghost use Rattle.image.specs.Tree.{Fits32};
    ghost use Rattle.text.specs.Lines.{counts, line, refusal};
    ghost use Rattle.text.specs.Written.{Puts, flat_lines};

    // Writes the line of a record.
    fn put_line(&mut self, depth: usize, label: Label)
        requires { Fits32 label × (depth < 4294967296) × (self.old.at + 77 ≤ length self.old.space.now) }
        ensures { Puts self.old self.new (line depth label) }
    {
        self.put_decimal(depth as u64);
        self.put_words(label.kind, label.p, label.q);
        self.put_words(label.r, label.lo, label.hi);
        self.put(b"\n");
    }

    // Writes the lines of n records that are written flat, each with its depth in the place of its first link.
    pub fn put_lines(&mut self, flat: &[u8], n: usize)
        requires { (32 * n ≤ length flat.now) × (self.old.at + 77 * n ≤ length self.old.space.now) }
        ensures text { Puts self.old self.new (flat_lines n flat.now) }
        ensures short { self.new.at ≤ self.old.at + 77 * n }
    {
        for i in 0..n {
            let part = record_at(flat, i);
            self.put_line(word_at(part, FIRST_LINK), label_at(part));
        }
    }

    // Writes the line of the counts.
    pub fn put_counts(&mut self, visits: u64, changed: u64, finished: u32)
        requires { self.old.at + 87 ≤ length self.old.space.now }
        ensures text { Puts self.old self.new (counts visits changed finished) }
        ensures short { self.new.at ≤ self.old.at + 87 }
    {
        self.put_name_and_number(b"visits", visits);
        self.put_name_and_number(b" changed", changed);
        self.put_name_and_number(b" finished", u64::from(finished));
        self.put(b"\n");
    }

    // Writes the line of a refusal.
    pub fn put_refusal(&mut self, number: u32, place: u32)
        requires { self.old.at + 87 ≤ length self.old.space.now }
        ensures text { Puts self.old self.new (refusal number place) }
        ensures short { self.new.at ≤ self.old.at + 87 }
    {
        self.put_name_and_number(b"refused", u64::from(number));
        self.put_name_and_number(b" at", u64::from(place));
        self.put(b"\n");
    }
}
