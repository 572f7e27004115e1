// Records and trees written flat into a work buffer, each record with its depth in the place of its first link.
ghost use Rattle.std.specs.Prelude.{◌≡◌, ◌+◌, ◌<◌, ◌≤◌, length};
ghost use Rattle.image.specs.Limits.{max_level, work_bytes};
ghost use Rattle.image.specs.Room.{Low, Put, Wrote, cap};
ghost use Rattle.image.specs.Subtrees.{tree_of};
ghost use Rattle.image.specs.Tree.{At, Readable, Tree, label_at};

use crate::limits::{MAX_RECORDS, NO_ROOM};
use crate::records::{Label, put_record};
use crate::trees::Stretch;

// A work buffer, and the record that is written next. Records past the buffer's end are counted, up to NO_ROOM, and not written.
#[derive(Drop)]
pub struct Writer<'a> {
    pub bytes: &'a mut [u8],
    pub next: usize,
    ghost long: { length bytes.now ≡ work_bytes },
}

impl<'a> Writer<'a> {
    // Writes a record with its depth, where there is room.
    pub fn put(&mut self, label: Label, level: usize)
        ensures same { self.new.bytes.ghost_name ≡ self.old.bytes.ghost_name }
        ensures put { Put self.old.bytes.now self.new.bytes.now self.old.next level self.new.next label }
    {
        if self.next < MAX_RECORDS {
            put_record(self.bytes, self.next, label, level, 0);
            self.next += 1;
        } else {
            self.next = NO_ROOM;
        }
    }

    // Writes nothing; of a count past NO_ROOM no more than that is left.
    pub fn put_nothing(&mut self)
        ensures same { self.new.bytes.ghost_name ≡ self.old.bytes.ghost_name }
        ensures bytes { self.new.bytes.now ≡ self.old.bytes.now }
        ensures next { self.new.next ≡ cap self.old.next }
    {
        self.next = self.next.min(NO_ROOM);
    }

    // Writes a tree.
    pub fn copy_tree<const N: usize>(&mut self, tree: Stretch<'_, N>, level: usize)
        requires { Low (level + 1) (tree_of tree).below }
        ensures same { self.new.bytes.ghost_name ≡ self.old.bytes.ghost_name }
        ensures wrote { Wrote self.old.bytes.now self.new.bytes.now self.old.next level self.new.next (tree_of tree.entry) }
    {
        // Past the buffer's end nothing is written, and no record need be looked at.
        if MAX_RECORDS <= self.next {
            self.next = NO_ROOM;
            return;
        }
        self.put(tree.label(), level);
        for child in tree.children() {
            self.copy_tree(child, level + 1);
        }
    }

    // Writes a record of this kind, with the word p and no other.
    pub fn put_kind(&mut self, kind: usize, p: usize, level: usize)
        ensures same { self.new.bytes.ghost_name ≡ self.old.bytes.ghost_name }
        ensures put { Put self.old.bytes.now self.new.bytes.now self.old.next level self.new.next
            (record { kind = kind; p = p; q = 0; r = 0; lo = 0; hi = 0 }) }
    {
        let label = Label {
            kind,
            p,
            q: 0,
            r: 0,
            lo: 0,
            hi: 0,
        };
        self.put(label, level);
    }
}
