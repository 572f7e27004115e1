// Records: eight words, of which six are the label and two are links.
ghost use Rattle.std.specs.Prelude.{◌≡◌, ◌*◌, ◌+◌, ◌≤◌, drop, length};
ghost use Rattle.std.proofs.lemmas.List.Edits.{sets};
ghost use Rattle.image.specs.Flat.{bytes_of};
ghost use Rattle.image.specs.Tree.{Fits32, label_at};

use crate::limits::RECORD_BYTES;
use crate::words::{put_four, word_at};

// The part of the image that begins at record n.
pub fn record_at(s: &[u8], n: usize) -> &[u8]
    requires { 32 * n ≤ length s.now }
    ensures { result.now ≡ drop (32 * n) s.now }
{
    &s[RECORD_BYTES * n..]
}

// The bytes of a record at which its words stand: the six of its label, then the links to its first child and to its next sibling.
pub const KIND: usize = 0;

pub const P: usize = 4;

pub const Q: usize = 8;

pub const R: usize = 12;

pub const LO: usize = 16;

pub const HI: usize = 20;

pub const FIRST_LINK: usize = 24;

pub const NEXT_LINK: usize = 28;

// What a record says of itself, without its links.
#[derive(Clone, Copy, Debug, PartialEq, Eq, Hash)]
pub struct Label {
    pub kind: usize,
    pub p: usize,
    pub q: usize,
    pub r: usize,
    pub lo: usize,
    pub hi: usize,
}

// The label of the record at the start of s.
pub fn label_at(s: &[u8]) -> Label
    requires { 32 ≤ length s.now }
    ensures { (result ≡ label_at s.now) × Fits32 result }
{
    Label {
        kind: word_at(s, KIND),
        p: word_at(s, P),
        q: word_at(s, Q),
        r: word_at(s, R),
        lo: word_at(s, LO),
        hi: word_at(s, HI),
    }
}

// Stores record `at`: a label, the link to its first child and the link to its next sibling.
pub fn put_record(out: &mut [u8], at: usize, label: Label, first: usize, next: usize)
    requires { 32 * (at + 1) ≤ length out.old }
    ensures { out.new ≡ sets out.old (32 * at) (bytes_of label first next) }
{
    let i = RECORD_BYTES * at;
    put_four(out, i, label.kind, label.p, label.q, label.r);
    put_four(out, i + LO, label.lo, label.hi, first, next);
}
