// Trees as the records of an image hold them: one, and some side by side; in a whole image, or in bytes that begin at any record of one.
ghost use Rattle.std.specs.Prelude.{◌≡◌, ◌≤◌};
ghost use Rattle.image.specs.Places.{Chained, Placed, pos, start};
ghost use Rattle.image.specs.Chains.{Chained-prop, Placed-prop};

use crate::limits::RECORD_BYTES;
use crate::records::{FIRST_LINK, KIND, Label, NEXT_LINK, label_at, record_at};
use crate::words::word_at;

// A tree, whose top is the record with this number, in bytes that begin at the record `base`; where N is 0 in a whole image, whatever that is.
#[derive(Clone, Copy)]
pub struct Stretch<'a, const N: usize> {
    pub image: &'a [u8],
    pub base: usize,
    pub number: usize,
    pub ghost past: { start N base ≤ number },
    pub ghost stood: { Placed image.now (pos N base number) number } by { Placed-prop image.now (pos N base number) number },
}

// Trees side by side, from record `first` on; none where that is 0.
#[derive(Clone, Copy)]
pub struct Stretches<'a, const N: usize> {
    pub image: &'a [u8],
    pub base: usize,
    pub first: usize,
    pub ghost chained: { Chained image.now (start N base) first } by { Chained-prop image.now (start N base) first },
}

// Those of a whole image.
pub type Subtree<'a> = Stretch<'a, 0>;

pub type Siblings<'a> = Stretches<'a, 0>;

// The place of record `number` among the records of bytes that begin at `base`.
#[inline]
fn position<const N: usize>(base: usize, number: usize) -> usize
    requires { start N base ≤ number }
    ensures { result ≡ pos N base number }
{
    if N == 0 {
        return number;
    }
    number - base
}

impl<'a> Stretch<'a, 0> {
    ghost use Rattle.image.specs.Places.{Stood};

    // The tree of a whole image whose top is this record.
    #[inline]
    pub fn at(image: &'a [u8], number: usize) -> Self
        requires { Stood image.now number }
        ensures same_image { result.image.now ≡ image.now }
        ensures same_number { result.number ≡ number }
    {
        Stretch {
            image,
            base: 0,
            number,
        }
    }
}

impl<'a, const N: usize> Stretch<'a, N> {
    ghost use Rattle.image.specs.Subtrees.{Below, part_of, tree_of};
    ghost use Rattle.image.specs.Tree.{Fits32};

    // The bytes from its top on.
    #[inline]
    pub fn part(self) -> &'a [u8]
        ensures { result.now ≡ part_of self.entry }
    {
        record_at(self.image, position::<N>(self.base, self.number))
    }

    // What its top says of itself.
    #[inline]
    pub fn label(self) -> Label
        ensures label { result ≡ (tree_of self.entry).label }
        ensures words { Fits32 result }
    {
        label_at(self.part())
    }

    #[inline]
    pub fn kind(self) -> usize
        ensures { result ≡ (tree_of self.entry).label.kind }
    {
        word_at(self.part(), KIND)
    }

    #[inline]
    pub fn children(self) -> Stretches<'a, N>
        ensures { Below self.entry result }
    {
        Stretches {
            image: self.image,
            base: self.base,
            first: word_at(self.part(), FIRST_LINK),
        }
    }
}

impl<const N: usize> Stretch<'_, N> {
    ghost use Rattle.std.specs.Prelude.{◌+◌, ◌*◌, ◌<◌, ◌^◌};
    ghost use Rattle.image.specs.Flat.{size_t};
    ghost use Rattle.image.specs.Subtrees.{tree_of};

    // The record behind the tree's last one, which is in its last child.
    pub fn end(self) -> usize
        requires { 32 * start N self.base < 2 ^ 63 }
        ensures { result ≡ self.entry.number + size_t (tree_of self.entry) }
    {
        match self.children().last() {
            Some(child) => child.end(),
            None => self.number + 1,
        }
    }
}

impl<'a, const N: usize> Stretches<'a, N> {
    ghost use Rattle.image.specs.Subtrees.{Splits};

    // The first tree and the others, unless there is none.
    #[inline]
    pub fn split_first(self) -> Option<(Stretch<'a, N>, Stretches<'a, N>)>
        ensures { Splits self.entry result }
    {
        if self.first == 0 {
            return None;
        }
        let tree = Stretch {
            image: self.image,
            base: self.base,
            number: self.first,
        };
        let others = Stretches {
            image: self.image,
            base: self.base,
            first: word_at(tree.part(), NEXT_LINK),
        };
        Some((tree, others))
    }
}

impl<const N: usize> Stretches<'_, N> {
    ghost use Rattle.std.specs.Prelude.{◌+◌, ◌*◌, ◌<◌, ◌^◌};
    ghost use Rattle.image.specs.Tree.{size};
    ghost use Rattle.image.specs.Subtrees.{forest};

    // The record behind the last one of the trees; 0 where there is none.
    pub fn end(self) -> usize
        requires { 32 * start N self.base < 2 ^ 63 }
        ensures { result ≡ self.entry.first + size (forest self.entry) }
    {
        match self.last() {
            Some(tree) => tree.end(),
            None => self.first,
        }
    }
}

impl<'a, const N: usize> Iterator for Stretches<'a, N> {
    ghost use Rattle.std.specs.Iterator.{YieldsFirstBy, item_count};
    ghost use Rattle.image.specs.Subtrees.{place, places};

    type Item = Stretch<'a, N>;

    ghost next_gives = { YieldsFirstBy place places };

    ghost remaining = { item_count places };

    #[inline]
    fn next(&mut self) -> Option<Stretch<'a, N>> {
        let (tree, others) = self.split_first()?;
        *self = others;
        Some(tree)
    }
}
