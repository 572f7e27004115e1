// Why a call is refused: the refusals of docs/FORMAT.md, with the record that each names.
ghost use Rattle.std.specs.Prelude.{◌≡◌};
ghost use Rattle.image.specs.Refusals.{named, number_of};
ghost use Rattle.image.specs.declared.refusals.Refusal.TheVariants.{Link};

use crate::links::BadLink;
use std::error::Error;
use std::fmt;

// The number of a call that is not refused.
pub const GRANTED: u32 = 0;

#[derive(Clone, Copy, Debug, PartialEq, Eq, Hash)]
pub enum Refusal {
    Buffer,
    Record(usize),
    Link(usize),
    Depth(usize),
    Form(usize),
    Names(usize),
    Types(usize),
    // No plan, or no Filter, at this record.
    Absent(usize),
    // The row is not one of the Filter's input.
    Row,
    // A predicate with a function, which has no value.
    Function(usize),
    TooLarge(usize),
    NoRoom,
}

impl Refusal {
    pub fn number(self) -> u32
        ensures { result ≡ number_of self }
    {
        match self {
            Refusal::Buffer => 1,
            Refusal::Record(_) => 2,
            Refusal::Link(_) => 3,
            Refusal::Depth(_) => 4,
            Refusal::Form(_) => 5,
            Refusal::Names(_) => 6,
            Refusal::Types(_) => 7,
            Refusal::Absent(_) => 8,
            Refusal::Row => 9,
            Refusal::Function(_) => 10,
            Refusal::TooLarge(_) => 11,
            Refusal::NoRoom => 12,
        }
    }

    // The record that it names; 0 where it names none.
    pub fn record(self) -> usize
        ensures { result ≡ named self }
    {
        match self {
            Refusal::Record(r)
            | Refusal::Link(r)
            | Refusal::Depth(r)
            | Refusal::Form(r)
            | Refusal::Names(r)
            | Refusal::Types(r)
            | Refusal::Absent(r)
            | Refusal::Function(r)
            | Refusal::TooLarge(r) => r,
            Refusal::Buffer | Refusal::Row | Refusal::NoRoom => 0,
        }
    }
}

impl From<BadLink> for Refusal {
    ghost from_gives = { λ bad refusal. refusal ≡ Link bad.0 };

    fn from(bad: BadLink) -> Refusal {
        Refusal::Link(bad.0)
    }
}

impl fmt::Display for Refusal {
    fn fmt<W: fmt::Write>(&self, f: &mut fmt::Formatter<W>) -> fmt::Result {
        write!(f, "refused {} at {}", self.number(), self.record())
    }
}

impl Error for Refusal {}
