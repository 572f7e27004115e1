// The predicate of a Filter: the record at which it stands, unless its conjuncts are joined anew; and its conjuncts. A predicate of which
// nothing is left has neither. And what an arm says of the plan that it wrote.
ghost use Rattle.std.specs.Prelude.{◌≡◌, ◌&&◌, eqb};
ghost use Rattle.std.specs.Option.{is_none};

use conjuncts::lists::Conjuncts;

#[derive(Clone, Copy)]
pub struct Predicate {
    pub written: Option<usize>,
    pub list: Conjuncts,
}

impl Predicate {
    // The conjuncts of a list, joined anew.
    pub fn joined(list: Conjuncts) -> Self
        ensures { result ≡ record { written = None; list = list } }
    {
        Predicate {
            written: None,
            list,
        }
    }

    // Whether nothing is left of it.
    pub fn is_gone(&self) -> bool
        ensures { result ≡ (is_none self.now.written && eqb self.now.list.len 0) }
    {
        self.written.is_none() & (self.list.len == 0)
    }
}

// What a rewrite answers: the record after the plan that it wrote, or NO_ROOM where that has no room; and whether it raises the flag.
#[derive(Clone, Copy)]
pub struct Written {
    pub next: usize,
    pub flag: bool,
}
