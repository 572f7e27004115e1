// The source's HashSet of columns: a set of places below MAX_FIELDS, the bits of a number.
ghost use Rattle.std.specs.Prelude.{◌≡◌, ◌||◌, Bool, not, ◌++◌, ◌∷◌, List, [], ◌<◌, ◌≤◌, ℕ, eqb, ltb, length};
ghost use Rattle.image.specs.Limits.{max_fields};
ghost use Rattle.plan.specs.Syntax.{Name};
ghost use Rattle.utils.specs.Masks.{Masks};
ghost use Rattle.utils.specs.Sets.{member, within};

use image::limits::MAX_FIELDS;
use std::marker::Model;

#[derive(Clone, Copy, Debug, PartialEq, Eq, Hash)]
pub struct FieldSet(u64);

// Clauses see the number.
impl Model for FieldSet {
    ghost Value = { ℕ };

    ghost view = { λ s. s.0 };

    ghost inverse = { λ n. record { 0 = n } };
}

impl From<u64> for FieldSet {
    ghost from_gives = { λ bits set. set ≡ bits };

    fn from(bits: u64) -> FieldSet {
        FieldSet(bits)
    }
}

impl From<FieldSet> for u64 {
    ghost from_gives = { λ set bits. bits ≡ set };

    fn from(set: FieldSet) -> u64 {
        set.0
    }
}

impl FieldSet {
    pub fn empty() -> Self
        ensures { result ≡ 0 }
    {
        FieldSet(0)
    }

    // The set with the place i besides.
    pub fn with(self, i: usize) -> Self
        requires { i < max_fields }
        ensures { (j : ℕ) → member result j ≡ (eqb i j || member self j) }
    {
        FieldSet((1u64 << i) | self.0)
    }

    // The places of both sets.
    pub fn union(self, other: FieldSet) -> Self
        ensures { (j : ℕ) → member result j ≡ (member self j || member other j) }
    {
        FieldSet(self.0 | other.0)
    }

    // Whether each place in the set is in the other: those in both are counted, and compared with all.
    pub fn is_within(self, side: FieldSet) -> bool
        ensures { result ≡ within max_fields self side }
    {
        u64::count_ones(self.0 & side.0) == u64::count_ones(self.0)
    }

    // The set of the places below k.
    pub fn low_places(k: usize) -> Self
        requires { k ≤ max_fields }
        ensures { (j : ℕ) → member result j ≡ ltb j k }
    {
        if k == MAX_FIELDS {
            return FieldSet(u64::MAX);
        }
        FieldSet((1u64 << k) - 1)
    }

    // The places below k that are not in the set, which has none at or above k.
    pub fn all_but(self, k: usize) -> Self
        requires { k ≤ max_fields }
        ensures { (ns : List Name) (c : Name → Bool) → k ≡ length ns → Masks self ns c → Masks result ns (λ x. not (c x)) }
    {
        let low = FieldSet::low_places(k);
        FieldSet(low.0 ^ self.0)
    }

    // The set with the next place k besides, if told.
    pub fn mark(self, k: usize, yes: bool) -> Self
        requires { k < max_fields }
        ensures { (ns : List Name) (c : Name → Bool) (x : Name) → k ≡ length ns → yes ≡ c x → Masks self ns c
            → Masks result (ns ++ (x ∷ [])) c }
    {
        if yes {
            return self.with(k);
        }
        self
    }
}
