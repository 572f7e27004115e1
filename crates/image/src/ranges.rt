// The ranges of the words of a record: here for the definitions of plan/specs, which pass them on.
// From low to high, both in it.
#[derive(Clone, Copy, Debug, PartialEq, Eq, Hash)]
pub struct Range {
    pub low: usize,
    pub high: usize,
}

// A range for each word.
#[derive(Clone, Copy, Debug, PartialEq, Eq, Hash)]
pub struct WordRow {
    pub p: Range,
    pub q: Range,
    pub r: Range,
    pub lo: Range,
    pub hi: Range,
}
