// Record (2): the range of each word of a record, by its kind.
ghost use Rattle.std.specs.Prelude.{◌≡◌, ◌*◌, ◌≤◌, length};
ghost use Rattle.plan.specs.Words.{in_range, row_fits, words_ok};
ghost use Rattle.acceptance.specs.Check.{bad_words};

use image::ranges::{Range, WordRow};
use image::records::{Label, label_at, record_at};
use plan::kinds::{What, what_of};
use plan::word_ranges::{row_e, row_p, row_q};

fn in_range(range: Range, x: usize) -> bool
    ensures { result ≡ in_range range x }
{
    (range.low <= x) & (x <= range.high)
}

// Whether each word of a record is in its range.
fn row_fits(row: WordRow, l: Label) -> bool
    ensures { result ≡ row_fits row l }
{
    in_range(row.p, l.p)
        & (in_range(row.q, l.q)
            & (in_range(row.r, l.r) & (in_range(row.lo, l.lo) & in_range(row.hi, l.hi))))
}

// Whether the words of a record are those of its kind.
#[tactic(auto, unfolding(plan::specs::Words::words_ok))]
pub fn words_ok(l: Label) -> bool
    ensures { result ≡ words_ok l }
{
    match what_of(l.kind) {
        What::Expr(kind) => row_fits(row_e(kind), l),
        What::Plan(kind) => row_fits(row_p(kind, l.p), l),
        What::Part(kind) => row_fits(row_q(kind), l),
        What::Unknown => false,
    }
}

// The first of the n records at the start of s whose words are not those of its kind.
pub fn bad_words(s: &[u8], n: usize) -> Option<usize>
    requires { 32 * n ≤ length s.now }
    ensures { result ≡ bad_words n s.now 0 }
{
    for i in 0..n {
        if !words_ok(label_at(record_at(s, i))) {
            return Some(i);
        }
    }
    None
}
