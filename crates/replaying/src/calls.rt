// Each exported function called as a line says, and compared with the answer behind it.
ghost use Rattle.std.specs.Prelude.{◌≡◌, [], ◌∷◌, ◌<◌, ◌↔◌, IsTrue, IsNone};
ghost use Rattle.acceptance.specs.Check.{check};

use arrayvec::ArrayVec;
use push_down_filter::{
    push_down_filter_check, push_down_filter_pass, push_down_filter_rewrite,
    push_down_filter_row_test,
};
use stored::numbers::Line;
use stored::outputs::{is_stored, spoil};

// A row has at most so many values and marks.
const MAX_ROW: usize = 80;

// A number of the list as a record number: 32 bits.
fn node_of(number: u64) -> u32 {
    (number % 4294967296) as u32
}

// A number of the list as a length: below a million.
pub fn length_of(number: u64) -> usize
    ensures { result < 1000000 }
{
    (number % 1000000) as usize
}

// Values or marks of a row: how many there are, then these; and the numbers behind them.
fn part_of_row<T: Default + Drop, F: Fn(u64) -> T>(
    numbers: &[u64],
    of: F,
) -> Option<(ArrayVec<T, MAX_ROW>, &[u64])>
    requires { F.IsAlwaysCallable of }
{
    let [count, numbers @ ..] = numbers else {
        return None;
    };
    let (numbers, rest) = numbers.split_at_checked(length_of(*count))?;
    let mut part = ArrayVec::new();
    for number in numbers {
        part.try_push(of(*number)).ok()?;
    }
    Some((part, rest))
}

// A call on an image: the numbers of its line, and its answer where the line spells one.
#[derive(Clone, Copy)]
pub struct Call<'a> {
    numbers: &'a [u64],
    image: &'a [u8],
    spelt: Option<&'a [u8]>,
}

impl<'a> Call<'a> {
    // A colon stands last in a line where the answer is the image.
    pub fn new(line: &Line<'a>, image: &'a [u8], spelt: &'a [u8]) -> Self
        ensures kept { IsNone result.spelt ↔ line.now.mark ≡ 58 }
        ensures image { result.image.now ≡ image.now }
        ensures numbers { result.numbers.now ≡ line.now.numbers.now }
    {
        let spelt = (line.mark != b':').then_some(spelt);
        Call {
            numbers: line.numbers,
            image,
            spelt,
        }
    }

    // NUMBER RECORD
    pub fn check_agrees(&self) -> bool
        ensures { IsTrue result
            ↔ self.now.numbers.now ≡ (check self.now.image.now).number ∷ (check self.now.image.now).place ∷ [] }
    {
        let v = push_down_filter_check(self.image);
        self.numbers == [u64::from(v.number), u64::from(v.record)].as_slice()
    }

    // NODE ROOM NUMBER RECORD FLAG RECORDS, with just that output
    pub fn rewrite_agrees(&self, output: &mut [u8]) -> bool {
        let [node, _, stored @ ..] = self.numbers else {
            return false;
        };
        spoil(output);
        let r = push_down_filter_rewrite(self.image, node_of(*node), output);
        let numbers = [r.number, r.record, r.flag, r.records].map(u64::from);
        stored.starts_with(&numbers)
            & is_stored(output, u64::from(r.number), self.image, self.spelt)
    }

    // BUDGET ROOM NUMBER RECORD VISITS CHANGED FINISHED RECORDS, with just that output
    pub fn pass_agrees(&self, output: &mut [u8]) -> bool {
        let [budget, _, stored @ ..] = self.numbers else {
            return false;
        };
        spoil(output);
        let r = push_down_filter_pass(self.image, *budget, output);
        let numbers = [
            u64::from(r.number),
            u64::from(r.record),
            r.visits,
            r.changed,
            u64::from(r.finished),
            u64::from(r.records),
        ];
        stored.starts_with(&numbers)
            & is_stored(output, u64::from(r.number), self.image, self.spelt)
    }

    // NODE, how many VALUES, these, how many MARKS, these, NUMBER RECORD TRUTH
    pub fn test_agrees(&self) -> bool {
        self.tested().unwrap_or(false)
    }

    // The same; none where the line has no row.
    fn tested(&self) -> Option<bool> {
        let (node, numbers) = self.numbers.split_first()?;
        let (values, numbers) = part_of_row(numbers, u64::cast_signed)?;
        let (marks, numbers) = part_of_row(numbers, |number| (number % 256) as u8)?;
        let t = push_down_filter_row_test(self.image, node_of(*node), &values, &marks);
        Some(numbers == [u64::from(t.number), u64::from(t.record), u64::from(t.truth)].as_slice())
    }
}
