// A line of the list, run: an image is kept for the calls below it, a call is made and compared.
ghost use Rattle.std.specs.Prelude.{◌≡◌, ◌≢◌, ◌≤◌, IfSome};
ghost use Rattle.replaying.specs.declared.lines.Sort.TheVariants.{Image};

use crate::calls::{Call, length_of};
use std::fmt;
use stored::numbers::Line;
use stored::outputs::write_words;

// What a line is.
#[derive(Clone, Copy, Debug, PartialEq, Eq, Hash)]
pub enum Sort {
    Image,
    Check,
    Rewrite,
    Pass,
    Test,
    Unknown,
    Comment,
}

impl Sort {
    // How many there are, of which each has a number below.
    pub const HOW_MANY: usize = 7;

    // Those that are counted, in the order in which they are printed.
    pub const COUNTED: [Sort; 6] = [
        Sort::Image,
        Sort::Check,
        Sort::Rewrite,
        Sort::Pass,
        Sort::Test,
        Sort::Unknown,
    ];

    // How many numbers of a line stand before an answer that it spells, if it can spell one.
    fn head(self) -> Option<usize>
        ensures { IfSome result (λ n. (2 ≤ n) × (n ≤ 8)) }
    {
        match self {
            Sort::Rewrite => Some(6),
            Sort::Pass => Some(8),
            _ => None,
        }
    }
}

// By the first byte of the line.
impl From<u8> for Sort {
    fn from(first: u8) -> Self {
        match first {
            b'i' => Sort::Image,
            b'c' => Sort::Check,
            b'r' => Sort::Rewrite,
            b'p' => Sort::Pass,
            b't' => Sort::Test,
            b'#' | b'\n' => Sort::Comment,
            _ => Sort::Unknown,
        }
    }
}

impl fmt::Display for Sort {
    fn fmt<W: fmt::Write>(&self, f: &mut fmt::Formatter<W>) -> fmt::Result {
        f.write_str(match self {
            Sort::Image => "images",
            Sort::Check => "checks",
            Sort::Rewrite => "rewrites",
            Sort::Pass => "passes",
            Sort::Test => "row tests",
            Sort::Unknown => "other lines",
            Sort::Comment => "comments",
        })
    }
}

// Bytes written from words. No ArrayVec: an image is as long as its line says, also where it has too few words, or too many for the space.
#[derive(Drop)]
struct Written<const SPACE: usize> {
    bytes: [u8; SPACE],
    len: usize,
}

impl<const SPACE: usize> Written<SPACE> {
    fn new() -> Self
        ensures { result.len ≡ 0 }
    {
        Written {
            bytes: [0; SPACE],
            len: 0,
        }
    }

    // Writes an image: how many bytes it has, then its words. It agrees if there are just as many words as it takes.
    fn write_image(&mut self, numbers: &[u64]) -> bool {
        let [len, words @ ..] = numbers else {
            self.len = 0;
            return false;
        };
        let len = length_of(*len);
        let put = write_words(words, &mut self.bytes);
        self.len = len;
        (len <= put) & (put < len + 4)
    }

    // Writes an answer that stands behind the head of a line, or nothing where the line is shorter.
    fn write_answer(&mut self, numbers: &[u64], head: usize) {
        self.len = match numbers.get(head..) {
            Some(words) => write_words(words, &mut self.bytes),
            None => 0,
        };
    }

    // None where there is no room for so many.
    fn get(&self) -> Option<&[u8]> {
        self.bytes.get(..self.len)
    }
}

// What is kept from line to line: the image and the answer that was spelt last. And space for an output. SPACE is how many bytes each may
// have.
#[derive(Drop)]
pub struct Replayer<const SPACE: usize> {
    image: Written<SPACE>,
    spelt: Written<SPACE>,
    output: [u8; SPACE],
}

impl<const SPACE: usize> Replayer<SPACE> {
    // Nothing is kept yet.
    pub fn new() -> Self
        ensures image { result.image.len ≡ 0 }
        ensures spelt { result.spelt.len ≡ 0 }
    {
        Replayer {
            image: Written::new(),
            spelt: Written::new(),
            output: [0; SPACE],
        }
    }

    // Runs a line of that sort, and says whether it agrees. An image drops the answer that was spelt; a comma stands last where one is.
    pub fn run(&mut self, sort: Sort, line: &Line<'_>) -> bool
        ensures image { sort ≢ Image → self.new.image ≡ self.old.image }
        ensures no_answer { sort ≡ Image → self.new.spelt.len ≡ 0 }
        ensures answer { sort ≢ Image → line.now.mark ≢ 44 → self.new.spelt ≡ self.old.spelt }
    {
        if sort == Sort::Image {
            self.spelt.len = 0;
            return self.image.write_image(line.numbers);
        }
        if let Some(head) = sort.head()
            && line.mark == b','
        {
            self.spelt.write_answer(line.numbers, head);
        }
        self.call(sort, line).unwrap_or(false)
    }

    // Makes a call on the image that is kept; none where something has no room.
    fn call(&mut self, sort: Sort, line: &Line<'_>) -> Option<bool>
        ensures image { self.new.image ≡ self.old.image }
        ensures spelt { self.new.spelt ≡ self.old.spelt }
    {
        let image = self.image.get()?;
        let spelt = self.spelt.get()?;
        let call = Call::new(line, image, spelt);
        let room = line.numbers.get(1).map_or(0, |room| length_of(*room));
        Some(match sort {
            Sort::Check => call.check_agrees(),
            Sort::Test => call.test_agrees(),
            Sort::Rewrite => call.rewrite_agrees(self.output.get_mut(..room)?),
            Sort::Pass => call.pass_agrees(self.output.get_mut(..room)?),
            Sort::Comment => true,
            Sort::Image | Sort::Unknown => false,
        })
    }
}
