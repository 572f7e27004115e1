// The numbers of a line of text: runs of digits, some with a minus before them. What else stands in a line only parts them.
ghost use Rattle.std.specs.Prelude.{◌≡◌, ◌+◌, ◌-◌, ◌*◌, ◌^◌, ◌<◌, ◌≤◌, IfOk, IfSome, IsFalse, IsNone, IsSome, IsTrue, length};
ghost use Rattle.std.specs.Io.KnownBytes.{IsAtEnd};

use arrayvec::ArrayVec;
use reading::read_full;
use std::io;
use std::io::Read;

// A line of so many bytes is cut.
const MAX_LINE: usize = 1000000;

// A line: its first byte, its last byte that is no digit, no minus and no space, and its numbers.
#[derive(Clone, Copy, Debug)]
pub struct Line<'a> {
    pub first: u8,
    pub mark: u8,
    pub numbers: &'a [u64],
}

// The number with a digit more. One above 2^64 - 1 stays as it was: the list has none.
fn grown(value: u64, digit: u64) -> u64
    ensures { digit < 10 → 10 * value + digit < 2 ^ 64 → result ≡ 10 * value + digit }
{
    value
        .checked_mul(10)
        .and_then(|tens| tens.checked_add(digit))
        .unwrap_or(value)
}

// The number as 64 bits; below 0 it is what is missing to 2^64.
fn with_sign(value: u64, is_negative: bool) -> u64
    ensures plus { IsFalse is_negative → result ≡ value }
    ensures minus { IsTrue is_negative → 0 < value → result ≡ 2 ^ 64 - value }
    ensures zero { value ≡ 0 → result ≡ 0 }
{
    if is_negative {
        value.wrapping_neg()
    } else {
        value
    }
}

// A line that is being read: the digits in hand, if there are any, whether a minus stands before them, the last mark, and the numbers.
#[derive(Drop)]
struct Scan<const NUMBERS: usize> {
    digits: Option<u64>,
    is_negative: bool,
    mark: u8,
    numbers: ArrayVec<u64, NUMBERS>,
}

impl<const NUMBERS: usize> Scan<NUMBERS> {
    fn new() -> Self {
        Scan {
            digits: None,
            is_negative: false,
            mark: b'\n',
            numbers: ArrayVec::new(),
        }
    }

    // Begins a line.
    fn clear(&mut self) {
        self.digits = None;
        self.is_negative = false;
        self.mark = b'\n';
        self.numbers.clear();
    }

    // Stores the number in hand, if there is one and room for it.
    fn close(&mut self) {
        if let Some(value) = self.digits.take() {
            let _ = self.numbers.try_push(with_sign(value, self.is_negative));
        }
    }

    // Reads a byte more of the line.
    fn step(&mut self, byte: u8) {
        if byte.is_ascii_digit() {
            let before = self.digits.unwrap_or(0);
            self.digits = Some(grown(before, u64::from(byte - b'0')));
            return;
        }
        self.close();
        self.is_negative = byte == b'-';
        if !matches!(byte, b' ' | b'-' | b'\n') {
            self.mark = byte;
        }
    }
}

// An input and what was read of it and is not used yet: the bytes of the chunk from `at` to `end`.
#[derive(Drop)]
struct Bytes<R: Read + Drop, const CHUNK: usize> {
    input: R,
    chunk: [u8; CHUNK],
    at: usize,
    end: usize,
    ghost unread: { at ≤ end },
    ghost within: { end ≤ CHUNK },
}

impl<R: Read + Drop, const CHUNK: usize> Bytes<R, CHUNK> {
    fn new(input: R) -> Self
        ensures input { result.input ≡ input }
        ensures unread { result.at ≡ result.end }
    {
        Bytes {
            input,
            chunk: [0; CHUNK],
            at: 0,
            end: 0,
        }
    }

    // The first unread byte, or none at the end of the input.
    fn peek(&mut self) -> io::Result<Option<u8>>
        ensures end { 0 < CHUNK → IfOk result (λ byte. IsNone byte → IsAtEnd (R.remaining self.new.input)) }
        ensures unread { IfOk result (λ byte. IsSome byte → self.new.at < self.new.end) }
    {
        if self.at == self.end {
            let end = read_full(&mut self.input, &mut self.chunk)?;
            self.at = 0;
            self.end = end;
        }
        if self.at == self.end {
            return Ok(None);
        }
        Ok(Some(self.chunk[self.at]))
    }

    // The same, and uses it.
    fn next(&mut self) -> io::Result<Option<u8>> {
        let byte = self.peek()?;
        if byte.is_some() {
            self.at += 1;
        }
        Ok(byte)
    }
}

// The lines of an input, of which CHUNK bytes are read at a time. A line has room for so many NUMBERS; what stands behind them is left out.
#[derive(Drop)]
pub struct Lines<R: Read + Drop, const CHUNK: usize, const NUMBERS: usize> {
    bytes: Bytes<R, CHUNK>,
    scan: Scan<NUMBERS>,
}

impl<R: Read + Drop, const CHUNK: usize, const NUMBERS: usize> Lines<R, CHUNK, NUMBERS> {
    // Nothing is read yet.
    pub fn new(input: R) -> Self
        ensures input { result.bytes.input ≡ input }
        ensures unread { result.bytes.at ≡ result.bytes.end }
    {
        Lines {
            bytes: Bytes::new(input),
            scan: Scan::new(),
        }
    }

    // The next line, or none where the input has ended.
    pub fn next_line(&mut self) -> io::Result<Option<Line<'_>>>
        ensures { IfOk result (λ next. IfSome next (λ line. length line.numbers.now ≤ NUMBERS)) }
    {
        let Some(first) = self.bytes.peek()? else {
            return Ok(None);
        };
        self.scan.clear();
        for _ in 0..MAX_LINE {
            // Where the input ends, so does a line.
            let byte = self.bytes.next()?.unwrap_or(b'\n');
            self.scan.step(byte);
            if byte == b'\n' {
                break;
            }
        }
        Ok(Some(Line {
            first,
            mark: self.scan.mark,
            numbers: &self.scan.numbers,
        }))
    }
}
