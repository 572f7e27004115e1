// Bytes written from the words of a line, and outputs compared with them.
ghost use Rattle.std.specs.Prelude.{◌≡◌, ◌≢◌, ◌*◌, ◌/◌, ◌≤◌, ◌↔◌, IfNone, IfSome, IsTrue, length, replicate, take};
ghost use Rattle.stored.specs.Outputs.{IsAnswer, IsZero, words_bytes};

use image::words::put_word;

// What an output holds before a call: a byte that the call does not write shows.
const UNWRITTEN: u8 = 165;

// Writes words, four bytes each, while there is room; how many bytes were written.
pub fn write_words(words: &[u64], bytes: &mut [u8]) -> usize
    ensures within { result ≤ length bytes.new }
    ensures written { take result bytes.new ≡ words_bytes (take (result / 4) words.now) }
    ensures all { 4 * length words.now ≤ length bytes.old → result ≡ 4 * length words.now }
{
    let mut at = 0usize;
    for word in words {
        if bytes.len() - at < 4 {
            return at;
        }
        put_word(bytes, at, (*word % 4294967296) as usize);
        at += 4;
    }
    at
}

// Makes every byte one that no call leaves.
pub fn spoil(output: &mut [u8])
    ensures { output.new ≡ replicate (length output.old) 165 }
{
    output.fill(UNWRITTEN);
}

fn is_zero(s: &[u8]) -> bool
    ensures { IsTrue result ↔ IsZero s.now }
{
    s.iter().all(|byte| *byte == 0)
}

// Whether the output is the answer, then zeros.
fn is_answer(output: &[u8], answer: &[u8]) -> bool
    ensures { IsTrue result ↔ IsAnswer output.now answer.now }
{
    output
        .strip_prefix(answer)
        .is_some_and(|rest| is_zero(rest))
}

// Whether the output is what a line stores: zeros for a refusal; else the answer that is spelt, or the image itself, then zeros.
pub fn is_stored(output: &[u8], number: u64, image: &[u8], spelt: Option<&[u8]>) -> bool
    ensures refused { number ≢ 0 → IsTrue result ↔ IsZero output.now }
    ensures spelt { number ≡ 0 → IfSome spelt.entry (λ answer. IsTrue result ↔ IsAnswer output.now answer.now) }
    ensures kept { number ≡ 0 → IfNone spelt.entry (IsTrue result ↔ IsAnswer output.now image.now) }
{
    if number != 0 {
        return is_zero(output);
    }
    is_answer(output, spelt.unwrap_or(image))
}
