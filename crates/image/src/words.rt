// Words: four bytes, the lowest first.
ghost use Rattle.std.specs.Prelude.{◌≡◌, ◌++◌, ◌+◌, ◌<◌, ◌≤◌, length};
ghost use Rattle.std.proofs.lemmas.List.Edits.{sets};
ghost use Rattle.image.specs.Word.{le, word};

// A word as a number.
pub fn wide(x: u32) -> usize
    ensures { (result ≡ x) × (result < 4294967296) }
{
    x as usize
}

// The word at byte `at`.
#[tactic(auto, unfolding(crate::specs::Word::word))]
pub fn word_at(s: &[u8], at: usize) -> usize
    requires { at + 4 ≤ length s.now }
    ensures { (result ≡ word s.now at) × (result < 4294967296) }
{
    wide(u32::from_le_bytes([s[at], s[at + 1], s[at + 2], s[at + 3]]))
}

// Stores the word v at byte `at`.
#[tactic(auto, unfolding(crate::specs::Word::le))]
pub fn put_word(out: &mut [u8], at: usize, v: usize)
    requires { at + 4 ≤ length out.old }
    ensures { out.new ≡ sets out.old at (le v) }
{
    let word = (v % 4294967296) as u32;
    out[at..at + 4].copy_from_slice(&word.to_le_bytes());
}

// Stores four words from byte `at` on.
pub fn put_four(out: &mut [u8], at: usize, a: usize, b: usize, c: usize, d: usize)
    requires { at + 16 ≤ length out.old }
    ensures { out.new ≡ sets out.old at (le a ++ (le b ++ (le c ++ le d))) }
{
    put_word(out, at, a);
    put_word(out, at + 4, b);
    put_word(out, at + 8, c);
    put_word(out, at + 12, d);
}
