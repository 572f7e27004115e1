// A text and the numbers in it, each written behind what stands already.
ghost use Rattle.std.specs.Prelude.{◌≡◌, ◌+◌, ◌<◌, ◌≤◌, length};

// A text in space that is lent: what stands before `at`.
#[derive(Drop)]
pub struct Text<'a> {
    space: &'a mut [u8],
    at: usize,
    ghost within: { at ≤ length space.now },
}

// The digit of a number below 10.
fn digit(n: u64) -> u8
    requires { n < 10 }
    ensures { result ≡ 48 + n }
{
    b'0' + n as u8
}

impl<'a> Text<'a> {
    ghost use Rattle.std.specs.Prelude.{◌++◌};
    ghost use Rattle.text.specs.Lines.{decimal, named, spaced};
    ghost use Rattle.text.specs.Written.{Puts};

    // No text yet.
    pub fn new(space: &'a mut [u8]) -> Self
        ensures same_reference { result.space.ghost_name ≡ space.entry.ghost_name }
        ensures space { result.space.now ≡ space.old }
        ensures start { result.at ≡ 0 }
    {
        Text { space, at: 0 }
    }

    // How long it is.
    pub fn len(&self) -> usize
        ensures { result ≡ self.now.at }
    {
        self.at
    }

    // Writes some bytes.
    pub fn put(&mut self, bytes: &[u8])
        requires { self.old.at + length bytes.now ≤ length self.old.space.now }
        ensures { Puts self.old self.new bytes.now }
    {
        let end = self.at + bytes.len();
        self.space[self.at..end].copy_from_slice(bytes);
        self.at = end;
    }

    // Writes a number in base 10.
    pub fn put_decimal(&mut self, n: u64)
        requires { self.old.at + length (decimal n) ≤ length self.old.space.now }
        ensures { Puts self.old self.new (decimal n) }
    {
        if n < 10 {
            self.put(&[digit(n)]);
        } else {
            self.put_decimal(n / 10);
            self.put(&[digit(n % 10)]);
        }
    }

    // Writes a space and a number.
    fn put_spaced(&mut self, n: u64)
        requires { self.old.at + length (spaced n) ≤ length self.old.space.now }
        ensures { Puts self.old self.new (spaced n) }
    {
        self.put(b" ");
        self.put_decimal(n);
    }

    // Writes three words, a space before each.
    pub fn put_words(&mut self, a: usize, b: usize, c: usize)
        requires { (a < 4294967296) × (b < 4294967296) × (c < 4294967296) × (self.old.at + 33 ≤ length self.old.space.now) }
        ensures text { Puts self.old self.new (spaced a ++ (spaced b ++ spaced c)) }
        ensures short { self.new.at ≤ self.old.at + 33 }
    {
        self.put_spaced(a as u64);
        self.put_spaced(b as u64);
        self.put_spaced(c as u64);
    }

    // Writes a name, a space and a number.
    pub fn put_name_and_number(&mut self, name: &[u8], n: u64)
        requires { self.old.at + (length name.now + 21) ≤ length self.old.space.now }
        ensures text { Puts self.old self.new (named name.now n) }
        ensures short { self.new.at ≤ self.old.at + (length name.now + 21) }
    {
        self.put(name);
        self.put_spaced(n);
    }
}
