// Lists the plan that a pass leaves of the image on standard input: depth, kind, p, q, r, lo, hi of each record, then the counts; or only
// the refusal.
#![tactic(auto)]

ghost use Rattle.std.specs.Prelude.{IfSome, OnOk};
ghost use Rattle.std.specs.Io.KnownBytes.{Appends};
ghost use Rattle.listing.specs.Listing.{listing};

use listing::{TEXT_BYTES, list};
use reading::read_full;
use std::io;
use std::io::{Read, Write};

// A record more than an image may have: a longer input is refused as too long.
const INPUT_BYTES: usize = 65568;

// Reads the input and writes its text. Where the input's bytes are known, and what the output holds, the text of all of these is written
// behind it.
pub fn list_input<R: Read, W: Write>(input: &mut R, output: &mut W) -> io::Result<()>
    ensures { OnOk result (IfSome (R.remaining input.old)
        (λ s. Appends (W.contents output.old) (W.contents output.new) (listing s))) }
{
    let mut image = [0u8; INPUT_BYTES];
    let mut text = [0u8; TEXT_BYTES];
    let n = read_full(input, &mut image)?;
    let end = list(&image[..n], &mut text);
    output.write_all(&text[..end])
}

fn main(rt: HostRuntime) -> io::Result<()> {
    list_input(&mut rt.stdin(), &mut rt.stdout())
}
