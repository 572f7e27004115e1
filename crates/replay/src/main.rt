// Replays the list of calls on standard input, whose head says what its lines are: each call is made and compared with the answer that
// stands in its line, with every byte of an output. Names the first lines that differ, then says how many there were of each sort and how
// many of them differ.
#![tactic(auto)]

use replaying::lines::{Replayer, Sort};
use std::io;
use std::io::Read;
use stored::numbers::Lines;

// So many bytes of the input are read at a time.
const CHUNK: usize = 65600;

// A line has room for so many numbers.
const NUMBERS: usize = 16500;

// Space for an image, which may be a record too long, or an output.
const SPACE: usize = 65600;

// How many lines are read at most.
const MAX_LINES: usize = 1000000;

// So many of the lines that differ are named.
const MAX_NAMED: u64 = 20;

// How many lines there were, and how many of them differ.
#[derive(Clone, Copy, Debug, Default, PartialEq, Eq, Hash)]
struct Count {
    all: u64,
    differ: u64,
}

impl Count {
    fn count(&mut self, agrees: bool) {
        self.all = self.all.saturating_add(1);
        if !agrees {
            self.differ = self.differ.saturating_add(1);
        }
    }
}

// The lines that were run: those of each sort, by its number, and all.
#[derive(Clone, Copy, Debug, Default, PartialEq, Eq, Hash)]
struct Tally {
    sorts: [Count; Sort::HOW_MANY],
    all: Count,
}

impl Tally {
    fn count(&mut self, sort: Sort, agrees: bool) {
        self.sorts[sort as usize].count(agrees);
        self.all.count(agrees);
    }

    // Prints how many lines of each sort there were and how many of them differ.
    fn print(&self, rt: &impl Print) -> io::Result<()> {
        for sort in Sort::COUNTED {
            let Count { all, differ } = self.sorts[sort as usize];
            println!(rt; "{all} {sort}, {differ} differ")?;
        }
        Ok(())
    }
}

// Runs the lines from the first on, and names those that differ if not many did before.
fn replay<R: Read>(rt: &impl Print, input: &mut R) -> io::Result<Tally> {
    let mut lines: Lines<&mut R, CHUNK, NUMBERS> = Lines::new(input);
    let mut replayer: Replayer<SPACE> = Replayer::new();
    let mut tally = Tally::default();
    for number in 1..=MAX_LINES {
        let Some(line) = lines.next_line()? else {
            break;
        };
        let sort = Sort::from(line.first);
        let agrees = replayer.run(sort, &line);
        tally.count(sort, agrees);
        if !agrees && tally.all.differ <= MAX_NAMED {
            println!(rt; "line {number} differs")?;
        }
    }
    Ok(tally)
}

fn main(rt: HostRuntime) -> io::Result<()> {
    replay(&rt, &mut rt.stdin())?.print(&rt)
}
